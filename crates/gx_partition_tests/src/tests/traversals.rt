//! The key and the fault are carried on.

use gx_rows::{Cause, EvalStop, PartStop, RowKey, Vid};
use gx_traverse::stop_at;
use std::test::Fail;

#[test]
fn carries_the_fault(rt: HostRuntime) -> Result<(), Fail> {
    let cause = Cause::DivideByZero;
    let fault = EvalStop::Fault { cause, expr: 7 };
    let stop = stop_at(RowKey::Vertex(Vid(-3)), fault);
    let key = RowKey::Vertex(Vid(-3));
    assert_eq!(rt;
        stop,
        PartStop::Fault {
            key,
            expr: 7,
            cause
        }
    );
    let stop = stop_at(RowKey::Vertex(Vid(2)), EvalStop::NoMemory);
    assert_eq!(rt; stop, PartStop::NoMemory);
    Ok(())
}
