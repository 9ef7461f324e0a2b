//! The loaded rows of two statements.

use gx_load::{Loads, edge_list_of};
use gx_rows::Vid;
use std::test::Fail;

#[test]
fn keeps_each_load(rt: HostRuntime) -> Result<(), Fail> {
    let alloc = rt.alloc();
    let mut loads = Loads::new(alloc);
    assert_eq!(rt; loads.len(), 0);
    let edges = edge_list_of(alloc, b"5 6\n7 8", false)?;
    loads.push(3, Vec::new(alloc))?;
    loads.push(9, edges)?;
    assert_eq!(rt; loads.len(), 2);
    assert_eq!(rt; loads.entry(0).0, 3);
    assert_eq!(rt; loads.entry(0).1.len(), 0);
    let (statement, rows) = loads.entry(1);
    assert_eq!(rt; statement, 9);
    assert_eq!(rt; rows.len(), 2);
    assert_eq!(rt; rows[1].0, Vid(7));
    Ok(())
}
