//! The lines of statuses, to the byte. The expected texts are written by hand.

use super::support::text;
use gx_print::{
    Cause, CellKind, DataStop, Fault, LimitKind, RowKey, RowStop, ScriptStop, Status, SyntaxKind,
    TypeKind, fixed_text, status_text,
};
use gx_rows::{Row, Value, Vid};
use std::alloc::Global;
use std::process::Abort;
use std::test::Fail;

// Stops the test unless the text of this status is this one, and its exit status this number.
fn assert_ends(
    rt: &impl Abort,
    alloc: Global,
    status: &Status,
    code: u8,
    want: &str,
) -> Result<(), Fail> {
    assert_eq!(rt; status_text(alloc, status)?.as_str(), want);
    assert_eq!(rt; status.code(), code, "{want}");
    Ok(())
}

#[test]
fn plain_statuses(rt: HostRuntime) -> Result<(), Fail> {
    let alloc = rt.alloc();
    assert_ends(&rt, alloc, &Status::Done, 0, "")?;
    assert_eq!(rt; fixed_text(&Status::Done), Some(""));
    assert_eq!(rt; fixed_text(&Status::Sink), Some("sink\n"));
    assert_eq!(rt; fixed_text(&Status::NoMemory), Some("no memory\n"));
    assert_eq!(rt; fixed_text(&Status::Schedule(2)), None);
    assert_ends(
        &rt,
        alloc,
        &Status::Usage,
        2,
        "usage: gx run SCRIPT [--parts N] [--cut 1d|2d|random|canonical|rows] [--workers N] \
         [--schedule FILE] [--report] | gx show SCRIPT | gx sample SEED N\n",
    )?;
    assert_ends(&rt, alloc, &Status::Schedule(2), 1, "schedule: line 2\n")?;
    let name = text(alloc, "höhe 1.csv")?;
    assert_ends(&rt, alloc, &Status::Source(name), 4, "source: höhe 1.csv\n")?;
    assert_ends(&rt, alloc, &Status::Sink, 5, "sink\n")?;
    assert_ends(&rt, alloc, &Status::NoMemory, 6, "no memory\n")
}

#[test]
fn refused_scripts(rt: HostRuntime) -> Result<(), Fail> {
    let alloc = rt.alloc();
    let offsets = [
        (SyntaxKind::NotToken, "script: byte 18: not a token\n"),
        (SyntaxKind::TextOpen, "script: byte 18: text not closed\n"),
        (SyntaxKind::TextLong, "script: byte 18: text too long\n"),
        (SyntaxKind::NameLong, "script: byte 18: name too long\n"),
        (
            SyntaxKind::NumberLarge,
            "script: byte 18: number too large\n",
        ),
        (
            SyntaxKind::Unexpected,
            "script: byte 18: not expected here\n",
        ),
    ];
    for (kind, want) in offsets {
        let status = Status::Script(ScriptStop::Syntax(18, kind));
        assert_ends(&rt, alloc, &status, 1, want)?;
    }
    let status = Status::Script(ScriptStop::NotUtf8(4_294_967_295));
    assert_ends(
        &rt,
        alloc,
        &status,
        1,
        "script: byte 4294967295: not UTF-8\n",
    )
}

#[test]
fn refused_statements(rt: HostRuntime) -> Result<(), Fail> {
    let alloc = rt.alloc();
    let statements = [
        (TypeKind::NameTaken, "script: statement 4: name taken\n"),
        (TypeKind::NameUnknown, "script: statement 4: name unknown\n"),
        (TypeKind::WrongSort, "script: statement 4: wrong sort\n"),
        (
            TypeKind::ColumnName,
            "script: statement 4: column name not allowed\n",
        ),
        (TypeKind::ColumnTwice, "script: statement 4: column twice\n"),
        (
            TypeKind::ColumnsDiffer,
            "script: statement 4: columns differ\n",
        ),
        (
            TypeKind::MergeKind,
            "script: statement 4: merge does not take this kind\n",
        ),
        (
            TypeKind::ConstKind,
            "script: statement 4: constant of wrong kind\n",
        ),
        (TypeKind::NotBuilt, "script: statement 4: not built\n"),
    ];
    for (kind, want) in statements {
        let status = Status::Script(ScriptStop::Typing(4, None, kind));
        assert_ends(&rt, alloc, &status, 1, want)?;
    }
    let expressions = [
        (
            TypeKind::SideUnknown,
            "script: statement 5, expression 0: side not readable here\n",
        ),
        (
            TypeKind::ColumnUnknown,
            "script: statement 5, expression 0: column unknown\n",
        ),
        (
            TypeKind::FunctionUnknown,
            "script: statement 5, expression 0: function unknown\n",
        ),
        (
            TypeKind::KindWrong,
            "script: statement 5, expression 0: wrong kind\n",
        ),
    ];
    for (kind, want) in expressions {
        let status = Status::Script(ScriptStop::Typing(5, Some(0), kind));
        assert_ends(&rt, alloc, &status, 1, want)?;
    }
    Ok(())
}

#[test]
fn refused_files(rt: HostRuntime) -> Result<(), Fail> {
    let alloc = rt.alloc();
    let cells = [
        (
            CellKind::NotInt,
            "data: ages.csv: row 2, column age: not an int\n",
        ),
        (
            CellKind::NotBool,
            "data: ages.csv: row 2, column age: not a bool\n",
        ),
        (
            CellKind::NotText,
            "data: ages.csv: row 2, column age: not a text\n",
        ),
        (
            CellKind::TextTooLong,
            "data: ages.csv: row 2, column age: text too long\n",
        ),
        (
            CellKind::NotIds,
            "data: ages.csv: row 2, column age: not ids\n",
        ),
        (
            CellKind::ListTooLong,
            "data: ages.csv: row 2, column age: list too long\n",
        ),
    ];
    for (kind, want) in cells {
        let file = text(alloc, "ages.csv")?;
        let column = Some(text(alloc, "age")?);
        let stop = RowStop::Cell {
            row: 2,
            column: 7,
            kind,
        };
        assert_ends(
            &rt,
            alloc,
            &Status::Data(DataStop { file, column, stop }),
            1,
            want,
        )?;
    }
    let file = text(alloc, "ages.csv")?;
    let column = Some(text(alloc, "id")?);
    let stop = RowStop::Header(7);
    let status = Status::Data(DataStop { file, column, stop });
    assert_ends(
        &rt,
        alloc,
        &status,
        1,
        "data: ages.csv: column id missing\n",
    )?;
    let file = text(alloc, "ages.csv")?;
    let stop = RowStop::Shape(1);
    let status = Status::Data(DataStop {
        file,
        column: None,
        stop,
    });
    assert_ends(&rt, alloc, &status, 1, "data: ages.csv: row 1: shape\n")?;
    let file = text(alloc, "follow.txt")?;
    let stop = RowStop::Line(4);
    let status = Status::Data(DataStop {
        file,
        column: None,
        stop,
    });
    assert_ends(
        &rt,
        alloc,
        &status,
        1,
        "data: follow.txt: line 4: not an edge\n",
    )
}

#[test]
fn faults(rt: HostRuntime) -> Result<(), Fail> {
    let alloc = rt.alloc();
    let causes = [
        (
            Cause::Overflow,
            "fault: statement 4, vertex 5, expression 1: overflow\n",
        ),
        (
            Cause::DivideByZero,
            "fault: statement 4, vertex 5, expression 1: divide by zero\n",
        ),
        (
            Cause::TextTooLong,
            "fault: statement 4, vertex 5, expression 1: text too long\n",
        ),
        (
            Cause::ListTooLong,
            "fault: statement 4, vertex 5, expression 1: list too long\n",
        ),
    ];
    for (cause, want) in causes {
        let key = RowKey::Vertex(Vid(5));
        let status = Status::Fault(Fault {
            statement: 4,
            key,
            expr: 1,
            cause,
        });
        assert_ends(&rt, alloc, &status, 1, want)?;
    }
    let key = RowKey::Edge(Vid(i64::MIN), Vid(i64::MAX), Row::one(Value::Int(8)));
    let cause = Cause::Overflow;
    let status = Status::Fault(Fault {
        statement: 2,
        key,
        expr: 0,
        cause,
    });
    assert_ends(
        &rt,
        alloc,
        &status,
        1,
        "fault: statement 2, edge -9223372036854775808 9223372036854775807, expression 0: overflow\n",
    )
}

#[test]
fn limits(rt: HostRuntime) -> Result<(), Fail> {
    let alloc = rt.alloc();
    let limits = [
        (LimitKind::ScriptBytes, "limit: script bytes 1048576\n"),
        (LimitKind::ScheduleBytes, "limit: schedule bytes 1048576\n"),
        (LimitKind::Events, "limit: events 1000000\n"),
        (LimitKind::FileBytes, "limit: file bytes 33554432\n"),
        (LimitKind::AllBytes, "limit: all bytes 67108864\n"),
        (LimitKind::FileRows, "limit: file rows 500000\n"),
        (LimitKind::AllRows, "limit: all rows 1000000\n"),
        (LimitKind::Columns, "limit: columns 16\n"),
        (LimitKind::Sends, "limit: sends 16\n"),
        (LimitKind::Statements, "limit: statements 1000\n"),
        (LimitKind::StatementTokens, "limit: statement tokens 2048\n"),
        (LimitKind::Depth, "limit: depth 64\n"),
        (LimitKind::Rounds, "limit: rounds of a pregel 1000\n"),
        (LimitKind::AllRounds, "limit: rounds of a script 10000\n"),
    ];
    for (kind, want) in limits {
        assert_ends(&rt, alloc, &Status::Limit(kind), 3, want)?;
    }
    Ok(())
}
