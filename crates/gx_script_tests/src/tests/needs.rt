//! The statements that one needs, and the row types of what statements make.

use super::support::{PRELUDE, lengthened, typed};
use gx_rows::NoMemory;
use gx_types::Typed;
use std::alloc::Global;
use std::test::Fail;

// The numbers, separated by blanks.
fn joined(alloc: Global, numbers: &[u32]) -> Result<String, NoMemory> {
    let mut text = String::new(alloc);
    for number in numbers {
        let number = format!(in alloc; "{number} ")?;
        text.push_str(number.as_str())?;
    }
    Ok(text)
}

fn needs_of(alloc: Global, script: &Option<Typed>, s: u32) -> Result<String, NoMemory> {
    let Some(script) = script else {
        return Ok(String::new(alloc));
    };
    if s < 1 || s > script.len() {
        return Ok(String::new(alloc));
    }
    let needs = script.needs(s)?;
    joined(alloc, needs.as_slice())
}

#[test]
fn uses_of_uses_are_needed(rt: HostRuntime) -> Result<(), Fail> {
    let alloc = rt.alloc();
    let text = "mapvertices h = g (x: v.a); print vertices h; print table s; count edges g; \
                fromedges i = e (); print edges i;";
    let text = lengthened(alloc, text, "", 0, "")?;
    let script = typed(alloc, text.as_str());
    assert!(&rt; script.is_some());
    let table = [
        (1, ""),
        (3, ""),
        (4, "1 3 "),
        (5, "1 3 4 "),
        (6, "1 3 4 5 "),
        (7, "1 "),
        (8, "1 3 4 "),
        (9, "3 "),
        (10, "3 9 "),
    ];
    for (s, expected) in table {
        let needs = needs_of(alloc, &script, s)?;
        assert_eq!(&rt; needs.as_str(), expected, "at {s}");
    }
    Ok(())
}

// The row types of statement `s`: of rows, a bar, and of edges.
fn types_of(alloc: Global, script: &Option<Typed>, s: u32) -> Result<String, NoMemory> {
    let mut text = String::new(alloc);
    let Some(script) = script else {
        return Ok(text);
    };
    if s < 1 || s > script.len() {
        return Ok(text);
    }
    if let Some(vertices) = script.vertex_type(s) {
        for i in 0..vertices.len() {
            let column = format!(in alloc; "{}:{:?} ", vertices.name(i), vertices.kind(i))?;
            text.push_str(column.as_str())?;
        }
    }
    text.push_str("|")?;
    if let Some(edges) = script.edge_type(s) {
        for i in 0..edges.len() {
            let column = format!(in alloc; " {}:{:?}", edges.name(i), edges.kind(i))?;
            text.push_str(column.as_str())?;
        }
    }
    Ok(text)
}

#[test]
fn statements_make_rows(rt: HostRuntime) -> Result<(), Fail> {
    let alloc = rt.alloc();
    let text = "mapvertices h = g (x: v.a, y: v.t == \"\"); edgelist k from \"f\" oriented; \
                fromedges i = k (n: -1, m: ids()); print edges i;";
    let text = lengthened(alloc, text, "", 0, "")?;
    let script = typed(alloc, text.as_str());
    assert!(&rt; script.is_some());
    let table = [
        (1, "a:Int t:Text b:Bool l:Ids |"),
        (3, "| w:Int x:Text"),
        (4, "a:Int t:Text b:Bool l:Ids | w:Int x:Text"),
        (5, "x:Int y:Bool | w:Int x:Text"),
        (6, "| value:Int"),
        (7, "n:Int m:Ids | value:Int"),
        (8, "|"),
    ];
    for (s, expected) in table {
        let types = types_of(alloc, &script, s)?;
        assert_eq!(&rt; types.as_str(), expected, "at {s}");
    }
    Ok(())
}
