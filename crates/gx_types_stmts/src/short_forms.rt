//! The short forms of `aggregate`: `indegrees`, `outdegrees`, `degrees`, `neighbours`.

ghost use Rattle.std.specs.Prelude.{◌≡◌, [], ◌∷◌, IfOk, Ok};
ghost use Rattle.gx_types_clauses.specs.StmtStops.{StmtReturns};
ghost use Rattle.gx_types_stmts.specs.Makes.{operand_types};
ghost use Rattle.gx_types_stmts.specs.ShortForms as short_forms;

use crate::operand::Operand;
use crate::typed_body::TypedBody;
use crate::{EdgeEnd, StmtStop, TypedSend, TypedStmt};
use gx_expr::{Expr, Side};
use gx_merge::MergeKind;
use gx_rows::{NoMemory, Value, ValueKind};
use gx_syntax_tree::NeighbourWord;
use gx_types_clauses::lone_type;
use sqlite_items::Items;
use std::alloc::Global;

// What each edge sends to its ends.
#[derive(Clone, Copy)]
enum Content {
    // The number 1.
    One,
    // The identifier of the other end.
    Neighbour,
}

/// `indegrees`, `outdegrees` and `degrees`, by the edges that are counted.
///
/// # Errors
///
/// `NoMemory` if memory runs out.
pub(crate) fn type_degrees(
    alloc: Global,
    graph: &Operand<'_>,
    direction: NeighbourWord,
) -> Result<TypedBody, StmtStop>
    ensures { StmtReturns result
        (Ok (short_forms.degree_table (operand_types graph.now) direction)) }
{
    let degree = lone_type(alloc, "degree", ValueKind::Int)?;
    let merges = lone_merge(alloc, MergeKind::Sum)?;
    let sends = sends_along(alloc, Content::One, direction)?;
    let stmt = TypedStmt::Aggregate {
        graph: graph.number,
        sends,
        merges,
        nodes: 0,
    };
    Ok(TypedBody::table(stmt, degree))
}

/// `neighbours`
///
/// # Errors
///
/// `NoMemory` if memory runs out.
pub(crate) fn type_neighbours(
    alloc: Global,
    graph: &Operand<'_>,
    direction: NeighbourWord,
) -> Result<TypedBody, StmtStop>
    ensures { StmtReturns result
        (Ok (short_forms.neighbour_table (operand_types graph.now) direction)) }
{
    let ids = lone_type(alloc, "ids", ValueKind::Ids)?;
    let merges = lone_merge(alloc, MergeKind::Bag)?;
    let sends = sends_along(alloc, Content::Neighbour, direction)?;
    let stmt = TypedStmt::Aggregate {
        graph: graph.number,
        sends,
        merges,
        nodes: 0,
    };
    Ok(TypedBody::table(stmt, ids))
}

// A list of one merge.
fn lone_merge(alloc: Global, merge: MergeKind) -> Result<Items<MergeKind>, NoMemory>
    ensures { IfOk result (λ merges. merges ≡ merge ∷ []) }
{
    let mut merges = Items::new(alloc);
    merges.push(merge)?;
    Ok(merges)
}

// The sends to the ends of edges that come in, go out, or either.
fn sends_along(
    alloc: Global,
    content: Content,
    direction: NeighbourWord,
) -> Result<Items<TypedSend>, NoMemory>
    ensures { IfOk result
        (λ sends. sends ≡ short_forms.sends_along (short_forms.sent content) direction) }
{
    let mut sends = Items::new(alloc);
    match direction {
        NeighbourWord::In => sends.push(send(alloc, content, EdgeEnd::Dst)?)?,
        NeighbourWord::Out => sends.push(send(alloc, content, EdgeEnd::Src)?)?,
        NeighbourWord::Either => {
            sends.push(send(alloc, content, EdgeEnd::Dst)?)?;
            sends.push(send(alloc, content, EdgeEnd::Src)?)?;
        }
    }
    Ok(sends)
}

// A send to one end.
fn send(alloc: Global, content: Content, to: EdgeEnd) -> Result<TypedSend, NoMemory>
    ensures { IfOk result (λ s. s ≡ short_forms.sent content to) }
{
    let mut values = Items::new(alloc);
    values.push(sent_value(content, to))?;
    let when = None;
    Ok(TypedSend { to, values, when })
}

// What is sent to one end.
fn sent_value(content: Content, to: EdgeEnd) -> Expr
    ensures { result ≡ short_forms.sent_value content to }
{
    match (content, to) {
        (Content::One, _) => Expr::Const(0, Value::Int(1)),
        (Content::Neighbour, EdgeEnd::Src) => Expr::Id(0, Side::Dst),
        (Content::Neighbour, EdgeEnd::Dst) => Expr::Id(0, Side::Src),
    }
}
