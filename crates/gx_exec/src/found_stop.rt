//! Stops that are found in blocks.

ghost use Rattle.std.specs.Prelude.{◌≡◌, IfOk};
ghost use Rattle.gx_exec_contents.specs.PartContents.{stop_in};
ghost use Rattle.gx_exec_contents.specs.PhaseFaults.{fault_of_stop, key_cmp, lesser_of};
ghost use Rattle.gx_exec_work.specs.Works.{shown};

use gx_exec_work::Block;
use gx_rows::{Cause, Fault, NoMemory, RowKey};
use std::cmp::Ordering;
use std::marker::Model;

/// The stop of a block: the vertex or edge on which an expression has no value, the number of the
/// node, and why.
#[derive(Drop)]
pub(crate) struct FoundStop {
    key: RowKey,
    expr: u32,
    cause: Cause,
}

impl Model for FoundStop {
    ghost use Rattle.gx_exec_contents.specs.PartContents.{BlockStop};

    ghost Value = { BlockStop };

    ghost view = { λ s. record { key = s.key; expr = s.expr; cause = s.cause } };
}

impl FoundStop {
    // The stop of a block, if it is stopped.
    pub(crate) fn of_block(block: &Block) -> Result<Option<FoundStop>, NoMemory>
        ensures { IfOk result (λ stop. stop ≡ stop_in (shown block.now)) }
    {
        match block {
            Block::Stopped { key, expr, cause } => {
                let key = copy_key(key)?;
                Ok(Some(FoundStop {
                    key,
                    expr: *expr,
                    cause: *cause,
                }))
            }
            Block::Table(_) => Ok(None),
            Block::Edges(_) => Ok(None),
        }
    }

    // The fault of statement `s` with this stop.
    pub(crate) fn of_statement(self, s: u32) -> Fault
        ensures { result ≡ fault_of_stop s self }
    {
        Fault {
            statement: s,
            key: self.key,
            expr: self.expr,
            cause: self.cause,
        }
    }
}

// The stop of the lesser key, the first of two with the same key.
pub(crate) fn lesser(a: Option<FoundStop>, b: Option<FoundStop>) -> Option<FoundStop>
    ensures { result ≡ lesser_of a b }
{
    let Some(a) = a else {
        return b;
    };
    let Some(b) = b else {
        return Some(a);
    };
    if compare_keys(&a.key, &b.key).is_gt() {
        Some(b)
    } else {
        Some(a)
    }
}

// Vertices by their identifiers, edges in edge order, and vertices before edges.
fn compare_keys(a: &RowKey, b: &RowKey) -> Ordering
    ensures { result ≡ key_cmp a.now b.now }
{
    match (a, b) {
        (RowKey::Vertex(v), RowKey::Vertex(w)) => v.cmp(w),
        (RowKey::Vertex(_), RowKey::Edge(_, _, _)) => Ordering::Less,
        (RowKey::Edge(_, _, _), RowKey::Vertex(_)) => Ordering::Greater,
        (RowKey::Edge(src, dst, row), RowKey::Edge(other_src, other_dst, other_row)) => src
            .cmp(other_src)
            .then(dst.cmp(other_dst))
            .then(row.cmp(other_row)),
    }
}

// An equal key.
fn copy_key(key: &RowKey) -> Result<RowKey, NoMemory>
    ensures { IfOk result (λ copy. copy ≡ key.now) }
{
    match key {
        RowKey::Vertex(v) => Ok(RowKey::Vertex(*v)),
        RowKey::Edge(src, dst, row) => {
            let row = row.copy()?;
            Ok(RowKey::Edge(*src, *dst, row))
        }
    }
}
