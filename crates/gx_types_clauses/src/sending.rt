//! The fourth check: the messages that edges send.

ghost use Rattle.std.specs.Prelude.{◌≡◌, [], ◌∷◌, ◌++◌, ◌+◌, ◌<◌, ◌^◌, All, IfOk, OnOk, map, sum};
ghost use Rattle.gx_syntax_tree.specs.Bounds.{node_count};
ghost use Rattle.gx_types_clauses.specs.Sending as sending;
ghost use Rattle.gx_types_clauses.specs.ClauseBounds.{HasShortTexts};
ghost use Rattle.gx_types_clauses.specs.StmtStops.{StmtReturns};
ghost use Rattle.gx_types_exprs.specs.ExprScopes.{scope_names};

use crate::tests_of_rows::type_test;
use crate::values::type_values;
use crate::words::end_of_written;
use crate::{StmtStop, TypedSend};
use gx_rows::{NoMemory, ValueKind};
use gx_syntax_tree::SendClause;
use gx_types_exprs::ExprScope;
use sqlite_items::Items;
use std::alloc::Global;

/// A send that was checked.
#[derive(Drop)]
pub(crate) struct TypedClause {
    /// The send.
    pub(crate) send: TypedSend,
    /// The kinds of its values.
    pub(crate) kinds: Items<ValueKind>,
    /// The number after those of its nodes.
    pub(crate) next: u32,
}

/// Sends that were checked.
#[derive(Drop)]
pub struct TypedSends {
    /// The sends, in order.
    pub sends: Items<TypedSend>,
    /// The kinds of the values of each.
    pub kinds: Items<Items<ValueKind>>,
    /// The number after those of their nodes.
    pub next: u32,
}

impl TypedSends {
    // No send, before the node of this number.
    fn new(alloc: Global, next: u32) -> TypedSends
        ensures { result ≡ record { sends = []; kinds = []; next = next } }
    {
        TypedSends {
            sends: Items::new(alloc),
            kinds: Items::new(alloc),
            next,
        }
    }

    // Adds a send.
    fn push(&mut self, clause: TypedClause) -> Result<(), NoMemory>
        ensures { OnOk result (self.new ≡ sending.with_clause self.old clause) }
    {
        self.kinds.push(clause.kinds)?;
        self.sends.push(clause.send)?;
        self.next = clause.next;
        Ok(())
    }
}

/// Checks sends in order, and numbers their nodes from `first` on.
///
/// # Errors
///
/// The first check that fails; a depth of more than 64; `NoMemory` if memory runs out.
pub fn type_sends(
    alloc: Global,
    clauses: &Items<SendClause>,
    scope: &ExprScope<'_>,
    first: u32,
) -> Result<TypedSends, StmtStop>
    requires few_nodes { first + sum (map node_count (sending.sent_exprs clauses.now)) < 2 ^ 32 }
    requires short_texts { All HasShortTexts (sending.sent_exprs clauses.now) }
    ensures { StmtReturns result (sending.typed_sends (scope_names scope.now) first clauses.now) }
{
    let mut typed = TypedSends::new(alloc, first);
    'clauses: for clause in clauses.as_slice() {
        let next = typed.next;
        typed.push(type_send(alloc, clause, scope, next)?)?;
    }
    Ok(typed)
}

// Checks a send: its values, and then its test.
#[tactic(auto, using(crate::specs::BoundLaws::left_short, crate::specs::BoundLaws::right_short, crate::specs::BoundLaws::joined_counted))]
fn type_send(
    alloc: Global,
    clause: &SendClause,
    scope: &ExprScope<'_>,
    first: u32,
) -> Result<TypedClause, StmtStop>
    requires few_nodes { first + sum (map node_count (sending.clause_exprs clause.now)) < 2 ^ 32 }
    requires short_texts { All HasShortTexts (sending.clause_exprs clause.now) }
    ensures typed { StmtReturns result
        (sending.typed_clause (scope_names scope.now) first clause.now) }
    ensures counted { IfOk result
        (λ t. t.next ≡ first + sum (map node_count (sending.clause_exprs clause.now))) }
{
    let values = type_values(alloc, &clause.values, scope, first)?;
    let when = type_test(alloc, &clause.when, scope, values.next)?;
    let send = TypedSend {
        to: end_of_written(clause.to),
        values: values.exprs,
        when: when.test,
    };
    Ok(TypedClause {
        send,
        kinds: values.kinds,
        next: when.next,
    })
}
