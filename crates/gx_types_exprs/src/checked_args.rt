//! The arguments of a call that were checked.

ghost use Rattle.std.specs.Prelude.{◌≡◌, [], ◌∷◌, ◌++◌, OnOk};

use crate::TypedExpr;
use gx_expr::Expr;
use gx_rows::{NoMemory, ValueKind};
use sqlite_items::Items;
use std::alloc::Global;

/// The first arguments of a call, checked and numbered.
#[derive(Drop)]
pub(crate) struct CheckedArgs {
    /// Their trees.
    pub(crate) exprs: Items<Expr>,
    /// Their kinds.
    pub(crate) kinds: Items<ValueKind>,
    /// The number after those of their nodes.
    pub(crate) next: u32,
}

impl CheckedArgs {
    /// No argument, before the node of this number.
    pub(crate) fn new(alloc: Global, next: u32) -> CheckedArgs
        ensures trees { result.exprs ≡ [] }
        ensures kinds { result.kinds ≡ [] }
        ensures next { result.next ≡ next }
    {
        CheckedArgs {
            exprs: Items::new(alloc),
            kinds: Items::new(alloc),
            next,
        }
    }

    /// Adds an argument.
    ///
    /// # Errors
    ///
    /// `NoMemory` if memory runs out.
    pub(crate) fn push(&mut self, argument: TypedExpr) -> Result<(), NoMemory>
        ensures trees { OnOk result (self.new.exprs ≡ self.old.exprs ++ argument.expr ∷ []) }
        ensures kinds { OnOk result (self.new.kinds ≡ self.old.kinds ++ argument.kind ∷ []) }
        ensures next { OnOk result (self.new.next ≡ argument.next) }
    {
        self.kinds.push(argument.kind)?;
        self.exprs.push(argument.expr)?;
        self.next = argument.next;
        Ok(())
    }
}
