//! What a node is computed from, before it is known at which node that is.

ghost use Rattle.std.specs.Prelude.{◌≡◌};
ghost use Rattle.gx_plan.specs.Recipes as recipes;

use crate::{Kind, Recipe};
use gx_lineage::Pattern;

/// What a node reads: the result of a statement, by its recipe, and which of its parts.
#[derive(Clone, Copy, Debug, PartialEq, Eq)]
pub struct Feed {
    /// What is read.
    pub recipe: Recipe,
    /// Which of its parts each part of the node reads.
    pub pattern: Pattern,
}

impl Feed {
    /// Each part reads the part of the same number.
    pub(crate) fn same_part(kind: Kind, statement: u32) -> Feed
        ensures { result ≡ recipes.same_part kind statement }
    {
        Feed {
            recipe: Recipe::of(kind, statement),
            pattern: Pattern::Same,
        }
    }

    /// Each part reads all parts.
    pub(crate) fn each_part(kind: Kind, statement: u32) -> Feed
        ensures { result ≡ recipes.each_part kind statement }
    {
        Feed {
            recipe: Recipe::of(kind, statement),
            pattern: Pattern::All,
        }
    }
}
