//! Recipes of nodes.

ghost use Rattle.std.specs.Prelude.{◌≡◌};
ghost use Rattle.gx_plan.specs.Recipes as recipes;

use crate::Kind;

/// How the blocks of a node are made: what they hold, and the statement that asks for them and says
/// how. The expressions, merges and constants are those of the statement.
#[derive(Clone, Copy, Debug, PartialEq, Eq)]
pub struct Recipe {
    /// What the blocks hold.
    pub kind: Kind,
    /// The number of the statement, counted from 1.
    pub statement: u32,
    /// The step of the rounds of the statement; 0 if it has none.
    pub step: u32,
}

impl Recipe {
    /// The recipe of the node of this kind that statement `statement`, which has no rounds, adds.
    pub fn of(kind: Kind, statement: u32) -> Recipe
        ensures { result ≡ recipes.recipe_of kind statement }
    {
        Recipe {
            kind,
            statement,
            step: 0,
        }
    }
}
