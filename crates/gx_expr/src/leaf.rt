//! Leaves: numbers that an expression reads without an operation.

ghost use Rattle.std.specs.Prelude.{◌≡◌, IfSome};
ghost use Rattle.std.specs.Option.{option_copied};
ghost use Rattle.gx_expr.specs.Numbers.{number_in};
ghost use Rattle.gx_expr.specs.Shapes.{IsLeafOf, leaf_number};

use crate::expr::Expr;
use crate::scope::Scope;
use crate::side::Side;
use gx_rows::Value;

/// A number that an expression reads.
#[derive(Clone, Copy)]
pub(crate) enum Leaf {
    /// A constant.
    Number(i64),
    /// The column of this position on a side.
    Column(Side, u32),
    /// The identifier of the vertex on a side.
    Id(Side),
}

impl Leaf {
    /// The leaf that an expression is, if it is one and may be a number.
    pub(crate) fn of(e: &Expr) -> Option<Leaf>
        ensures { IfSome result (λ leaf. IsLeafOf leaf e.now) }
    {
        match e {
            Expr::Const(_, Value::Int(number)) => Some(Leaf::Number(*number)),
            Expr::Column(_, side, i) => Some(Leaf::Column(*side, *i)),
            Expr::Id(_, side) => Some(Leaf::Id(*side)),
            _ => None,
        }
    }

    /// The number of the leaf in a scope; `None` exactly if it is no number there.
    pub(crate) fn number<S: Scope>(self, scope: &S) -> Option<i64>
        ensures { result ≡ leaf_number (S.values scope.now) self }
    {
        match self {
            Leaf::Number(number) => Some(number),
            Leaf::Column(side, i) => scope.number(side, i),
            Leaf::Id(side) => match scope.id(side) {
                Some(id) => Some(id.0),
                None => None,
            },
        }
    }
}

/// The number of a value, if there is one and it is a number.
pub(crate) fn number_in(value: Option<&Value>) -> Option<i64>
    ensures { result ≡ number_in (option_copied value.entry) }
{
    match value {
        Some(Value::Int(number)) => Some(*number),
        _ => None,
    }
}
