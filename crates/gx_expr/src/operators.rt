//! Operators and functions. What they mean is in specs/.

ghost use Rattle.std.specs.Prelude.{◌≡◌};
ghost use Rattle.gx_expr.specs.Evaluation.{is_arithmetic, is_comparison};

/// A prefix operator.
#[derive(Clone, Copy, Debug, PartialEq, Eq)]
pub enum UnaryOp {
    /// `-a`
    Neg,
    /// `not a`
    Not,
}

/// An infix operator.
#[derive(Clone, Copy, Debug, PartialEq, Eq)]
pub enum BinaryOp {
    /// `a + b`
    Add,
    /// `a - b`
    Sub,
    /// `a * b`
    Mul,
    /// `a / b`, truncated toward zero.
    Div,
    /// `a % b`, with the sign of `a`.
    Rem,
    /// `a == b`
    Eq,
    /// `a != b`
    Ne,
    /// `a < b`
    Lt,
    /// `a <= b`
    Le,
    /// `a > b`
    Gt,
    /// `a >= b`
    Ge,
    /// `a and b`
    And,
    /// `a or b`
    Or,
}

impl BinaryOp {
    /// Whether it is an operator on numbers that gives a number.
    pub(crate) fn is_arithmetic(self) -> bool
        ensures { result ≡ is_arithmetic self }
    {
        matches!(
            self,
            BinaryOp::Add | BinaryOp::Sub | BinaryOp::Mul | BinaryOp::Div | BinaryOp::Rem
        )
    }

    /// Whether it is an operator that compares two values.
    pub(crate) fn is_comparison(self) -> bool
        ensures { result ≡ is_comparison self }
    {
        matches!(
            self,
            BinaryOp::Eq | BinaryOp::Ne | BinaryOp::Lt | BinaryOp::Le | BinaryOp::Gt | BinaryOp::Ge
        )
    }
}

/// A function.
#[derive(Clone, Copy, Debug, PartialEq, Eq)]
pub enum Function {
    /// `if(condition, a, b)`
    If,
    /// `min(a, b)`
    Min,
    /// `max(a, b)`
    Max,
    /// `abs(a)`
    Abs,
    /// `len(a)`: the bytes of a text, or the entries of a list.
    Len,
    /// `concat(a, b)`
    Concat,
    /// `text(a)`: the decimal text of a number.
    Text,
    /// `ids()`: the empty list.
    Ids,
    /// `add(list, a)`: the list with one entry more.
    Add,
    /// `has(list, a)`
    Has,
}
