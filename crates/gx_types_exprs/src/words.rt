//! What words and operators stand for. To add a function, add an arm here and a line in
//! specs/ExprWords.antt.

ghost use Rattle.std.specs.Prelude.{◌≡◌};
ghost use Rattle.gx_types_exprs.specs.ExprTyping.{function_of};
ghost use Rattle.gx_types_exprs.specs.ExprWords as words;

use gx_expr::{BinaryOp, Function, Side, UnaryOp};
use gx_syntax_tree::{BinaryOp as WrittenBinary, UnaryOp as WrittenUnary};

/// The side that a word before a dot names.
pub(crate) fn side_of_word(word: &str) -> Option<Side>
    ensures { result ≡ words.side_of_word word.now }
{
    match word {
        "v" => Some(Side::Vertex),
        "src" => Some(Side::Src),
        "dst" => Some(Side::Dst),
        "edge" => Some(Side::Edge),
        "o" => Some(Side::Other),
        "m" => Some(Side::Message),
        _ => None,
    }
}

// The function of a name.
fn function_of_word(word: &str) -> Option<Function>
    ensures { result ≡ words.function_of_word word.now }
{
    match word {
        "if" => Some(Function::If),
        "min" => Some(Function::Min),
        "max" => Some(Function::Max),
        "abs" => Some(Function::Abs),
        "len" => Some(Function::Len),
        "concat" => Some(Function::Concat),
        "text" => Some(Function::Text),
        "ids" => Some(Function::Ids),
        "add" => Some(Function::Add),
        "has" => Some(Function::Has),
        _ => None,
    }
}

// How many arguments a function takes.
fn arity_of(function: Function) -> usize
    ensures { result ≡ words.arity_of function }
{
    match function {
        Function::If => 3,
        Function::Min => 2,
        Function::Max => 2,
        Function::Abs => 1,
        Function::Len => 1,
        Function::Concat => 2,
        Function::Text => 1,
        Function::Ids => 0,
        Function::Add => 2,
        Function::Has => 2,
    }
}

/// The function of this name that takes this number of arguments.
pub(crate) fn function_of(name: &str, count: usize) -> Option<Function>
    ensures { result ≡ function_of name.now count }
{
    let function = function_of_word(name)?;
    if count == arity_of(function) {
        Some(function)
    } else {
        None
    }
}

/// The prefix operator that is written so.
pub(crate) fn unary_of_written(operator: WrittenUnary) -> UnaryOp
    ensures { result ≡ words.unary_of_written operator }
{
    match operator {
        WrittenUnary::Not => UnaryOp::Not,
        WrittenUnary::Neg => UnaryOp::Neg,
    }
}

/// The infix operator that is written so.
pub(crate) fn binary_of_written(operator: WrittenBinary) -> BinaryOp
    ensures { result ≡ words.binary_of_written operator }
{
    match operator {
        WrittenBinary::Or => BinaryOp::Or,
        WrittenBinary::And => BinaryOp::And,
        WrittenBinary::Eq => BinaryOp::Eq,
        WrittenBinary::Ne => BinaryOp::Ne,
        WrittenBinary::Lt => BinaryOp::Lt,
        WrittenBinary::Le => BinaryOp::Le,
        WrittenBinary::Gt => BinaryOp::Gt,
        WrittenBinary::Ge => BinaryOp::Ge,
        WrittenBinary::Add => BinaryOp::Add,
        WrittenBinary::Sub => BinaryOp::Sub,
        WrittenBinary::Mul => BinaryOp::Mul,
        WrittenBinary::Div => BinaryOp::Div,
        WrittenBinary::Rem => BinaryOp::Rem,
    }
}
