//! The infix operator that a token is. Levels are in `gx_syntax_tree`.

ghost use Rattle.std.specs.Prelude.{◌≡◌};
ghost use Rattle.gx_syntax_tokens.specs.TokenTexts.{terminal_of};
ghost use Rattle.gx_syntax_exprs.specs.Operators as ops;

use gx_syntax_tokens::{Symbol, TokenValue};
use gx_syntax_tree::{BinaryOp, UnaryOp};

/// The infix operator that a word is.
fn word_operator(word: &str) -> Option<BinaryOp>
    ensures { result ≡ ops.word_operator word.now }
{
    if word == "or" {
        Some(BinaryOp::Or)
    } else if word == "and" {
        Some(BinaryOp::And)
    } else {
        None
    }
}

/// The infix operator that a symbol is.
fn symbol_operator(symbol: Symbol) -> Option<BinaryOp>
    ensures { result ≡ ops.symbol_operator symbol }
{
    match symbol {
        Symbol::Equal => Some(BinaryOp::Eq),
        Symbol::NotEqual => Some(BinaryOp::Ne),
        Symbol::Less => Some(BinaryOp::Lt),
        Symbol::LessEqual => Some(BinaryOp::Le),
        Symbol::Greater => Some(BinaryOp::Gt),
        Symbol::GreaterEqual => Some(BinaryOp::Ge),
        Symbol::Plus => Some(BinaryOp::Add),
        Symbol::Minus => Some(BinaryOp::Sub),
        Symbol::Star => Some(BinaryOp::Mul),
        Symbol::Slash => Some(BinaryOp::Div),
        Symbol::Percent => Some(BinaryOp::Rem),
        Symbol::OpenParen => None,
        Symbol::CloseParen => None,
        Symbol::Comma => None,
        Symbol::Semicolon => None,
        Symbol::Colon => None,
        Symbol::Dot => None,
        Symbol::Assign => None,
    }
}

/// The infix operator that a token is.
pub(crate) fn operator(token: TokenValue<'_>) -> Option<BinaryOp>
    ensures { result ≡ ops.operator (terminal_of token.entry) }
{
    match token {
        TokenValue::Word(word) => word_operator(word),
        TokenValue::Symbol(symbol) => symbol_operator(symbol),
        TokenValue::Number(_) => None,
        TokenValue::Quoted(_) => None,
    }
}
