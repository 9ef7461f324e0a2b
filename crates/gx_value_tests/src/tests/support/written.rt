//! Expressions from texts in which each operator comes after its operands.

use gx_rows::{NoMemory, Text};
use gx_syntax_tree::{BinaryOp, Expr, UnaryOp};
use sqlite_items::{Boxed, Items};
use std::alloc::Global;

/// The expression of words that are separated by blanks: `v.a`, `1`, `'text`, `true`, `matched`;
/// operators; and functions with the number of their arguments, `max/2`.
pub(crate) fn written(alloc: Global, text: &str) -> Result<Expr, NoMemory> {
    let mut stack = Vec::new(alloc);
    for word in text.split(' ') {
        let next = next_expr(alloc, &mut stack, word)?;
        stack.push(next)?;
    }
    Ok(popped(&mut stack))
}

// The last expression; `matched` if there is none.
fn popped(stack: &mut Vec<Expr>) -> Expr {
    match stack.pop() {
        Some(last) => last,
        None => Expr::Matched,
    }
}

fn next_expr(alloc: Global, stack: &mut Vec<Expr>, word: &str) -> Result<Expr, NoMemory> {
    if let Some(operator) = unary_of(word) {
        let operand = Boxed::new(alloc, popped(stack))?;
        return Ok(Expr::Unary(operator, operand));
    }
    if let Some(operator) = binary_of(word) {
        let right = Boxed::new(alloc, popped(stack))?;
        let left = Boxed::new(alloc, popped(stack))?;
        return Ok(Expr::Binary(operator, left, right));
    }
    if let Some((name, count)) = word.split_once('/') {
        return call(alloc, stack, name, count);
    }
    leaf(alloc, word)
}

fn call(alloc: Global, stack: &mut Vec<Expr>, name: &str, count: &str) -> Result<Expr, NoMemory> {
    let count = match count {
        "0" => 0,
        "1" => 1,
        "2" => 2,
        "3" => 3,
        _ => 4,
    };
    let mut reversed = Vec::new(alloc);
    for _ in 0..count {
        reversed.push(popped(stack))?;
    }
    let mut arguments = Items::new(alloc);
    for _ in 0..count {
        arguments.push(popped(&mut reversed))?;
    }
    Ok(Expr::Call(Text::of(alloc, name)?, arguments))
}

fn leaf(alloc: Global, word: &str) -> Result<Expr, NoMemory> {
    if let Some((side, name)) = word.split_once('.') {
        return Ok(Expr::Column(Text::of(alloc, side)?, Text::of(alloc, name)?));
    }
    if let Some(text) = word.strip_prefix('\'') {
        return Ok(Expr::Quoted(Text::of(alloc, text)?));
    }
    match word {
        "true" => Ok(Expr::Truth(true)),
        "false" => Ok(Expr::Truth(false)),
        "matched" => Ok(Expr::Matched),
        _ => Ok(Expr::Number(7)),
    }
}

fn unary_of(word: &str) -> Option<UnaryOp> {
    match word {
        "neg" => Some(UnaryOp::Neg),
        "not" => Some(UnaryOp::Not),
        _ => None,
    }
}

fn binary_of(word: &str) -> Option<BinaryOp> {
    match word {
        "or" => Some(BinaryOp::Or),
        "and" => Some(BinaryOp::And),
        "==" => Some(BinaryOp::Eq),
        "<" => Some(BinaryOp::Lt),
        "+" => Some(BinaryOp::Add),
        "-" => Some(BinaryOp::Sub),
        "%" => Some(BinaryOp::Rem),
        _ => None,
    }
}

/// The expression after so many signs.
pub(crate) fn nested(alloc: Global, operand: Expr, levels: u32) -> Result<Expr, NoMemory> {
    let mut expression = operand;
    for _ in 0..levels {
        let operand = Boxed::new(alloc, expression)?;
        expression = Expr::Unary(UnaryOp::Neg, operand);
    }
    Ok(expression)
}
