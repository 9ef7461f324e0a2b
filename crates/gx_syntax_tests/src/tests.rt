//! Tables of texts with what the lexer, `parse` and `show` return for them. The expected values are from the
//! rules of the language and by hand.

mod levels;
mod limits;
mod refusals;
mod show;
mod shown;
mod statements;
mod support;
mod tokens;
