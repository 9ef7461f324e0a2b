//! The grammar of expressions and its parser, and the cursor over tokens that all parsers share.
//!
//! `Cursor` is seen as the list of the tokens that remain. `specs/Grammar.antt` says which tokens
//! spell which expression, by the levels of the operators. `specs/Combinators.antt` says what it
//! means that a parser is exact for a language, over tokens of any type, and
//! `specs/ExactParsers.antt` that parsers put together from exact ones are exact. The crate depends
//! on the tokens of `gx_syntax_tokens` and on the tree of `gx_syntax_tree`; the parser of
//! statements and the printer depend on it. It never sees the text of a script, nor a byte offset.
#![tactic(auto)]

mod cursor;
mod expression;
mod laws;
mod operators;
mod parse_stop;
mod stack;
mod steps;

pub use cursor::Cursor;
pub use laws::expressions_are_parsed_exactly;
pub use parse_stop::ParseStop;
