//! What expressions are typed as, and what they evaluate to.

mod evaluation;
mod support;
mod typing;
