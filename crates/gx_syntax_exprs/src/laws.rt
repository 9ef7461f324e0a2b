//! What holds of expressions: the parser parses the grammar and nothing else.

ghost use Rattle.gx_syntax_exprs.specs.Combinators.{IsExact};
ghost use Rattle.gx_syntax_exprs.specs.Expressions.{ExpressionsOpen, expression, goes_on};
ghost use Rattle.gx_syntax_exprs.specs.Grammar.{Spells};

/// The parser of expressions parses what the grammar spells at the loosest level, and nothing else;
/// and an expression does not begin with `)`. Parsers of statements compose by these two facts.
pub fn expressions_are_parsed_exactly()
    ensures exact { IsExact (Spells 1) goes_on expression }
    ensures starts { ExpressionsOpen }
{}
