//! The parser of expressions: a loop over the tokens with an explicit stack, so that deep nesting
//! costs heap and not the machine's stack.

ghost use Rattle.std.specs.Prelude.{◌≡◌};
ghost use Rattle.gx_syntax_exprs.specs.StepOutcomes.{StepsOver};
ghost use Rattle.gx_syntax_exprs.specs.Expressions.{expression};
ghost use Rattle.gx_syntax_exprs.specs.Grammar.{Spells};
ghost use Rattle.gx_syntax_exprs.specs.Parses.{FollowsGrammar, Parses};
ghost use Rattle.gx_syntax_exprs.specs.PrecedenceParser as parser;

use crate::cursor::Cursor;
use crate::parse_stop::ParseStop;
use crate::stack::Stack;
use crate::steps::{State, Step, transition, transition_at_end};
use gx_rows::NoMemory;
use gx_syntax_tree::Expr;
use std::alloc::Global;

impl<'a> Cursor<'a> {
    /// The next token, or the end, of an expression; the token is taken if the expression goes on.
    fn step(&mut self, alloc: Global, stack: &mut Stack, state: State) -> Result<Step, NoMemory>
        ensures { StepsOver result stack.new self.new (parser.step_over state stack.old self.old) }
    {
        let Some(token) = self.peek() else {
            return transition_at_end(alloc, stack, state);
        };
        let step = transition(alloc, stack, state, token)?;
        if let Step::Continue(_) = &step {
            self.advance();
        }
        Ok(step)
    }

    /// Parses the longest expression that the tokens begin with.
    ///
    /// # Errors
    ///
    /// `Refused`, and `NoMemory`.
    #[tactic(auto, unfolding(crate::specs::Expressions::expression))]
    pub fn expression(&mut self, alloc: Global) -> Result<Expr, ParseStop>
        ensures parsed { Parses result self.new (expression self.old) }
        ensures spelled { FollowsGrammar (Spells 1) result self.new self.old }
    {
        let mut stack = Stack::new(alloc);
        let mut state = State::ExpectOperand;
        loop {
            match self.step(alloc, &mut stack, state)? {
                Step::Continue(next) => state = next,
                Step::Done(x) => return Ok(x),
                Step::Reject => return Err(ParseStop::Refused),
            }
        }
    }
}
