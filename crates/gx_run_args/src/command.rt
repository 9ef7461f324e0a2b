//! The command that the words of a command line are: a walk over the words, which collects what
//! they say, and then the defaults.

ghost use Rattle.std.specs.Prelude.{
  ◌≡◌,
  ◌≤◌,
  ◌==◌,
  IfSome,
  option_and_then,
  option_map,
  slice_index,
};
ghost use Rattle.gx_run_args.specs.RunCommands.{
  arg_bytes,
  arguments_of,
  command_of,
  command_view,
  run_command,
};

use crate::options::{OptionName, Options};
use gx_rows::Cut;

/// The command `run`: which script, how many partitions, which cut, how many workers.
#[derive(Clone, Copy)]
pub struct RunArgs<'a> {
    /// The name of the script's file.
    pub script: &'a str,
    /// The number of partitions, from 1 to 64.
    pub parts: u32,
    /// The strategy that places edges.
    pub cut: Cut,
    /// The number of workers, from 1 to 64.
    pub workers: u32,
}

/// The command that these words are, the ones after the program's name; `None` if they are none.
/// It takes no memory.
pub fn run_args(args: &[String]) -> Option<RunArgs<'_>>
    ensures exact { option_map command_view result ≡ run_command (arg_bytes args.now) }
    ensures parts_in_range { IfSome result (λ run. (1 ≤ run.parts) × (run.parts ≤ 64)) }
    ensures workers_in_range { IfSome result (λ run. (1 ≤ run.workers) × (run.workers ≤ 64)) }
{
    let [command, words @ ..] = args else {
        return None;
    };
    if command.as_str() == "run" {
        run_args_after(words)
    } else {
        None
    }
}

// The command that these words are after the word `run`.
fn run_args_after(words: &[String]) -> Option<RunArgs<'_>>
    ensures exact { option_map command_view result
        ≡ option_and_then command_of (arguments_of (arg_bytes words.now)) }
    ensures parts_in_range { IfSome result (λ run. (1 ≤ run.parts) × (run.parts ≤ 64)) }
    ensures workers_in_range { IfSome result (λ run. (1 ≤ run.workers) × (run.workers ≤ 64)) }
{
    let mut script: Option<&str> = None;
    let mut options = Options::none();
    let mut rest = words;
    while let [word, after @ ..] = rest {
        let word = word.as_str();
        if let Some(name) = OptionName::of_word(word) {
            let [value, others @ ..] = after else {
                return None;
            };
            options = options.with(name, value.as_str())?;
            rest = others;
        } else {
            if script.is_some() || begins_with_dash(word) {
                return None;
            }
            script = Some(word);
            rest = after;
        }
    }
    Some(RunArgs {
        script: script?,
        parts: options.parts.unwrap_or(4),
        cut: options.cut.unwrap_or(Cut::TwoD),
        workers: options.workers.unwrap_or(4),
    })
}

// Whether a word begins with `-`.
fn begins_with_dash(word: &str) -> bool
    ensures { result ≡ (slice_index word.now 0 == 45) }
{
    match word.as_bytes() {
        [first, ..] => *first == b'-',
        [] => false,
    }
}
