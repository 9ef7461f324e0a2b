//! The options of the command, the values that they take, and those that were given so far.

ghost use Rattle.std.specs.Prelude.{◌≡◌, ◌≤◌, IfSome, option_map};
ghost use Rattle.std.specs.Char.{is_ascii_digit};
ghost use Rattle.std.specs.List.{list_all};
ghost use Rattle.gx_run_args.specs.RunCommands.{count_value, cut_named, option_reading};
ghost use Rattle.gx_run_args.specs.GivenOptions.{
  HasCounts,
  no_options,
  options_with,
  value_reading,
};

use gx_rows::Cut;

/// An option, which takes the next word as its value.
#[derive(Clone, Copy)]
pub(crate) enum OptionName {
    Parts,
    Cut,
    Workers,
}

impl OptionName {
    /// The option that a word names; `None` if it names none.
    pub(crate) fn of_word(word: &str) -> Option<OptionName>
        ensures { option_map value_reading result ≡ option_reading word.now }
    {
        match word {
            "--parts" => Some(OptionName::Parts),
            "--cut" => Some(OptionName::Cut),
            "--workers" => Some(OptionName::Workers),
            _ => None,
        }
    }
}

/// The values of the options that were given.
#[derive(Clone, Copy)]
pub(crate) struct Options {
    pub(crate) parts: Option<u32>,
    pub(crate) cut: Option<Cut>,
    pub(crate) workers: Option<u32>,
}

impl Options {
    /// No option was given.
    pub(crate) fn none() -> Options
        ensures { result ≡ no_options }
    {
        Options {
            parts: None,
            cut: None,
            workers: None,
        }
    }

    /// One more option, with its value; `None` if it has a value already or cannot have this one.
    pub(crate) fn with(self, name: OptionName, value: &str) -> Option<Options>
        ensures exact { result ≡ options_with self (value_reading name value.now) }
        ensures in_range { HasCounts self → IfSome result HasCounts }
    {
        match name {
            OptionName::Parts if self.parts.is_none() => Some(Options {
                parts: Some(count_value(value)?),
                ..self
            }),
            OptionName::Cut if self.cut.is_none() => Some(Options {
                cut: Some(cut_named(value)?),
                ..self
            }),
            OptionName::Workers if self.workers.is_none() => Some(Options {
                workers: Some(count_value(value)?),
                ..self
            }),
            _ => None,
        }
    }
}

// The count that a word spells: 1 to 20 digits, of a value from 1 to 64.
fn count_value(word: &str) -> Option<u32>
    ensures exact { result ≡ count_value word.now }
    ensures in_range { IfSome result (λ count. (1 ≤ count) × (count ≤ 64)) }
{
    if word.len() > 20 || !is_digits(word) {
        return None;
    }
    match word.parse::<u32>() {
        Ok(count) if 1 <= count && count <= 64 => Some(count),
        _ => None,
    }
}

// Whether a word has digits alone.
fn is_digits(word: &str) -> bool
    ensures { result ≡ list_all is_ascii_digit word.now }
{
    word.as_bytes().iter().all(|byte| byte.is_ascii_digit())
}

// The cut that a word names.
fn cut_named(word: &str) -> Option<Cut>
    ensures { result ≡ cut_named word.now }
{
    match word {
        "1d" => Some(Cut::OneD),
        "2d" => Some(Cut::TwoD),
        "random" => Some(Cut::Random),
        "canonical" => Some(Cut::Canonical),
        "rows" => Some(Cut::Rows),
        _ => None,
    }
}
