//! The words of a text, taken one by one. A word is what is between two separators, so that several
//! separators in a row, and those at the ends of the text, make no word.

ghost use Rattle.std.specs.Prelude.{◌≡◌, ◌≤◌, ◌∷◌, [], not, length, MatchOption};
ghost use Rattle.std.specs.List.{prefix_len};
ghost use Rattle.gx_load.specs.Cells.{words_of};
ghost use Rattle.gx_load.specs.Separators.{separates};

use std::marker::Model;

/// Which bytes separate words.
#[derive(Clone, Copy)]
pub(crate) enum Separator {
    /// Spaces and tabs, as in a cell.
    Blank,
    /// Spaces, tabs and carriage returns, as in a line of an edge list.
    LineSpace,
}

impl Separator {
    // Whether this byte separates words.
    fn separates(self, byte: u8) -> bool
        ensures { result ≡ separates self byte }
    {
        match self {
            Separator::Blank => byte == b' ' || byte == b'\t',
            Separator::LineSpace => byte == b' ' || byte == b'\t' || byte == b'\r',
        }
    }

    // The number of separators at the start of a text.
    fn gap_len(self, text: &[u8]) -> usize
        ensures count { result ≡ prefix_len (separates self) text.now }
        ensures within { result ≤ length text.now }
    {
        text.iter()
            .take_while(|byte| self.separates(**byte))
            .count()
    }

    // The number of other bytes at the start of a text.
    fn word_len(self, text: &[u8]) -> usize
        ensures count { result ≡ prefix_len (λ byte. not (separates self byte)) text.now }
        ensures within { result ≤ length text.now }
    {
        text.iter()
            .take_while(|byte| !self.separates(**byte))
            .count()
    }
}

/// The words of a text that are still to be taken. Contracts see a list of words, each of them as
/// the list of its bytes.
#[derive(Drop)]
pub(crate) struct Words<'a> {
    rest: &'a [u8],
    separator: Separator,
}

impl<'a> Model for Words<'a> {
    ghost use Rattle.std.specs.Prelude.{List, ℕ};
    ghost use Rattle.gx_load.specs.Cells.{words_of};
    ghost use Rattle.gx_load.specs.Separators.{separates};

    ghost Value = { List (List ℕ) };

    ghost view = { λ w. words_of (separates w.separator) w.rest.now };
}

impl<'a> Words<'a> {
    /// The words of a text.
    pub(crate) fn of(text: &'a [u8], separator: Separator) -> Words<'a>
        ensures { result ≡ words_of (separates separator) text.now }
    {
        Words {
            rest: text,
            separator,
        }
    }

    /// Takes the next word, if there is one.
    pub(crate) fn take(&mut self) -> Option<&'a [u8]>
        ensures { MatchOption result ((self.old ≡ []) × (self.new ≡ []))
            (λ word. self.old ≡ word.now ∷ self.new) }
    {
        let start = self.separator.gap_len(self.rest);
        let text = &self.rest[start..];
        let len = self.separator.word_len(text);
        self.rest = &text[len..];
        if len == 0 {
            return None;
        }
        Some(&text[..len])
    }
}
