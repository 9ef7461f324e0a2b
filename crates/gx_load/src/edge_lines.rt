//! The lines of an edge list that have an edge, taken one by one. Empty lines and comments are
//! skipped here, so that a loop over edges is proved over the list of the remaining ones.

ghost use Rattle.std.specs.Prelude.{◌≡◌, ◌<◌, ◌≤◌, ◌^◌, ◌∷◌, [], not, length, MatchOption};
ghost use Rattle.std.specs.List.{prefix_len};
ghost use Rattle.gx_load.specs.Cells.{words_of};
ghost use Rattle.gx_load.specs.EdgeLists.{edge_lines_from, has_edge, is_line_feed, is_line_space};

use crate::words::{Separator, Words};
use std::marker::Model;

/// A line of an edge list that has an edge.
#[derive(Clone, Copy)]
pub(crate) struct EdgeLine<'a> {
    /// Its number, counted from 1 over all lines of the file.
    pub(crate) number: u32,
    /// Its bytes, without the line feed.
    pub(crate) text: &'a [u8],
}

// Whether a line has an edge: it has a word and is not a comment.
fn has_edge(line: &[u8]) -> bool
    ensures { result ≡ has_edge (words_of is_line_space line.now) }
{
    match Words::of(line, Separator::LineSpace).take() {
        Some(word) => !matches!(word, [b'#', ..]),
        None => false,
    }
}

// The number of bytes before the first line feed.
fn line_len(text: &[u8]) -> usize
    ensures count { result ≡ prefix_len (λ byte. not (is_line_feed byte)) text.now }
    ensures within { result ≤ length text.now }
{
    text.iter().take_while(|byte| **byte != b'\n').count()
}

/// The lines of an edge list that have an edge and are still to be taken. Contracts see a list of
/// lines, each of them with its number.
#[derive(Drop)]
pub(crate) struct EdgeLines<'a> {
    rest: &'a [u8],
    // How many lines were passed, skipped ones included.
    passed: u32,
}

impl<'a> Model for EdgeLines<'a> {
    ghost use Rattle.std.specs.Prelude.{◌+◌, ◌<◌, ◌^◌, List, ℕ, length};
    ghost use Rattle.gx_load.specs.EdgeLists.{edge_lines_from};

    ghost Value = { List (ℕ × List ℕ) };

    ghost view = { λ l. edge_lines_from (l.passed + 1) l.rest.now };

    ghost invariant = { λ l. l.passed + length l.rest.now < 2 ^ 32 };
}

impl<'a> EdgeLines<'a> {
    /// The lines of a text that have an edge.
    pub(crate) fn of(text: &'a [u8]) -> EdgeLines<'a>
        requires { length text.now < 2 ^ 32 }
        ensures { result ≡ edge_lines_from 1 text.now }
    {
        EdgeLines {
            rest: text,
            passed: 0,
        }
    }

    /// Takes the next line that has an edge, if there is one.
    pub(crate) fn take(&mut self) -> Option<EdgeLine<'a>>
        ensures { MatchOption result ((self.old ≡ []) × (self.new ≡ []))
            (λ line. self.old ≡ (line.number, line.text.now) ∷ self.new) }
    {
        while !self.rest.is_empty() {
            let len = line_len(self.rest);
            let line = &self.rest[..len];
            let after = &self.rest[len..];
            self.rest = &after[after.len().min(1)..];
            self.passed += 1;
            if has_edge(line) {
                return Some(EdgeLine {
                    number: self.passed,
                    text: line,
                });
            }
        }
        None
    }
}
