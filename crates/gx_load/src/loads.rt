//! The loaded rows of a script, one entry for each load statement.

ghost use Rattle.std.specs.Prelude.{◌≡◌, ◌<◌, ◌+◌, ◌^◌, ◌∷◌, ◌++◌, [], length, slice_get, Some, OnErr, OnOk};

use gx_rows::{NoMemory, Row, Vid};
use std::alloc::Global;
use std::marker::Model;

// What one statement loaded.
#[derive(Debug, Drop)]
struct Load {
    statement: u32,
    rows: Vec<(Vid, Vid, Row)>,
}

impl Model for Load {
    ghost use Rattle.std.specs.Prelude.{List, ℕ};
    ghost use Rattle.gx_load.specs.Loading.{LoadedRow};

    ghost Value = { ℕ × List LoadedRow };

    ghost view = { λ l. (l.statement, l.rows.items) };
}

/// The rows of each load statement, in the order in which they were added. Contracts see a list of
/// statements with their rows, which has fewer than 2^32 entries.
#[derive(Debug, Drop)]
pub struct Loads {
    entries: Vec<Load>,
}

impl Model for Loads {
    ghost use Rattle.std.specs.Prelude.{List, ℕ, ◌<◌, ◌^◌, vec_len};
    ghost use Rattle.gx_load.specs.Loading.{LoadedRow};

    ghost Value = { List (ℕ × List LoadedRow) };

    ghost view = { λ l. l.entries.items };

    ghost invariant = { λ l. vec_len l.entries < 2 ^ 32 };
}

impl Loads {
    /// No entry. It takes no memory.
    pub fn new(alloc: Global) -> Loads
        ensures { result ≡ [] }
    {
        Loads {
            entries: Vec::new(alloc),
        }
    }

    /// Adds the rows that a statement loaded.
    ///
    /// # Errors
    ///
    /// `NoMemory` if memory for the entry runs out. The entries are then as they were.
    pub fn push(&mut self, statement: u32, rows: Vec<(Vid, Vid, Row)>) -> Result<(), NoMemory>
        requires { length self.old + 1 < 2 ^ 32 }
        ensures added { OnOk result (self.new ≡ self.old ++ (statement, rows.items) ∷ []) }
        ensures unchanged_if_err { OnErr result (self.new ≡ self.old) }
    {
        self.entries.push(Load { statement, rows })?;
        Ok(())
    }

    /// The number of entries.
    pub fn len(&self) -> u32
        ensures count { result ≡ length self.now }
        ensures few { length self.now < 2 ^ 32 }
    {
        self.entries.len() as u32
    }

    /// The entry at position `i`, counted from 0: the statement, and its rows, borrowed.
    pub fn entry(&self, i: u32) -> (u32, &[(Vid, Vid, Row)])
        requires { i < length self.now }
        ensures { slice_get self.now i ≡ Some (result.0, result.1.now) }
    {
        let load = &self.entries[i as usize];
        (load.statement, load.rows.as_slice())
    }
}
