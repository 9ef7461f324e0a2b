//! Positions of rows, by part.

ghost use Rattle.std.specs.Prelude.{◌≡◌, ◌<◌, ◌∷◌, ◌++◌, IfOk, OnOk, [], get_or, length, replicate, set};

use gx_rows::NoMemory;
use std::alloc::Global;
use std::marker::Model;

// The positions of one part.
#[derive(Drop)]
struct PartPositions {
    positions: Vec<u32>,
}

impl Model for PartPositions {
    ghost use Rattle.std.specs.Prelude.{List, ℕ};

    ghost Value = { List ℕ };

    ghost view = { λ p. p.positions.items };
}

impl PartPositions {
    fn new(alloc: Global) -> PartPositions
        ensures { result ≡ [] }
    {
        PartPositions {
            positions: Vec::new(alloc),
        }
    }

    fn push(&mut self, position: u32) -> Result<(), NoMemory>
        ensures { OnOk result (self.new ≡ self.old ++ position ∷ []) }
    {
        self.positions.push(position)?;
        Ok(())
    }

    fn as_slice(&self) -> &[u32]
        ensures { result.now ≡ self.now }
    {
        self.positions.as_slice()
    }
}

/// The positions of each part, in the order in which they were added. Contracts see their lists.
#[derive(Drop)]
pub(crate) struct Positions {
    by_part: Vec<PartPositions>,
}

impl Model for Positions {
    ghost use Rattle.std.specs.Prelude.{List, ℕ};

    ghost Value = { List (List ℕ) };

    ghost view = { λ p. p.by_part.items };
}

impl Positions {
    /// No position in any of so many parts.
    pub(crate) fn new(alloc: Global, parts: u32) -> Result<Positions, NoMemory>
        ensures { IfOk result (λ p. p ≡ replicate parts []) }
    {
        let mut by_part = Vec::with_capacity(alloc, parts as usize)?;
        for part in 0..parts {
            by_part.push(PartPositions::new(alloc))?;
        }
        Ok(Positions { by_part })
    }

    /// One more position of a part.
    pub(crate) fn add(&mut self, part: u32, position: u32) -> Result<(), NoMemory>
        requires { part < length self.old }
        ensures { OnOk result (self.new
            ≡ set self.old part (get_or self.old part [] ++ position ∷ [])) }
    {
        self.by_part[part as usize].push(position)
    }

    /// The positions of a part.
    pub(crate) fn of_part(&self, part: u32) -> &[u32]
        requires { part < length self.now }
        ensures { result.now ≡ get_or self.now part [] }
    {
        self.by_part[part as usize].as_slice()
    }
}
