//! What the statements before one made.

ghost use Rattle.std.specs.Prelude.{◌≡◌, ◌<◌, ◌≤◌, IfOk, OnErr, OnOk, option_map};
ghost use Rattle.gx_types_clauses.specs.NamedParts.{used_name};
ghost use Rattle.gx_types_clauses.specs.StmtStops.{StmtReturns, StmtReturnsAs};
ghost use Rattle.gx_types_stmts.specs.KnownNames as names;
ghost use Rattle.gx_types_stmts.specs.Makes.{operand_types};
ghost use Rattle.gx_types_stmts.specs.StmtNumbers.{number_if_used};
ghost use Rattle.gx_types_stmts.specs.StmtTyping.{context_with, typed_stmt, used_number};

use crate::operand::Operand;
use crate::{CheckedStmt, Made, SharedType, StmtStop, TypeKind};
use gx_rows::NoMemory;
use gx_syntax_tree::Stmt;
use gx_types_clauses::{UsedName, parts_of, rounds_of};
use indexmap::IndexMap;
use std::alloc::Global;
use std::marker::Model;

/// What a name stands for.
#[derive(Drop)]
pub(crate) struct Definition {
    /// The number of the statement that defines it, counted from 1.
    pub(crate) number: u32,
    /// What the statement makes.
    pub(crate) made: Made,
}

/// What the statements so far made: each name with the number of its statement and what it stands
/// for, the number of statements, and the rounds of all `pregel` statements together.
#[derive(Drop)]
pub struct Known {
    names: IndexMap<String, Definition>,
    len: u32,
    rounds: u32,
    no_columns: SharedType,
}

impl Model for Known {
    ghost use Rattle.gx_types_stmts.specs.KnownNames.{AreEarlier, Context, named_definitions};
    ghost use Rattle.std.specs.Prelude.{◌≡◌, []};

    ghost Value = { Context };

    ghost view = { λ k. record {
      names = named_definitions k.names.entries;
      count = k.len;
      rounds = k.rounds;
    } };

    ghost invariant = { λ k.
        (k.no_columns ≡ []) × AreEarlier k.len (named_definitions k.names.entries) };
}

impl Known {
    /// What is known before the first statement.
    ///
    /// # Errors
    ///
    /// `NoMemory` if memory for an empty row type runs out.
    pub fn new(alloc: Global) -> Result<Known, NoMemory>
        ensures { IfOk result (λ k. k ≡ names.no_context) }
    {
        Ok(Known {
            names: IndexMap::new(alloc),
            len: 0,
            rounds: 0,
            no_columns: SharedType::of(alloc, Vec::new(alloc))?,
        })
    }

    /// The number of statements so far.
    pub fn len(&self) -> u32
        ensures { result ≡ self.now.count }
    {
        self.len
    }

    /// Adds a statement that was checked over what is known.
    ///
    /// # Errors
    ///
    /// `NoMemory` if memory runs out; then nothing is added.
    pub fn add(&mut self, alloc: Global, stmt: &Stmt, typed: &CheckedStmt) -> Result<(), NoMemory>
        requires few { self.old.count < 1000 }
        requires checked { typed_stmt self.old stmt.now ≡ Ok typed.now }
        ensures added { OnOk result (self.new ≡ context_with self.old stmt.now typed.now.made) }
        ensures unchanged { OnErr result (self.new ≡ self.old) }
    {
        let parts = parts_of(stmt);
        self.define(alloc, parts.name, &typed.made)?;
        self.rounds += rounds_of(parts.rounds) as u32;
        Ok(())
    }

    // Counts a statement that makes this, under a new name or under none.
    fn define(&mut self, alloc: Global, name: Option<&str>, made: &Made) -> Result<(), NoMemory>
        requires few { self.old.count < 1000 }
        requires free { names.free_name self.old (option_map (λ s. s.now) name) ≡ Ok tt }
        ensures added { OnOk result (self.new
            ≡ names.context_after self.old (option_map (λ s. s.now) name.entry) 0 made.now) }
        ensures unchanged { OnErr result (self.new ≡ self.old) }
    {
        let number = self.len + 1;
        let Some(name) = name else {
            self.len = number;
            return Ok(());
        };
        let name = String::from_str(alloc, name)?;
        let made = made.copy()?;
        self.names.insert(name, Definition { number, made })?;
        self.len = number;
        Ok(())
    }

    /// The rounds of all `pregel` statements so far together.
    pub(crate) fn rounds(&self) -> u32
        ensures { result ≡ self.now.rounds }
    {
        self.rounds
    }

    /// Whether a new name is free.
    pub(crate) fn check_new(&self, name: Option<&str>) -> Result<(), StmtStop>
        ensures { StmtReturns result
            (names.free_name self.now (option_map (λ s. s.now) name.entry)) }
    {
        let Some(name) = name else {
            return Ok(());
        };
        match self.names.get(name) {
            Some(_) => Err(StmtStop::refused(TypeKind::NameTaken)),
            None => Ok(()),
        }
    }

    /// What a used name stands for; if no name is used, an operand without columns.
    pub(crate) fn operand(&self, used: &Option<UsedName<'_>>) -> Result<Operand<'_>, StmtStop>
        ensures named { StmtReturnsAs operand_types result
            (names.used_operand self.now (option_map used_name used.now)) }
        ensures earlier { IfOk result (λ x. x.number ≤ self.now.count) }
        ensures numbered { IfOk result (λ x. used_number (operand_types x)
            ≡ number_if_used (option_map used_name used.now) (operand_types x)) }
    {
        match used {
            Some(used) => self.operand_named(used),
            None => Ok(Operand {
                number: 0,
                vertices: &self.no_columns,
                edges: &self.no_columns,
            }),
        }
    }

    fn operand_named(&self, used: &UsedName<'_>) -> Result<Operand<'_>, StmtStop>
        ensures named { StmtReturnsAs operand_types result
            (names.named_operand self.now (used_name used.now)) }
        ensures earlier { IfOk result (λ x. names.IsEarlier self.now.count x.number) }
    {
        let Some(definition) = self.names.get(used.name) else {
            return Err(StmtStop::refused(TypeKind::NameUnknown));
        };
        if !definition.made.is_of(used.sort) {
            return Err(StmtStop::refused(TypeKind::WrongSort));
        }
        Ok(Operand {
            number: definition.number,
            vertices: self.columns_if_some(&definition.made.vertices),
            edges: self.columns_if_some(&definition.made.edges),
        })
    }

    fn columns_if_some<'k>(&'k self, row_type: &'k Option<SharedType>) -> &'k SharedType
        ensures { result.now ≡ names.columns_or_none row_type.now }
    {
        match row_type {
            Some(row_type) => row_type,
            None => &self.no_columns,
        }
    }
}
