//! Scripts that are well typed.

ghost use Rattle.std.specs.Prelude.{◌≡◌, ◌-◌, ◌<◌, ◌≤◌, ◌^◌, All, Some, length, option_map, slice_get};
ghost use Rattle.std.specs.Prelude.{vec_len};
ghost use Rattle.std.specs.Option.{option_copied};
ghost use Rattle.gx_types.specs.Needs.{NamesAreUsed, UseEarlier};
ghost use Rattle.gx_types.specs.SoundStmts.{
  AreRun,
  HasSoundStmts,
  HaveFewColumns,
  HaveWrittenCuts,
  MakeTheirSorts,
};
ghost use Rattle.gx_types.specs.StmtSorts.{HasNamedSorts};
ghost use Rattle.gx_types_stmts.specs.StmtNumbers.{named_numbers};

use gx_rows::RowType;
use gx_types_stmts::{CheckedStmt, SharedType, TypedStmt};
use std::marker::Model;

/// A script that is well typed. Contracts see it as the list of its statements, at most 1,000, each
/// of which is run, and uses those that it names: earlier ones that make things of the right sorts.
/// What is made has at most 16 columns.
#[derive(Drop)]
pub struct Typed {
    pub(crate) statements: Vec<CheckedStmt>,
}

impl Model for Typed {
    ghost use Rattle.std.specs.Prelude.{All, List, ◌≤◌, vec_len};
    ghost use Rattle.gx_types.specs.Needs.{NamesAreUsed, UseEarlier};
    ghost use Rattle.gx_types.specs.SoundStmts.{
      AreRun,
      HaveFewColumns,
      HaveWrittenCuts,
      MakeTheirSorts,
    };
    ghost use Rattle.gx_types.specs.StmtSorts.{HasNamedSorts};
    ghost use Rattle.gx_types_stmts.specs.declared.checked_stmt.CheckedStmt.{CheckedStmt as Statement};
    ghost use Rattle.gx_types_stmts.specs.contracts.checked_stmt.CheckedStmt as statement;
    ghost use Rattle.std.specs.Coded.{codes};

    ghost Value = { List Statement };

    ghost coded = { Prim.hlevel (codes, statement.the_row.coded) };

    ghost view = { λ t. t.statements.items };

    ghost invariant = { λ t. record {
      few : vec_len t.statements ≤ 1000;
      earlier : UseEarlier t.statements.items;
      named : All NamesAreUsed t.statements.items;
      sorts : HasNamedSorts t.statements.items;
      run : AreRun t.statements.items;
      cuts : HaveWrittenCuts t.statements.items;
      makes : MakeTheirSorts t.statements.items;
      columns : HaveFewColumns t.statements.items;
    } };
}

impl Typed {
    /// The script of these statements. It takes no memory.
    pub(crate) fn of(statements: Vec<CheckedStmt>) -> Typed
        requires few { vec_len statements ≤ 1000 }
        requires sound { HasSoundStmts statements.items }
        ensures { result ≡ statements.items }
    {
        Typed { statements }
    }

    /// The number of statements.
    pub fn len(&self) -> u32
        ensures count { result ≡ length self.now }
        ensures few { length self.now < 2 ^ 32 }
        ensures within_limit { length self.now ≤ 1000 }
    {
        self.statements.len() as u32
    }

    /// Tells laws of each script that is well typed: its statements use exactly those that they name,
    /// which are earlier ones of the right sorts; all are run; the cut of `partition` is one that a
    /// script can write; and what each makes is of its sort and has at most 16 columns. It does
    /// nothing.
    pub fn statements_are_sound(&self)
        ensures earlier { UseEarlier self.now }
        ensures named { All NamesAreUsed self.now }
        ensures sorts { HasNamedSorts self.now }
        ensures run { AreRun self.now }
        ensures cuts { HaveWrittenCuts self.now }
        ensures makes { MakeTheirSorts self.now }
        ensures columns { HaveFewColumns self.now }
    {
        let _statements = &self.statements;
    }

    /// Statement `s`, counted from 1.
    pub fn statement(&self, s: u32) -> &TypedStmt
        requires from_one { 1 ≤ s }
        requires within { s ≤ length self.now }
        ensures at { option_map (λ t. t.stmt) (slice_get self.now (s - 1)) ≡ Some result.now }
        ensures named { option_map (λ t. t.uses) (slice_get self.now (s - 1))
            ≡ Some (named_numbers result.now) }
    {
        &self.statements[s as usize - 1].stmt
    }

    /// The row type of the table, or of the vertices of the graph, that statement `s` makes; `None`
    /// exactly if it makes neither. Statements are counted from 1.
    pub fn vertex_type(&self, s: u32) -> Option<&RowType>
        requires from_one { 1 ≤ s }
        requires within { s ≤ length self.now }
        ensures { option_map (λ t. t.made.vertices) (slice_get self.now (s - 1))
            ≡ Some (option_copied result) }
    {
        row_type_of(&self.statements[s as usize - 1].made.vertices)
    }

    /// The row type of the edges that statement `s` makes, alone or in a graph; `None` exactly if it
    /// makes none. Statements are counted from 1.
    pub fn edge_type(&self, s: u32) -> Option<&RowType>
        requires from_one { 1 ≤ s }
        requires within { s ≤ length self.now }
        ensures { option_map (λ t. t.made.edges) (slice_get self.now (s - 1))
            ≡ Some (option_copied result) }
    {
        row_type_of(&self.statements[s as usize - 1].made.edges)
    }
}

fn row_type_of(shared: &Option<SharedType>) -> Option<&RowType>
    ensures { option_copied result ≡ shared.now }
{
    match shared {
        Some(shared) => Some(shared.get()),
        None => None,
    }
}
