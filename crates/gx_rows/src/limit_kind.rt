//! The limits of a run.

ghost use Rattle.std.specs.Prelude.{◌≡◌};
ghost use Rattle.gx_rows.specs.Limits.{most_of};

/// The limits of a run, each with its number.
#[derive(Clone, Copy, Debug, PartialEq, Eq)]
pub enum LimitKind {
    /// A script has at most 1,048,576 bytes.
    ScriptBytes,
    /// A schedule has at most 1,048,576 bytes.
    ScheduleBytes,
    /// A schedule has at most 1,000,000 events.
    Events,
    /// A data file has at most 33,554,432 bytes.
    FileBytes,
    /// All loaded files together have at most 67,108,864 bytes.
    AllBytes,
    /// A data file has at most 500,000 rows.
    FileRows,
    /// All loaded files together have at most 1,000,000 rows.
    AllRows,
    /// A row type has at most 16 columns.
    Columns,
    /// A statement has at most 16 send clauses.
    Sends,
    /// A script has at most 1,000 statements.
    Statements,
    /// A statement has at most 2,048 tokens.
    StatementTokens,
    /// An expression is at most 64 deep.
    Depth,
    /// One `pregel` has at most 1,000 rounds.
    Rounds,
    /// All `pregel` statements of a script together have at most 10,000 rounds.
    AllRounds,
}

impl LimitKind {
    /// The number of the limit: the greatest that is within it.
    pub fn most(&self) -> u64
        ensures { result ≡ most_of self.now }
    {
        match self {
            LimitKind::ScriptBytes => 1_048_576,
            LimitKind::ScheduleBytes => 1_048_576,
            LimitKind::Events => 1_000_000,
            LimitKind::FileBytes => 33_554_432,
            LimitKind::AllBytes => 67_108_864,
            LimitKind::FileRows => 500_000,
            LimitKind::AllRows => 1_000_000,
            LimitKind::Columns => 16,
            LimitKind::Sends => 16,
            LimitKind::Statements => 1_000,
            LimitKind::StatementTokens => 2_048,
            LimitKind::Depth => 64,
            LimitKind::Rounds => 1_000,
            LimitKind::AllRounds => 10_000,
        }
    }
}
