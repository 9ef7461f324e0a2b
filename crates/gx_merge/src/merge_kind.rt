//! The seven merges, with the kinds that they take and give.

ghost use Rattle.std.specs.Prelude.{◌≡◌};
ghost use Rattle.gx_merge.specs.Kinds.{kind_given, takes_kind};

use gx_rows::ValueKind;

/// How the values of one column are merged.
#[derive(Clone, Copy, Debug, PartialEq, Eq)]
pub enum MergeKind {
    /// The exact sum of numbers.
    Sum,
    /// The number of values.
    Count,
    /// The least value.
    Min,
    /// The greatest value.
    Max,
    /// Whether all are true.
    All,
    /// Whether any is true.
    Any,
    /// All identifiers in ascending order, with repeats.
    Bag,
}

impl MergeKind {
    /// Whether it merges values of this kind.
    pub fn takes(self, kind: ValueKind) -> bool
        ensures { result ≡ takes_kind self kind }
    {
        match self {
            MergeKind::Count | MergeKind::Min | MergeKind::Max => true,
            MergeKind::Sum => matches!(kind, ValueKind::Int),
            MergeKind::All | MergeKind::Any => matches!(kind, ValueKind::Bool),
            MergeKind::Bag => matches!(kind, ValueKind::Int | ValueKind::Ids),
        }
    }

    /// The kind of the merged value of values of this kind.
    pub fn gives(self, kind: ValueKind) -> ValueKind
        ensures { result ≡ kind_given self kind }
    {
        match self {
            MergeKind::Sum | MergeKind::Count => ValueKind::Int,
            MergeKind::Min | MergeKind::Max => kind,
            MergeKind::All | MergeKind::Any => ValueKind::Bool,
            MergeKind::Bag => ValueKind::Ids,
        }
    }
}
