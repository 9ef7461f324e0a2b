//! The words that stand for a choice, as `src` or `dst`. The parser has the other direction.

ghost use Rattle.std.specs.Prelude.{◌≡◌};
ghost use Rattle.gx_syntax_show.specs.Words as words;

use gx_rows::ValueKind;
use gx_syntax_tree::{ActiveWord, CutWord, MergeWord, NeighbourWord, SideWord};

/// The word of a truth value.
pub(crate) fn truth_word(truth: bool) -> &'static str
    ensures { result.now ≡ words.truth_word truth }
{
    if truth { "true" } else { "false" }
}

/// The word of a column's kind.
pub(crate) fn kind_word(kind: ValueKind) -> &'static str
    ensures { result.now ≡ words.kind_word kind }
{
    match kind {
        ValueKind::Int => "int",
        ValueKind::Text => "text",
        ValueKind::Bool => "bool",
        ValueKind::Ids => "ids",
    }
}

/// The word of a way to partition edges.
pub(crate) fn cut_word(cut: CutWord) -> &'static str
    ensures { result.now ≡ words.cut_word cut }
{
    match cut {
        CutWord::OneD => "oned",
        CutWord::TwoD => "twod",
        CutWord::Random => "random",
        CutWord::Canonical => "canonical",
    }
}

/// The word of a merge of values.
pub(crate) fn merge_word(merge: MergeWord) -> &'static str
    ensures { result.now ≡ words.merge_word merge }
{
    match merge {
        MergeWord::Sum => "sum",
        MergeWord::Count => "count",
        MergeWord::Min => "min",
        MergeWord::Max => "max",
        MergeWord::All => "all",
        MergeWord::Any => "any",
        MergeWord::Bag => "bag",
    }
}

/// The word of an end of an edge.
pub(crate) fn side_word(side: SideWord) -> &'static str
    ensures { result.now ≡ words.side_word side }
{
    match side {
        SideWord::Src => "src",
        SideWord::Dst => "dst",
    }
}

/// The word of the neighbours that are collected.
pub(crate) fn neighbour_word(direction: NeighbourWord) -> &'static str
    ensures { result.now ≡ words.neighbour_word direction }
{
    match direction {
        NeighbourWord::In => "in",
        NeighbourWord::Out => "out",
        NeighbourWord::Either => "either",
    }
}

/// The word of the edges that send messages in a round.
pub(crate) fn active_word(active: ActiveWord) -> &'static str
    ensures { result.now ≡ words.active_word active }
{
    match active {
        ActiveWord::Out => "out",
        ActiveWord::In => "in",
        ActiveWord::Either => "either",
        ActiveWord::Both => "both",
    }
}
