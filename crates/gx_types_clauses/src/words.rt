//! What the words of statements stand for.

ghost use Rattle.std.specs.Prelude.{◌≡◌};
ghost use Rattle.gx_types_clauses.specs.StmtWords as words;

use crate::EdgeEnd;
use gx_merge::MergeKind;
use gx_rows::{Cut, Direction};
use gx_syntax_tree::{ActiveWord, CutWord, MergeWord, SideWord};

/// The cut that is written so.
pub fn cut_of_written(word: CutWord) -> Cut
    ensures { result ≡ words.cut_of_written word }
{
    match word {
        CutWord::OneD => Cut::OneD,
        CutWord::TwoD => Cut::TwoD,
        CutWord::Random => Cut::Random,
        CutWord::Canonical => Cut::Canonical,
    }
}

/// The merge that is written so.
pub(crate) fn merge_of_written(word: MergeWord) -> MergeKind
    ensures { result ≡ words.merge_of_written word }
{
    match word {
        MergeWord::Sum => MergeKind::Sum,
        MergeWord::Count => MergeKind::Count,
        MergeWord::Min => MergeKind::Min,
        MergeWord::Max => MergeKind::Max,
        MergeWord::All => MergeKind::All,
        MergeWord::Any => MergeKind::Any,
        MergeWord::Bag => MergeKind::Bag,
    }
}

/// The end of an edge that is written so.
pub(crate) fn end_of_written(word: SideWord) -> EdgeEnd
    ensures { result ≡ words.end_of_written word }
{
    match word {
        SideWord::Src => EdgeEnd::Src,
        SideWord::Dst => EdgeEnd::Dst,
    }
}

/// The direction of messages that is written so.
pub fn direction_of_written(word: ActiveWord) -> Direction
    ensures { result ≡ words.direction_of_written word }
{
    match word {
        ActiveWord::Out => Direction::Out,
        ActiveWord::In => Direction::In,
        ActiveWord::Either => Direction::Either,
        ActiveWord::Both => Direction::Both,
    }
}
