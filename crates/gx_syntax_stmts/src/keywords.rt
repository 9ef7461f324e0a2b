//! The words that name a value.
//!
//! Each type implements `Keyword`, by which one word is parsed. specs/Keywords.antt has the words.
//! To add one, add an arm here and a line there, in the same order.

ghost use Rattle.std.specs.Prelude.{◌≡◌, ℕ, List, Option};
ghost use Rattle.gx_syntax_exprs.specs.Combinators.{satisfy};
ghost use Rattle.gx_syntax_exprs.specs.Parses.{Parses};
ghost use Rattle.gx_syntax_exprs.specs.TokenParsers as token;
ghost use Rattle.gx_syntax_stmts.specs.Keywords as words;

use gx_rows::ValueKind;
use gx_syntax_exprs::{Cursor, ParseStop};
use gx_syntax_tokens::TokenValue;
use gx_syntax_tree::{
    ActiveWord, CountTarget, CutWord, MergeWord, NeighbourWord, PrintTarget, SideWord, StmtKeyword,
};

/// A value that a single word names.
pub(crate) trait Keyword: Copy {
    ghost meaning: { List ℕ → Option Self };

    /// The value that a word names; `None` if it names none.
    fn of_word(word: &str) -> Option<Self>
        ensures { result ≡ meaning word.now };
}

/// Parses a word that names a value of the type.
pub(crate) fn keyword_value<K: Keyword>(cursor: &mut Cursor<'_>) -> Result<K, ParseStop>
    ensures { Parses result cursor.new (satisfy (token.keyword_value K.meaning) cursor.old) }
{
    if let Some(TokenValue::Word(word)) = cursor.peek()
        && let Some(value) = K::of_word(word)
    {
        cursor.advance();
        Ok(value)
    } else {
        Err(ParseStop::Refused)
    }
}

impl Keyword for ValueKind {
    ghost meaning = { words.kind_of };

    fn of_word(word: &str) -> Option<ValueKind> {
        match word {
            "int" => Some(ValueKind::Int),
            "text" => Some(ValueKind::Text),
            "bool" => Some(ValueKind::Bool),
            "ids" => Some(ValueKind::Ids),
            _ => None,
        }
    }
}

impl Keyword for CutWord {
    ghost meaning = { words.cut_of };

    fn of_word(word: &str) -> Option<CutWord> {
        match word {
            "oned" => Some(CutWord::OneD),
            "twod" => Some(CutWord::TwoD),
            "random" => Some(CutWord::Random),
            "canonical" => Some(CutWord::Canonical),
            _ => None,
        }
    }
}

impl Keyword for MergeWord {
    ghost meaning = { words.merge_of };

    fn of_word(word: &str) -> Option<MergeWord> {
        match word {
            "sum" => Some(MergeWord::Sum),
            "count" => Some(MergeWord::Count),
            "min" => Some(MergeWord::Min),
            "max" => Some(MergeWord::Max),
            "all" => Some(MergeWord::All),
            "any" => Some(MergeWord::Any),
            "bag" => Some(MergeWord::Bag),
            _ => None,
        }
    }
}

impl Keyword for SideWord {
    ghost meaning = { words.side_of };

    fn of_word(word: &str) -> Option<SideWord> {
        match word {
            "src" => Some(SideWord::Src),
            "dst" => Some(SideWord::Dst),
            _ => None,
        }
    }
}

impl Keyword for NeighbourWord {
    ghost meaning = { words.neighbour_of };

    fn of_word(word: &str) -> Option<NeighbourWord> {
        match word {
            "in" => Some(NeighbourWord::In),
            "out" => Some(NeighbourWord::Out),
            "either" => Some(NeighbourWord::Either),
            _ => None,
        }
    }
}

impl Keyword for ActiveWord {
    ghost meaning = { words.active_of };

    fn of_word(word: &str) -> Option<ActiveWord> {
        match word {
            "out" => Some(ActiveWord::Out),
            "in" => Some(ActiveWord::In),
            "either" => Some(ActiveWord::Either),
            "both" => Some(ActiveWord::Both),
            _ => None,
        }
    }
}

impl Keyword for PrintTarget {
    ghost meaning = { words.print_target_of };

    fn of_word(word: &str) -> Option<PrintTarget> {
        match word {
            "vertices" => Some(PrintTarget::Vertices),
            "edges" => Some(PrintTarget::Edges),
            "triplets" => Some(PrintTarget::Triplets),
            "table" => Some(PrintTarget::Table),
            _ => None,
        }
    }
}

impl Keyword for CountTarget {
    ghost meaning = { words.count_target_of };

    fn of_word(word: &str) -> Option<CountTarget> {
        match word {
            "vertices" => Some(CountTarget::Vertices),
            "edges" => Some(CountTarget::Edges),
            "table" => Some(CountTarget::Table),
            _ => None,
        }
    }
}

impl Keyword for StmtKeyword {
    ghost meaning = { words.keyword_of };

    fn of_word(word: &str) -> Option<StmtKeyword> {
        match word {
            "vertices" => Some(StmtKeyword::Vertices),
            "edges" => Some(StmtKeyword::Edges),
            "edgelist" => Some(StmtKeyword::EdgeList),
            "graph" => Some(StmtKeyword::Graph),
            "fromedges" => Some(StmtKeyword::FromEdges),
            "reverse" => Some(StmtKeyword::Reverse),
            "mask" => Some(StmtKeyword::Mask),
            "subgraph" => Some(StmtKeyword::Subgraph),
            "groupedges" => Some(StmtKeyword::GroupEdges),
            "partition" => Some(StmtKeyword::Partition),
            "mapvertices" => Some(StmtKeyword::MapVertices),
            "mapedges" => Some(StmtKeyword::MapEdges),
            "maptriplets" => Some(StmtKeyword::MapTriplets),
            "joinvertices" => Some(StmtKeyword::JoinVertices),
            "outerjoin" => Some(StmtKeyword::OuterJoin),
            "aggregate" => Some(StmtKeyword::Aggregate),
            "indegrees" => Some(StmtKeyword::InDegrees),
            "outdegrees" => Some(StmtKeyword::OutDegrees),
            "degrees" => Some(StmtKeyword::Degrees),
            "neighbours" => Some(StmtKeyword::Neighbours),
            "pregel" => Some(StmtKeyword::Pregel),
            "filter" => Some(StmtKeyword::Filter),
            "mapvalues" => Some(StmtKeyword::MapValues),
            "minus" => Some(StmtKeyword::Minus),
            "diff" => Some(StmtKeyword::Diff),
            "innerjoin" => Some(StmtKeyword::InnerJoin),
            "leftjoin" => Some(StmtKeyword::LeftJoin),
            "print" => Some(StmtKeyword::Print),
            "count" => Some(StmtKeyword::Count),
            _ => None,
        }
    }
}

impl Keyword for bool {
    ghost meaning = { words.truth_of };

    fn of_word(word: &str) -> Option<bool> {
        match word {
            "true" => Some(true),
            "false" => Some(false),
            _ => None,
        }
    }
}
