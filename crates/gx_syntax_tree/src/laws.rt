//! What holds of the tree: a statement and its view as a keyword with values determine each other.

ghost use Rattle.gx_syntax_tree.specs.Forms.{IsMadeOfItsView, ViewsWhatItIsMadeOf};

/// A statement is made of the keyword and the values of its view, and the view of a statement that
/// is made of a keyword and values is these. So what is defined over views, as typing is, is
/// defined over statements.
pub fn statements_are_made_of_their_views()
    ensures made { IsMadeOfItsView }
    ensures seen { ViewsWhatItIsMadeOf }
{}
