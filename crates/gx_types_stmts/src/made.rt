//! What a statement makes.

ghost use Rattle.std.specs.Prelude.{◌≡◌, None, Some, IfOk};
ghost use Rattle.gx_types_stmts.specs.Makes.{is_of_sort};

use crate::SharedType;
use gx_rows::NoMemory;
use gx_types_clauses::Sort;

/// The row types of what a statement makes. A table has `vertices` alone, an edge collection
/// `edges` alone, and a graph both. An action has neither.
#[derive(Drop)]
pub struct Made {
    /// The row type of the rows of a table, or of the vertices of a graph.
    pub vertices: Option<SharedType>,
    /// The row type of the edges.
    pub edges: Option<SharedType>,
}

impl Made {
    /// Whether it is of this sort.
    pub(crate) fn is_of(&self, sort: Sort) -> bool
        ensures { result ≡ is_of_sort sort self.now }
    {
        match sort {
            Sort::Table => self.vertices.is_some() && self.edges.is_none(),
            Sort::Edges => self.vertices.is_none() && self.edges.is_some(),
            Sort::Graph => self.vertices.is_some() && self.edges.is_some(),
        }
    }

    /// The same row types. It takes no memory.
    ///
    /// # Errors
    ///
    /// `NoMemory` if no further copy can be counted.
    pub fn copy(&self) -> Result<Made, NoMemory>
        ensures { IfOk result (λ m. m ≡ self.now) }
    {
        Ok(Made {
            vertices: copy_if_some(&self.vertices)?,
            edges: copy_if_some(&self.edges)?,
        })
    }
}

fn copy_if_some(row_type: &Option<SharedType>) -> Result<Option<SharedType>, NoMemory>
    ensures { IfOk result (λ t. t ≡ row_type.now) }
{
    match row_type {
        Some(row_type) => Ok(Some(row_type.copy()?)),
        None => Ok(None),
    }
}
