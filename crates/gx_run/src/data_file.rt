//! Data files, as load statements name them.

ghost use Rattle.std.specs.Prelude.{◌≡◌, ◌≤◌, [], length, option_map};
ghost use Rattle.gx_model.specs.DataFiles.{file_name};
ghost use Rattle.gx_run.specs.LoadedFiles.{data_file_seen, file_of_number};

use gx_rows::{RowType, Text};
use gx_types::{Typed, TypedStmt};

/// A data file that a load statement names.
#[derive(Drop)]
pub(crate) enum DataFile<'a> {
    /// A CSV file of vertices with these columns after `id`.
    Vertices {
        name: &'a Text,
        columns: &'a RowType,
    },
    /// A CSV file of edges with these columns after `src` and `dst`.
    Edges {
        name: &'a Text,
        columns: &'a RowType,
    },
    /// An edge list. If it is oriented, no edge goes from the larger identifier to the smaller.
    EdgeList {
        name: &'a Text,
        oriented: bool,
    },
}

impl<'a> DataFile<'a> {
    /// The file that statement `s`, counted from 1, loads, if it is a load. `no_columns` stands for
    /// the columns of a load whose rows have no type.
    pub(crate) fn of(typed: &'a Typed, s: u32, no_columns: &'a RowType) -> Option<DataFile<'a>>
        requires from_one { 1 ≤ s }
        requires within { s ≤ length typed.now }
        requires no_columns { no_columns.now ≡ [] }
        ensures { option_map data_file_seen result ≡ file_of_number typed.now s }
    {
        match typed.statement(s) {
            TypedStmt::Vertices { file } => Some(DataFile::Vertices {
                name: file,
                columns: typed.vertex_type(s).unwrap_or(no_columns),
            }),
            TypedStmt::Edges { file } => Some(DataFile::Edges {
                name: file,
                columns: typed.edge_type(s).unwrap_or(no_columns),
            }),
            TypedStmt::EdgeList { file, oriented } => Some(DataFile::EdgeList {
                name: file,
                oriented: *oriented,
            }),
            _ => None,
        }
    }

    /// The file's name.
    pub(crate) fn name(&self) -> &'a Text
        ensures { result.now ≡ file_name (data_file_seen self.now) }
    {
        match self {
            DataFile::Vertices { name, .. }
            | DataFile::Edges { name, .. }
            | DataFile::EdgeList { name, .. } => name,
        }
    }
}
