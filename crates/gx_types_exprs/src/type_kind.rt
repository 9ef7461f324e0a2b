//! Why a script is not well typed.

/// Why a statement of a script is not well typed.
#[derive(Clone, Copy, Debug, PartialEq, Eq)]
pub enum TypeKind {
    /// The new name is taken.
    NameTaken,
    /// A used name is not defined before.
    NameUnknown,
    /// A used name stands for another sort of thing than the statement takes: a table, a graph or
    /// an edge collection.
    WrongSort,
    /// A column has a name that no column may have: `id`, `src` or `dst`.
    ColumnName,
    /// Two columns of one list have one name.
    ColumnTwice,
    /// The columns of two lists differ, in number, name or kind.
    ColumnsDiffer,
    /// A merge does not take the kind of the values that are sent.
    MergeKind,
    /// A constant is not of its column's kind.
    ConstKind,
    /// A side, or `matched`, cannot be read at this place.
    SideUnknown,
    /// A side has no column of this name.
    ColumnUnknown,
    /// There is no function of this name with this number of arguments.
    FunctionUnknown,
    /// An operator or a function does not take the kinds of its operands, or a condition is not a
    /// truth value.
    KindWrong,
    /// The statement is not run by this version yet.
    NotBuilt,
}
