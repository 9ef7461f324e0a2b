//! Values and rows: what a table is made of.
//!
//! A value is a whole number, a text, a truth value or an ascending list of identifiers. A row is a
//! list of values, a row type is a list of names with kinds, and a vertex is named by an identifier
//! of 64 bits. Contracts see a `Text` as its bytes, an `IdList` as its ascending list, a `Row` as
//! its list of values and a `RowType` as its list of columns; how a row keeps its values and that
//! texts and lists are shared is not seen. The crate depends on the standard library alone, and
//! every other crate depends on it. It never sees files, scripts, graphs or partitions.
#![tactic(auto)]

mod bounds;
mod cause;
mod cut;
mod direction;
mod eval_stop;
mod fault;
mod id_list;
mod laws;
mod limit_kind;
mod lists;
mod no_memory;
mod part_stop;
mod row;
mod row_key;
mod row_type;
mod sides;
mod text;
mod value;
mod vid;

pub use bounds::{MOST_LIST_ENTRIES, MOST_TEXT_BYTES};
pub use cause::Cause;
pub use cut::Cut;
pub use direction::Direction;
pub use eval_stop::EvalStop;
pub use fault::Fault;
pub use id_list::IdList;
pub use laws::order_is_total;
pub use limit_kind::LimitKind;
pub use lists::append;
pub use no_memory::NoMemory;
pub use part_stop::PartStop;
pub use row::Row;
pub use row_key::RowKey;
pub use row_type::RowType;
pub use sides::Sides;
pub use text::Text;
pub use value::{Value, ValueKind};
pub use vid::Vid;
