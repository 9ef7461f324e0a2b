//! Texts: what the program prints, `show` aside.
//!
//! `rows_text` is the text of an action, a header line and a line for each row as `csv` writes them.
//! `status_text` is the one line that tells a user why a run ended, and `Status` is that end; `fixed_text`
//! lends the lines that need no memory. All texts are defined in `specs/` to the byte. The crate depends on the crates whose causes of
//! refusal a status carries, and names their types again; the top call prints through it. It never
//! sees a script, a file or a sink.
#![tactic(auto)]

mod fields;
mod lines;
mod rows;
mod status;
mod status_lines;
mod wording;

pub use gx_load::{CellKind, RowStop};
pub use gx_rows::{Cause, Fault, LimitKind, RowKey};
pub use gx_syntax_tokens::SyntaxKind;
pub use gx_types_exprs::TypeKind;
pub use rows::rows_text;
pub use status::{DataStop, ScriptStop, Status};
pub use status_lines::{fixed_text, status_text};
