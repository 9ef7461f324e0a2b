//! What the blocks of a planned script hold.
//!
//! `specs/` is the product: the content of a block, by the recipe of its node, its part and the
//! value of its statement; what is made of the contents of its inputs; the law that the two are the
//! same; and the fault of a node, as the least of its blocks. It depends on `gx_plan` for recipes,
//! on `gx_model` for values, and on `gx_gops`, `gx_vpart` and `gx_vtable` for what their kernels
//! make. The engine that computes blocks is built on it. It never sees a file, a worker or an order
//! of work.
//!
//! To add a statement, add its line in `made_kind` (specs/MadeBlocks.antt), in `fault_kind`
//! (specs/PartContents.antt) if it may have a fault, in `is_modelled` (specs/Worlds.antt), and in
//! specs/StatementValueLaws.antt, specs/MadeStatementLaws.antt and specs/PartFaultLaws.antt.
#![tactic(auto)]

pub use gx_plan::{Kind, Recipe};
