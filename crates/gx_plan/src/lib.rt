//! Plans: the lineage of a script, statement by statement.
//!
//! A `Plan` is given a checked script and adds the nodes of one statement at a time to a `Dag`. A
//! node has a recipe, which names the statement whose rows its blocks hold; contracts see a `Plan`
//! as its script, its lineage, the recipes by node, and the nodes of each statement's result. It
//! depends on `gx_types` for scripts and on `gx_lineage` for the graph. The engine calls it before
//! it demands blocks. It never sees a row, a file or a cluster.
//!
//! To plan one more statement, add its lines in specs/StmtNodes.antt, its arms in `stmt_nodes.rt`,
//! and its lines in specs/NamedStatementLaws.antt, if it needs some.
#![tactic(auto)]

mod feed;
mod growth;
mod kind;
mod laws;
mod plan;
mod recipe;
mod result_nodes;
mod stmt_nodes;

pub use feed::Feed;
pub use kind::Kind;
pub use laws::{needed_nodes_are_owned, plans_grow};
pub use plan::Plan;
pub use recipe::Recipe;
pub use result_nodes::ResultNodes;
