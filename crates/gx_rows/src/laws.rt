//! What holds of the order of values, rows and edges, as a clause that a caller can use.

ghost use Rattle.std.specs.Prelude.{◌≡◌, ◌↔◌, List};
ghost use Rattle.std.specs.Cmp.{IsTotalOrder};
ghost use Rattle.std.specs.declared.cmp.Ordering.TheVariants.{Equal};
ghost use Rattle.gx_rows.specs.declared.value.Value.{Value};
ghost use Rattle.gx_rows.specs.Order.{Edge, value_cmp, row_cmp, edge_cmp};

/// The orders of values, rows and edges are total, and ties are equal.
pub fn order_is_total()
    ensures values { IsTotalOrder value_cmp }
    ensures rows { IsTotalOrder row_cmp }
    ensures edges { IsTotalOrder edge_cmp }
    ensures equal_values { (a b : Value) → (value_cmp a b ≡ Equal) ↔ (a ≡ b) }
    ensures equal_rows { (r s : List Value) → (row_cmp r s ≡ Equal) ↔ (r ≡ s) }
    ensures equal_edges { (e f : Edge) → (edge_cmp e f ≡ Equal) ↔ (e ≡ f) }
{}
