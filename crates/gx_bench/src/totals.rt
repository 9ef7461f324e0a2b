//! What a measured operation prints of its result.

/// The number of items and a sum over them, by which a run shows that it did its work.
#[derive(Clone, Copy)]
pub struct Totals {
    /// The number of items.
    pub items: u64,
    /// The sum of a number of each, modulo 2^64.
    pub sum: i64,
}

impl Totals {
    /// Those of no item.
    pub fn none() -> Totals {
        Totals { items: 0, sum: 0 }
    }

    /// Those with one more item, which has this number.
    pub fn with(self, number: i64) -> Totals {
        Totals {
            items: self.items.wrapping_add(1),
            sum: self.sum.wrapping_add(number),
        }
    }
}
