//! Causes of faults.

/// Why an expression has no value.
#[derive(Clone, Copy, Debug, PartialEq, Eq)]
pub enum Cause {
    /// A whole number leaves 64 bits.
    Overflow,
    /// A divisor is 0.
    DivideByZero,
    /// A text would have more than 1,024 bytes.
    TextTooLong,
    /// A list would have more than 1,000,000 entries.
    ListTooLong,
}
