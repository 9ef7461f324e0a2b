//! The one error of the outside.

/// A file or a sink met a fault and has counted it. From `Files::open` it may also mean that there
/// is no file of the name, which is no fault if the contents are known.
#[derive(Clone, Copy, Debug, PartialEq, Eq)]
pub struct Failed;
