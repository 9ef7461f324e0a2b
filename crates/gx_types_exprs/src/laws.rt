//! What holds of each expression that is accepted.

ghost use Rattle.gx_types_exprs.specs.ExprLaws.{AcceptedIsWellTyped};

/// An expression with short texts that is accepted is well typed by the rules of evaluation, of the
/// kind beside it, at most 64 deep, and its constants are values.
pub fn accepted_exprs_are_well_typed()
    ensures { AcceptedIsWellTyped }
{}
