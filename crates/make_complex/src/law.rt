//! Laws of the labels that draws bring in.

ghost use Rattle.make_complex.specs.Laws.{LeastUnused};

/// A law: the least unused label of a complex is unused, all labels below it are used, and it is
/// at most one more than the number of labels.
pub fn least_unused_law()
    ensures { LeastUnused }
{}
