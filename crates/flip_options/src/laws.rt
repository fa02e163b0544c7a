// Laws on what a flip changes.
ghost use Rattle.flip_options.specs.Changes.{FlipsStay};

/// A legal flip (A, B) leaves the legal flips (C, D) of an index above d/2 as they are, where C has a
/// label that is in neither A nor B: such a flip goes only where D is B, which becomes a face, and
/// comes only where D is A, which was one.
pub fn change_law()
    ensures { FlipsStay }
{}
