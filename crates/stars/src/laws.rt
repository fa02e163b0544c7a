// What holds of all flips on stars.
ghost use Rattle.stars.specs.FlipsHere.{FlipsSeenHere, UndoLaw};

/// Flips whose labels are all held, and that are legal in order on one complex with these stars, are
/// legal in order on every complex with them. There each held star becomes what the flips make of its
/// facets, and every other star stays.
pub fn flips_seen_here()
    ensures { FlipsSeenHere }
{}

/// After a flip that is legal on stars of a complex its inverse is legal there, and makes the stars what
/// they were.
pub fn undo_law()
    ensures { UndoLaw }
{}
