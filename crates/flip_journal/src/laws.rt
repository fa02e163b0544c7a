// Laws of lists of flips.
ghost use Rattle.flip_rules.specs.Laws.{ReplaysBack};
ghost use Rattle.flip_journal.specs.Laws.{InverseIsAsLong, CarriedJoins, CarriedLeads, NewNameIsLeast};

/// The inverse list leads back from the end of the flips to their start, and is as long.
pub fn inverse_law()
    ensures back { ReplaysBack }
    ensures length { InverseIsAsLong }
{}

/// Flips that are carried over a map lead to a complex, and the map that is carried along takes this
/// complex to the end of the given flips, on exactly its labels. So, where a map takes the end of one
/// list to the end of another, the first list and the inverse list of the other, carried over the
/// map, lead from the start of the first to a complex that the map at the end takes to the start of
/// the other. A new label is called by the least number from 1 that calls no other.
pub fn carrying_law()
    ensures leads { CarriedLeads }
    ensures joins { CarriedJoins }
    ensures least { NewNameIsLeast }
{}
