ghost use Rattle.descent_laws.specs.Laws.{FirstDetermines, BestIsOne, FlipFalls, CandidatesAreOne, FirstIsBest, NoneIsMinimal, DescentIsOne, DescentDescends, CycleReduces, CycleEnds};

/// Legal flips of an index above d/2: A determines B, a complex has one best flip at most, and each
/// of them leaves fewer facets.
pub fn reducing_law()
    ensures determines { FirstDetermines }
    ensures best { BestIsOne }
    ensures falls { FlipFalls }
{}

/// The list of them all, best first: a complex has one at most. Its first flip is the best one, and
/// where it is empty, no legal flip has an index above d/2.
pub fn candidates_law()
    ensures one { CandidatesAreOne }
    ensures best { FirstIsBest }
    ensures none { NoneIsMinimal }
{}

/// The descent of a complex, which makes the best flip until there is none: there is one at most,
/// with one end. Its flips are legal in order and lead to that end, on which no legal flip has an
/// index above d/2. Each of them leaves fewer facets, so the list ends.
pub fn descent_law()
    ensures one { DescentIsOne }
    ensures descends { DescentDescends }
{}

/// A closed and strongly connected complex of dimension 1 that isn't the boundary of a simplex has a
/// legal flip of index 1. So its descent ends in the boundary of a simplex.
pub fn cycle_law()
    ensures reduces { CycleReduces }
    ensures ends { CycleEnds }
{}
