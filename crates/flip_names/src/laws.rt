ghost use Rattle.flip_names.specs.Laws.{BrokenRuleCommutes, FlipCommutes, FlipStaysTaken, ReplayCommutes, ReplayStaysTaken, ReplayIsKept, FirstIllegalIsKept, BoundaryIsKept, CertificateIsKept, SizesAreKept, RenamingIsUndone, ReducingFlipsStay};

/// Flips and another naming of the labels commute. A map that takes the labels of a complex and of
/// flips keeps which flips are legal and else the first rule that they break, renames what they
/// make, and keeps boundaries of simplices and certificates of spheres, each in both directions.
/// The map of the pairs turned round leads back.
pub fn renaming_law()
    ensures sizes { SizesAreKept }
    ensures broken_rule { BrokenRuleCommutes }
    ensures flipped { FlipCommutes }
    ensures taken { FlipStaysTaken }
    ensures replay { ReplayCommutes }
    ensures end { ReplayStaysTaken }
    ensures leads { ReplayIsKept }
    ensures illegal { FirstIllegalIsKept }
    ensures boundary { BoundaryIsKept }
    ensures certificate { CertificateIsKept }
    ensures back { RenamingIsUndone }
{}

/// Legal flips of a positive index, as those that reduce a complex, bring no new label: the labels of
/// A are in a facet, and those of B in facets that contain A. So a map that takes the labels of a
/// complex takes those of all flips of a replay from it whose index is positive.
pub fn reducing_flips_stay()
    ensures { ReducingFlipsStay }
{}
