// Laws of replays, exchanges and journals.
ghost use Rattle.flip_rules.specs.Laws.{ReplayGoesOn, ReplayKeepsComplexes, ReplayDecides, FirstIllegalExcludes, FirstIllegalIsOne, ReplaysBack, ReplayIsExchange, PutInIsPure};
ghost use Rattle.flip_rules.specs.Journals.{ShortestExists, ShortestIsOne, StarsExist, StarIsOne, StarStays};

/// Flips one after another: a list of flips comes to an end, or has exactly one first illegal flip
/// with one reason, so what a certificate says of a complex is determined. A replay leads from a
/// complex to a complex of the same dimension, and flips that follow go on from there. The inverse
/// flips, last first, lead back.
pub fn replay_law()
    ensures goes_on { ReplayGoesOn }
    ensures keeps { ReplayKeepsComplexes }
    ensures decides { ReplayDecides }
    ensures excludes { FirstIllegalExcludes }
    ensures one { FirstIllegalIsOne }
    ensures back { ReplaysBack }
{}

/// A replay is one exchange of facets: all that its flips take out, against what they put in and
/// leave there.
pub fn exchange_law()
    ensures exchange { ReplayIsExchange }
    ensures pure { PutInIsPure }
{}

/// The star of a place after the shortest beginning of a journal in which so many entries touch it:
/// there is exactly one for each count up to all that touch it, and entries that follow don't
/// change it.
pub fn journal_law()
    ensures fronts { ShortestExists }
    ensures front { ShortestIsOne }
    ensures stars { StarsExist }
    ensures star { StarIsOne }
    ensures stays { StarStays }
{}
