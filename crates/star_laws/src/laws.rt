ghost use Rattle.star_laws.specs.Laws.{FlipKeepsStars, BrokenRuleSeenOnStars, StarAfterFlip, FlipOnAlike, ReplayOnAlike, ReplayKeepsStars, StarAfterReplay};

/// A legal flip changes no star of a label outside A ∪ B.
pub fn flip_keeps_stars()
    ensures { FlipKeepsStars }
{}

/// Whether a flip is legal, and else the first rule that it breaks, is seen in the star of one
/// label of A and the star of one label of B.
pub fn broken_rule_seen_on_stars()
    ensures { BrokenRuleSeenOnStars }
{}

/// The star of a label after a flip is its star before, without the rows that contain A, and with
/// the rows (A less a) ∪ B that contain the label.
pub fn star_after_flip()
    ensures { StarAfterFlip }
{}

/// Complexes that are alike on the labels of a flip judge it alike, and are alike after it.
pub fn flip_on_alike()
    ensures { FlipOnAlike }
{}

/// Complexes that are alike on the labels of some flips replay them alike, to ends that are alike.
pub fn replay_on_alike()
    ensures { ReplayOnAlike }
{}

/// A replay changes no star of a label that none of its flips has.
pub fn replay_keeps_stars()
    ensures { ReplayKeepsStars }
{}

/// The star of a label after a replay is its star before, changed by one flip after another.
pub fn star_after_replay()
    ensures { StarAfterReplay }
{}
