// What each kind of step keeps, and which event of the core it is.
ghost use Rattle.board_rule.specs.Steps.{OpeningLaw, FirstWonLaw, FirstRefusedLaw, LaterWonLaw, JournalWonLaw, LaterRefusedLaw, ReleaseLaw, LeaveLaw, CommitLaw, HandOutLaw, TakeBackLaw, RunningLaw, ClosedLaw};

/// A board that is opened meets the rule, and its core is the opened one.
pub fn opening_is_lawful()
    ensures { OpeningLaw }
{}

/// The first claim of a try keeps the rule. Won it is the core's claim, and refused the core's
/// refusal, which names the same owner.
pub fn first_claim_is_lawful()
    ensures won { FirstWonLaw }
    ensures refused { FirstRefusedLaw }
{}

/// A later claim keeps the rule, of the journal too, and is the core's claim or refusal.
pub fn later_claim_is_lawful()
    ensures won { LaterWonLaw }
    ensures journal { JournalWonLaw }
    ensures refused { LaterRefusedLaw }
{}

/// To give a place back keeps the rule, and is the core's release.
pub fn release_is_lawful()
    ensures star { ReleaseLaw }
    ensures journal { LeaveLaw }
{}

/// A commit keeps the rule, and is to the core that the flips of the entry are made one after
/// another and committed in the board's round.
pub fn commit_is_lawful()
    ensures { CommitLaw }
{}

/// That a pass is handed out, or taken back, keeps the rule and is no event of the core.
pub fn passes_are_lawful()
    ensures out { HandOutLaw }
    ensures back { TakeBackLaw }
{}

/// From an opened board on, over every run of steps of any passes in any order, the rule holds after
/// each step: the journal is one legal history, and the core is serial.
pub fn running_board_is_lawful()
    ensures { RunningLaw }
{}

/// Once every pass was taken back, the board that is left is closed: all words are free, the journal
/// is one legal history, and at each place lies its star in the complex after it.
pub fn closed_board_is_lawful()
    ensures { ClosedLaw }
{}
