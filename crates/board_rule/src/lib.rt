//! The rule of a board: the state of a core that threads share, and what each atomic step keeps.
//!
//! A board has a claim word and a slot for each place. The word of a place is the number of the
//! worker who holds it, or 0. The rule is a fact about all words, about the values that lie in the
//! slots, and about what each worker knows. It holds between any two steps.
#![tactic(auto)]

mod data;
mod kept;
mod laws;
mod rule;
mod setup;
mod view;

pub use data::{OpenJournal, Slot, VersionedStar};
pub use kept::Kept;
pub use laws::{
    closed_board_is_lawful, commit_is_lawful, first_claim_is_lawful, later_claim_is_lawful,
    opening_is_lawful, passes_are_lawful, release_is_lawful, running_board_is_lawful,
};
pub use rule::{
    ClaimFirst, ClaimJournal, ClaimStar, Commit, HandOut, Leave, Release, Ruling, TakeBack,
};
pub use setup::Setup;
pub use view::{MainView, PassView, View};
