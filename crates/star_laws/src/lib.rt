//! What bistellar flips do to the stars of labels: laws, and no code.
//!
//! The star of a label is the list of the facets that contain it. The flips are those of Björner
//! and Lutz (Experimental Mathematics, 2000), after Pachner's moves.
#![tactic(auto)]

mod laws;

pub use laws::{
    broken_rule_seen_on_stars, flip_keeps_stars, flip_on_alike, replay_keeps_stars,
    replay_on_alike, star_after_flip, star_after_replay,
};
