//! What a search for flips to the boundary of a simplex comes to, whatever the way it goes.
#![tactic(auto)]

mod law;
mod search;

pub use law::labels_law;
pub use search::Searched;
