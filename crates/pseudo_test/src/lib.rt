//! Tests of pseudomanifolds: in how many facets each ridge lies, and whether chains of facets
//! that share ridges join all facets.
#![tactic(auto)]

mod chains;
mod incidences;
mod ridges;

pub use chains::{Apart, strong};
pub use incidences::{all_incidences, over};
pub use ridges::{Ridge, closed, thin};
