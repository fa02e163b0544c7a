//! Links: whether the link of each face has the facts of a sphere that are cheap to test.
#![tactic(auto)]

mod bad;
mod flags;
mod laws;
mod link_search;

pub use bad::{BadLink, LinkFact, bad_link};
pub use flags::{Flag, all_flags};
pub use laws::{bad_link_law, good_links_law, vertex_links_closed};
pub use link_search::{Links, file, link_of, links_of};
