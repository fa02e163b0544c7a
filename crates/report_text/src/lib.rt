//! What the report of a search shows of the complex that was given, and the text of its certificate:
//! definitions and laws, and no code.
//!
//! A search runs on the places of the labels of a complex, so that its flips have to be told in these
//! labels. By the laws here they are a certificate of the complex where the search ends in the boundary
//! of a simplex, and this certificate, put behind its complex, is an input of a replay.
#![tactic(auto)]

mod law;

pub use law::{certificate_is_short, cycle_is_found, descent_report_is_one, report_is_shown};
