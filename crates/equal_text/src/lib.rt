//! The certificate of an equivalence of which two searches tell the flips, and its text behind its complex:
//! definitions and laws, and no code.
//!
//! Its flips are those of the report of a first complex, and behind them those of the report of a second
//! one, turned round and carried over a map from the one end to the other. By the laws here they keep the
//! limits of the text of a certificate, and this text, put behind the text of the first complex, is an
//! input of a replay.
#![tactic(auto)]

mod law;

pub use law::{certificate_is_read, certificate_is_short, list_fits};
