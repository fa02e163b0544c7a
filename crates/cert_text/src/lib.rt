//! The text of certificates.
//!
//! A certificate is read by lines, to the end of the input:
//!
//! ```text
//! bistellar 1 sphere          bistellar 1 equal          bistellar 1 manifold
//! flips N                     TARGET                     vertices M
//! (N lines, one flip each)    flips N                    (M times: vertex V, flips N,
//!                             (N lines, one flip each)    and N lines, one flip each)
//!                             map M
//!                             (M lines, FROM TO)
//! ```
#![tactic(auto)]

mod certificate;
mod fault;
mod line;
mod part;
mod read;
mod write;

pub use certificate::Certificate;
pub use fault::CertFault;
pub use read::read_certificate;
pub use write::{write_certificate, write_map, written_certificate_is_read};
