//! What a descent shows of a complex, and the text of a certificate of a sphere behind its complex: definitions and laws, and no
//! code.
//!
//! A descent runs on the places of the labels of a complex, so that its flips have to be told in these labels. By the laws here
//! they are a certificate of the complex where the descent ends in the boundary of a simplex, and the text of this certificate,
//! put behind the text of the complex, is read again.
#![tactic(auto)]

mod law;

pub use law::{certificate_is_read, cycle_is_decided, descent_is_shown};
