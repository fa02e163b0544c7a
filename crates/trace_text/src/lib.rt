//! The text of a trace: events of workers on a complex.
#![tactic(auto)]

mod event;
mod fault;
mod part;
mod read;
mod trace;

pub use fault::TraceFault;
pub use read::read_trace;
pub use trace::Trace;
