//! The top call: it does the job that the words ask for, from a source to a sink. What a job answers is said by the crate of that
//! job. It touches the source, the sink, the gates and the threads that it is lent.
#![tactic(auto)]

mod job;
mod law;
mod report;
mod run;
mod usage;

pub use job_answer::Status;
pub use law::answer_law;
pub use report::{Answer, JobReport};
pub use run::run_job;
