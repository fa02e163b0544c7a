// What jobs end with.
use flip_world::World;
use job_answer::{Said, Status};
use round_run::Report;

/// What a job found besides its text.
#[derive(Drop)]
pub enum JobReport {
    /// Nothing more than its text says.
    Nothing,
    /// The world that a trace ends with.
    Trace(World),
    /// A search from a complex that nothing keeps from being led to a sphere.
    Sphere(Report),
    /// Searches from two complexes that differ in no fact that flips keep.
    Equal(Report, Report),
    /// For some vertices, rising, a search from the link that found no flips.
    Links(Vec<(u16, Report)>),
}

/// What a job ends with.
#[derive(Drop)]
pub struct Answer {
    /// How it ended.
    pub status: Status,
    /// What it found besides its text.
    pub report: JobReport,
}

/// An answer with its text, before it is written.
#[derive(Drop)]
pub(crate) struct Prepared {
    pub(crate) status: Status,
    pub(crate) text: Vec<u8>,
    pub(crate) report: JobReport,
}
