// How a job ends.
ghost use Rattle.std.specs.Prelude.{◌≡◌};
ghost use Rattle.job_answer.specs.Statuses.{status_number};

/// How a job ends.
#[derive(Clone, Copy, Debug, PartialEq, Eq)]
pub enum Status {
    /// What the job asks is so.
    Yes,
    /// An obstacle to it holds.
    No,
    /// Neither was found.
    Undecided,
    /// The words name no job.
    Usage,
    /// The input is none of this job.
    BadInput,
    /// A read failed.
    ReadFault,
    /// A write failed.
    WriteFault,
    /// There was no memory.
    NoMemory,
}

impl Status {
    /// The number that the program ends with.
    pub fn number(self) -> u8
        ensures { result ≡ status_number self }
    {
        match self {
            Status::Yes => 0,
            Status::No => 1,
            Status::Undecided => 2,
            Status::Usage => 3,
            Status::BadInput => 4,
            Status::ReadFault => 5,
            Status::WriteFault => 6,
            Status::NoMemory => 7,
        }
    }
}
