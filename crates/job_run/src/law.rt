// Laws of the answers.
ghost use Rattle.job_run.specs.Answers.{AnswerIsOne, AnswerIsOfJob};

/// Words that ask for no rounds and an input determine the status, the text and the report of the answer (`one`). An answer to
/// words that ask for a job is that job's, so that the laws of its crate speak of it (`of_job`).
pub fn answer_law()
    ensures one { AnswerIsOne }
    ensures of_job { AnswerIsOfJob }
{}
