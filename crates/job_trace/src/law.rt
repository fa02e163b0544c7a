// Laws of the job `trace`.
ghost use Rattle.job_answer.specs.Meanings.{Lawful};
ghost use Rattle.job_trace.specs.Answers.{meaning};
ghost use Rattle.job_trace.specs.Laws.{YesIsClean, VerdictTellsHistory};

/// A Yes is exactly that the bytes tell a trace, each event of which is accepted, and that nothing is pending at its end
/// (`clean`). At Yes and No the core that is reported began with the complex of the input, its journal is one legal history with
/// each worker's entries whole, once and in order, and the text ends with that journal and the complex that it leads to
/// (`history`). Each answer is Yes or No and reports a core, and an input has one (`lawful`).
pub fn trace_law()
    ensures clean { YesIsClean }
    ensures history { VerdictTellsHistory }
    ensures lawful { Lawful meaning }
{}
