ghost use Rattle.core_laws.specs.Runs.{RunsAreSerial, RollbacksLeaveNoTrace, StepIsOne, RunsAreOne};

/// From an opened world, over every list of events of any workers, the world is serial after each.
pub fn runs_are_serial()
    ensures { RunsAreSerial }
{}

/// A rollback leaves journal, complex and owners equal.
pub fn rollbacks_leave_no_trace()
    ensures { RollbacksLeaveNoTrace }
{}

/// An event has one answer, and leads to one core.
pub fn steps_are_one()
    ensures { StepIsOne }
{}

/// Two runs from the same core over the same events are the same: each answer, and the core after it.
pub fn runs_are_one()
    ensures { RunsAreOne }
{}
