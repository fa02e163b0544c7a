// The top call, from words and bytes to an answer.
ghost use Rattle.std.specs.Prelude.{◌≡◌, ◌⊎◌, ◌≤◌, [], true, false, IfErr, IfOk, IfSome, IsOk, Err, None, length, map, string_bytes};
ghost use Rattle.std.specs.Io.KnownBytes.{Keeps, Appends, IsAtEnd};
ghost use Rattle.flip_io.specs.Causes.{Rose};
ghost use Rattle.flip_io.specs.Outcomes.{AppendsPrefix};
ghost use Rattle.round_run.specs.Gates.{Rise};
ghost use Rattle.job_answer.specs.Meanings.{Answers, Judges};
ghost use Rattle.job_answer.specs.Statuses.{HasVerdict};
ghost use Rattle.job_run.specs.declared.run.Stop.TheVariants.{NoMemory};
ghost use Rattle.job_run.specs.declared.job.Job.{Job};
ghost use Rattle.job_run.specs.declared.job.Job.TheVariants as job;
ghost use Rattle.job_run.specs.declared.report.JobReport.TheVariants as report;
ghost use Rattle.job_run.specs.Usage.{usage_line};
ghost use Rattle.job_run.specs.Jobs.{limit_of, IsJob, NamesNoJob, TakesNothing, AsksForSearches, FailsUpTo, TakesUpTo, meaning_of, taken_by, takes_input};
ghost use Rattle.job_run.specs.Answers.{IsAnswer, IsInput, MayEnd, FitsJob, Headline, EndsJob, FitsWords, quits_of, IsWritten, RefusesWords, WritesNothing, ReportsNothing, Answered, BegunWith};

use crate::job::Job;
use crate::report::{Answer, JobReport, Prepared};
use crate::usage::usage_line;
use anneal_plan::Plan;
use flip_io::{Failed, ReadAllFault, Sink, Source, read_all, write_all};
use held_stars::Gate;
use job_answer::{Fault, Said, Status, plain, refuse};
use job_drill::drill;
use job_equiv::equiv;
use job_info::info;
use job_iso::iso;
use job_make::{Recipe, say_made};
use job_manifold::manifold;
use job_replay::replay_input;
use job_sphere::sphere;
use job_trace::trace;
use std::alloc::{AllocError, Global};
use std::marker::Send;
use std::thread::Threads;

// An answer that reports nothing.
fn silent(said: Said) -> Prepared
    ensures status { result.status ≡ said.status }
    ensures text { result.text.items ≡ said.text.items }
    ensures report { result.report ≡ report.Nothing }
{
    Prepared {
        status: said.status,
        text: said.text,
        report: JobReport::Nothing,
    }
}

// What `trace` answers to an input.
fn judge_trace(alloc: Global, bytes: &[u8]) -> Result<Prepared, AllocError>
    requires { length bytes.now ≤ limit_of job.Trace }
    ensures judged { IfOk result (λ a. Judges (meaning_of job.Trace) bytes.now a.status a.text.items a.report) }
    ensures quits { IfOk result (λ a. quits_of a.report ≡ (λ i. 0)) }
{
    let (said, last) = trace(alloc, bytes)?;
    match last {
        Some(world) => Ok(Prepared {
            status: said.status,
            text: said.text,
            report: JobReport::Trace(world),
        }),
        None => Ok(silent(said)),
    }
}

// What `sphere` answers to an input.
fn judge_sphere<R: Threads + Sync, G: Gate + Send>(
    rt: &R,
    alloc: Global,
    plan: &Plan,
    bytes: &[u8],
    gates: &mut [G],
) -> Result<Prepared, AllocError>
    requires gates { 16 ≤ length gates.old }
    ensures judged { IfOk result (λ a. Judges (meaning_of (job.Sphere plan.now)) bytes.now a.status a.text.items a.report) }
    ensures quits { IfOk result (λ a. Rise (λ g. G.quits g) gates.old gates.new (quits_of a.report)) }
    ensures later { Rise (λ g. G.quits g) gates.old gates.new (λ _. 0) }
{
    let (said, found) = sphere(rt, alloc, plan, bytes, gates)?;
    match found {
        Some(report) => Ok(Prepared {
            status: said.status,
            text: said.text,
            report: JobReport::Sphere(report),
        }),
        None => Ok(silent(said)),
    }
}

// What `equiv` answers to an input.
fn judge_equiv<R: Threads + Sync, G: Gate + Send>(
    rt: &R,
    alloc: Global,
    plan: &Plan,
    bytes: &[u8],
    gates: &mut [G],
) -> Result<Prepared, AllocError>
    requires gates { 16 ≤ length gates.old }
    ensures judged { IfOk result (λ a. Judges (meaning_of (job.Equiv plan.now)) bytes.now a.status a.text.items a.report) }
    ensures quits { IfOk result (λ a. Rise (λ g. G.quits g) gates.old gates.new (quits_of a.report)) }
    ensures later { Rise (λ g. G.quits g) gates.old gates.new (λ _. 0) }
{
    let (said, found) = equiv(rt, alloc, plan, bytes, gates)?;
    match found {
        Some((first, second)) => Ok(Prepared {
            status: said.status,
            text: said.text,
            report: JobReport::Equal(first, second),
        }),
        None => Ok(silent(said)),
    }
}

// What `manifold` answers to an input.
fn judge_manifold<R: Threads + Sync, G: Gate + Send>(
    rt: &R,
    alloc: Global,
    plan: &Plan,
    bytes: &[u8],
    gates: &mut [G],
) -> Result<Prepared, AllocError>
    requires gates { 16 ≤ length gates.old }
    ensures judged { IfOk result (λ a. Judges (meaning_of (job.Manifold plan.now)) bytes.now a.status a.text.items a.report) }
    ensures quits { IfOk result (λ a. Rise (λ g. G.quits g) gates.old gates.new (quits_of a.report)) }
    ensures later { Rise (λ g. G.quits g) gates.old gates.new (λ _. 0) }
{
    let (said, found) = manifold(rt, alloc, plan, bytes, gates)?;
    match found {
        Some(left) => Ok(Prepared {
            status: said.status,
            text: said.text,
            report: JobReport::Links(left),
        }),
        None => Ok(silent(said)),
    }
}

// What `drill` answers.
fn judge_drill<R: Threads + Sync, G: Gate + Send>(
    rt: &R,
    alloc: Global,
    plan: &Plan,
    recipe: &Recipe,
    gates: &mut [G],
) -> Result<Prepared, AllocError>
    requires gates { 16 ≤ length gates.old }
    ensures judged { IfOk result (λ a. Judges (meaning_of (job.Drill plan.now recipe.now)) [] a.status a.text.items a.report) }
    ensures quits { IfOk result (λ a. Rise (λ g. G.quits g) gates.old gates.new (quits_of a.report)) }
    ensures later { Rise (λ g. G.quits g) gates.old gates.new (λ _. 0) }
{
    let (said, found) = drill(rt, alloc, recipe, plan, gates)?;
    match found {
        Some(report) => Ok(Prepared {
            status: said.status,
            text: said.text,
            report: JobReport::Sphere(report),
        }),
        None => Ok(silent(said)),
    }
}

// What the job answers to what it took of an input: one line for each job.
fn judge<R: Threads + Sync, G: Gate + Send>(
    rt: &R,
    alloc: Global,
    job: Job,
    bytes: &[u8],
    gates: &mut [G],
) -> Result<Prepared, AllocError>
    requires short { length bytes.now ≤ limit_of job }
    requires gates { 16 ≤ length gates.old }
    ensures judged { IfOk result (λ a. Judges (meaning_of job) bytes.now a.status a.text.items a.report) }
    ensures quits { IfOk result (λ a. Rise (λ g. G.quits g) gates.old gates.new (quits_of a.report)) }
    ensures later { Rise (λ g. G.quits g) gates.old gates.new (λ _. 0) }
{
    match job {
        Job::Replay => Ok(silent(replay_input(alloc, bytes)?)),
        Job::Trace => judge_trace(alloc, bytes),
        Job::Info => Ok(silent(info(alloc, bytes)?)),
        Job::Iso => Ok(silent(iso(alloc, bytes)?)),
        Job::Sphere(plan) => judge_sphere(rt, alloc, &plan, bytes, gates),
        Job::Equiv(plan) => judge_equiv(rt, alloc, &plan, bytes, gates),
        Job::Manifold(plan) => judge_manifold(rt, alloc, &plan, bytes, gates),
        Job::Make(recipe) => Ok(silent(say_made(alloc, &recipe)?)),
        Job::Drill(plan, recipe) => judge_drill(rt, alloc, &plan, &recipe, gates),
    }
}

enum Stop {
    ReadFault,
    NoMemory,
}

impl From<AllocError> for Stop {
    ghost from_gives = { λ _ e. e ≡ NoMemory };

    fn from(_: AllocError) -> Self {
        Stop::NoMemory
    }
}

// The bytes of the source to its end, at most so many; or none of them.
fn take_input<S: Source>(
    alloc: Global,
    limit: Option<usize>,
    source: &mut S,
) -> Result<Vec<u8>, ReadAllFault>
    ensures takes { IfOk result (λ v. TakesUpTo limit (S.left source.old) (S.left source.new) v.items) }
    ensures untouched { limit ≡ None → source.new ≡ source.old }
    ensures none { limit ≡ None → IsOk result }
    ensures fault { result ≡ Err ReadAllFault.Fault → Rose (S.faults source.old) (S.faults source.new) }
    ensures cause { IfErr result (FailsUpTo limit (S.faults source.old) (S.faults source.new) (S.left source.old) (S.left source.new)) }
{
    match limit {
        Some(limit) => read_all(alloc, source, limit),
        None => Ok(Vec::new(alloc)),
    }
}

// The answer of a job, before it is written.
fn find_answer<R: Threads + Sync, S: Source, G: Gate + Send>(
    rt: &R,
    alloc: Global,
    job: Job,
    source: &mut S,
    gates: &mut [G],
) -> Result<Prepared, Stop>
    requires gates { 16 ≤ length gates.old }
    ensures told { IfOk result (λ a. IfSome (S.left source.old) (λ bytes. Answers (meaning_of job) (taken_by job bytes) a.status a.text.items a.report)) }
    ensures ends { IfOk result (λ a. EndsJob job a.status a.report) }
    ensures taken { IfOk result (λ a. takes_input job ≡ true → HasVerdict a.status → IsAtEnd (S.left source.new)) }
    ensures untouched { takes_input job ≡ false → source.new ≡ source.old }
    ensures read { takes_input job ≡ false → result ≡ Err Stop.ReadFault → ⊥ }
    ensures fault { result ≡ Err Stop.ReadFault → Rose (S.faults source.old) (S.faults source.new) }
    ensures quits { IfOk result (λ a. Rise (λ g. G.quits g) gates.old gates.new (quits_of a.report)) }
    ensures later { Rise (λ g. G.quits g) gates.old gates.new (λ _. 0) }
{
    match take_input(alloc, job.limit(), source) {
        Ok(bytes) => Ok(judge(rt, alloc, job, &bytes, gates)?),
        Err(ReadAllFault::Fault) => Err(Stop::ReadFault),
        Err(ReadAllFault::TooLong(_)) => Ok(silent(refuse(alloc, Fault::TooLong)?)),
        Err(ReadAllFault::Memory) => Err(Stop::NoMemory),
    }
}

// The answer to the words, before it is written.
fn prepare<R: Threads + Sync, S: Source, G: Gate + Send>(
    rt: &R,
    alloc: Global,
    words: &[String],
    source: &mut S,
    gates: &mut [G],
) -> Result<Prepared, Stop>
    requires gates { 16 ≤ length gates.old }
    ensures told { IfOk result (λ a. IfSome (S.left source.old) (λ bytes. IsAnswer (map string_bytes words.now) bytes a.status a.text.items a.report)) }
    ensures words { IfOk result (λ a. FitsWords (map string_bytes words.now) a.status a.text.items a.report) }
    ensures taken { IfOk result (λ a. (j : Job) → IsJob (map string_bytes words.now) j → takes_input j ≡ true → HasVerdict a.status → IsAtEnd (S.left source.new)) }
    ensures untouched { TakesNothing (map string_bytes words.now) → source.new ≡ source.old }
    ensures fault { result ≡ Err Stop.ReadFault → Rose (S.faults source.old) (S.faults source.new) }
    ensures named { TakesNothing (map string_bytes words.now) → result ≡ Err Stop.ReadFault → ⊥ }
    ensures quits { IfOk result (λ a. Rise (λ g. G.quits g) gates.old gates.new (quits_of a.report)) }
    ensures later { Rise (λ g. G.quits g) gates.old gates.new (λ _. 0) }
{
    match Job::of_words(alloc, words)? {
        Some(job) => find_answer(rt, alloc, job, source, gates),
        None => Ok(silent(plain(Status::Usage, usage_line(alloc)?))),
    }
}

/// Does the job that the words ask for, from a source to a sink. The whole answer is made in memory before it is written.
///
/// - `replay` reads a complex and a certificate behind it, to the end, of at most 268,435,456 bytes together, and judges the
///   certificate: of a sphere, of an equivalence with another complex, or of a manifold.
/// - `trace` reads a trace of at most 4,194,304 bytes, and runs its events.
/// - `info` reads a complex of at most 4,194,304 bytes, behind which only blanks stand, and describes it.
/// - `iso` reads two complexes, one behind the other, of at most 4,194,304 bytes together, and tells the least map of labels that
///   takes the first to the second, or that there is none.
/// - `sphere` reads a complex as `info` does, and says what keeps it from being led to the boundary of a simplex: the first of four
///   facts of a sphere that it lacks. From a complex that lacks none it searches for legal flips that lead there: a descent, in
///   which each flip leaves fewer facets, and then, until a descent ends there, rounds of the workers, with a descent behind each.
///   The flips that are found are printed as a certificate.
/// - `equiv` reads two complexes as `iso` does, and says in which of three facts that flips keep they differ. Two that differ in none
///   it searches for legal flips that lead from the first to an image of the second: both are compared, and descents and rounds are
///   made on both, until a map takes the one end to the other. The flips that are found are printed as a certificate of the first.
/// - `manifold` reads a complex as `info` does, and names a ridge that doesn't lie in two facets, or else the least face whose link
///   lacks a fact of a sphere. Where there is neither it searches the link of each vertex as `sphere` does; flips for all of them
///   are printed as a certificate, and else the vertices are named whose links stay open.
/// - `make` takes no input, and prints the complex that the generator makes.
/// - `drill` takes no input, does with that complex what `sphere` does, with one worker, and prints a summary.
///
/// They take all options. `sphere`, `equiv` and `manifold` use all but `--kind`, `--dim` and `--draws`; `make` uses these and
/// `--seed`; `drill` uses all but `--workers`; and the others use none. Words that ask for no job are refused with the usage line.
/// Bytes that spell no input of the job are answered with their first fault from left to right and its place.
///
/// There are at least 16 gates: worker w of each round asks the gate at place w - 1. The workers run in threads of `rt`.
pub fn run_job<R: Threads + Sync, S: Source, K: Sink, G: Gate + Send>(
    rt: &R,
    alloc: Global,
    words: &[String],
    source: &mut S,
    sink: &mut K,
    gates: &mut [G],
) -> Answer
    requires gates { 16 ≤ length gates.old }

    // However the claims, flips, rollbacks and commits of the workers interleave, the journal that the program reports is one
    // legal history: its flips, in order from the input complex, are each legal where they stand and give the complex that the
    // run ends with; each worker's commits stand in it whole, once and in its order; and a printed Yes is what this replay shows.
    ensures headline { (j : Job) → IsJob (map string_bytes words.now) j → HasVerdict result.status → IfSome (S.left source.old) (λ bytes. Answered (K.written sink.old) (K.written sink.new) (λ text. Headline j bytes result.status text result.report)) }

    // What was appended to the sink is the text of an answer to the words and the bytes, which has this report.
    ensures answer { IsWritten result.status → IfSome (S.left source.old) (λ bytes. Answered (K.written sink.old) (K.written sink.new) (λ text. IsAnswer (map string_bytes words.now) bytes result.status text result.report)) }

    // A verdict is one of the job's. What it tells is said by the laws of the job's crate, over the answer: `replay_law`, `trace_law`,
    // `info_law`, `iso_law`, `sphere_law`, `equiv_law`, `manifold_law`, `make_law` and `drill_law`.
    ensures verdict { (j : Job) → IsJob (map string_bytes words.now) j → HasVerdict result.status → MayEnd j result.status }

    // In all rounds together a worker quits at most as often as the count of its gate rose.
    ensures quits { Rise (λ g. G.quits g) gates.old gates.new (quits_of result.report) }

    // At Yes, No and Undecided of a job that takes an input nothing of it is left. `make`, `drill` and words that ask for no job take
    // nothing of the source.
    ensures taken { (j : Job) → IsJob (map string_bytes words.now) j → takes_input j ≡ true → HasVerdict result.status → IsAtEnd (S.left source.new) }
    ensures untouched { TakesNothing (map string_bytes words.now) → source.new ≡ source.old }

    // Such words are refused with the usage line.
    ensures refused { NamesNoJob (map string_bytes words.now) → RefusesWords result.status }
    ensures usage { result.status ≡ Status.Usage → Appends (K.written sink.old) (K.written sink.new) usage_line }
    ensures usage_begun { NamesNoJob (map string_bytes words.now) → result.status ≡ Status.WriteFault → AppendsPrefix (K.written sink.old) (K.written sink.new) usage_line }
    ensures job { (j : Job) → IsJob (map string_bytes words.now) j → result.status ≡ Status.Usage → ⊥ }

    // When reading or writing fails, and what was written then.
    ensures read { result.status ≡ Status.ReadFault → Rose (S.faults source.old) (S.faults source.new) }
    ensures write { result.status ≡ Status.WriteFault → Rose (K.faults sink.old) (K.faults sink.new) }
    ensures prefix { result.status ≡ Status.WriteFault → IfSome (S.left source.old) (λ bytes. BegunWith (K.written sink.old) (K.written sink.new) (λ status text. IsAnswer (map string_bytes words.now) bytes status text result.report)) }
    ensures nothing { WritesNothing result.status → Keeps (K.written sink.old) (K.written sink.new) }

    // Where the bytes are an input of the job that the words ask for, and neither count of faults rose, the answer is one of the
    // verdicts of this job, or there was no memory.
    ensures complete { (j : Job) → IsJob (map string_bytes words.now) j → (Rose (S.faults source.old) (S.faults source.new) → ⊥) → (Rose (K.faults sink.old) (K.faults sink.new) → ⊥) → IfSome (S.left source.old) (λ bytes. IsInput j bytes → MayEnd j result.status ⊎ (result.status ≡ Status.NoMemory)) }

    // Undecided is only said by `sphere`, `equiv`, `manifold` and `drill`.
    ensures undecided { result.status ≡ Status.Undecided → AsksForSearches (map string_bytes words.now) }

    // A core is reported at Yes and No of `trace`. At Yes of `sphere` and `drill` a search is reported whose last descent was the
    // first that ended in the boundary of a simplex, and at Undecided one that made all rounds, and no descent of which ended
    // there. At Yes of `equiv` two searches are reported whose last comparison was the first that found a map, and at Undecided
    // two that made all rounds, and no comparison of which found one. At Undecided of `manifold` the searches of the links that
    // stay open are reported. Where such an answer could not be written, its report stands too.
    ensures reported { (j : Job) → IsJob (map string_bytes words.now) j → HasVerdict result.status → FitsJob j result.status result.report }
    ensures silent { ReportsNothing result.status → result.report ≡ report.Nothing }
    ensures report { (IsJob (map string_bytes words.now) job.Trace → ⊥) → (AsksForSearches (map string_bytes words.now) → ⊥) → result.report ≡ report.Nothing }
{
    match prepare(rt, alloc, words, source, gates) {
        Ok(
            Prepared {
                status,
                text,
                report,
            },
        ) => match write_all(sink, &text) {
            Ok(()) => Answer { status, report },
            Err(Failed) => Answer {
                status: Status::WriteFault,
                report,
            },
        },
        Err(Stop::ReadFault) => Answer {
            status: Status::ReadFault,
            report: JobReport::Nothing,
        },
        Err(Stop::NoMemory) => Answer {
            status: Status::NoMemory,
            report: JobReport::Nothing,
        },
    }
}
