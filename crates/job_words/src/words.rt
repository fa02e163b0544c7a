//! The reader of words.

ghost use Rattle.std.specs.Prelude.{◌≡◌, ◌≤◌, ◌<◌, ◌↔◌, Err, IfErr, IfOk, IsTrue, OnOk, false, map, pos, string_bytes, true};
ghost use Rattle.clap.specs.Words.{found_of, rows_of};
ghost use Rattle.anneal_plan.specs.Numbers.{all_tries};
ghost use Rattle.make_complex.specs.Kinds.{is_surface};
ghost use Rattle.job_words.specs.Command.{is_taken, number_in, rows, text_in};
ghost use Rattle.job_words.specs.Reads.{AreRead, HasText, IsRead};
ghost use Rattle.job_words.specs.Jobs.{Gives, HasTooManyTries, HasOtherDim, IsJob, IsUnfit, NamesNone, can_have, job_at, job_of, plan_of, planned};

use crate::command::parse;
use crate::job::{Job, JobName, UsageFault};
use anneal_plan::Plan;
use clap::ArgMatches;
use clap::builder::ValueParser;
use make_complex::Kind;
use std::alloc::Global;

// The number of an option that the command has read.
fn number(matches: &ArgMatches<'_>, id: &str, low: u32, high: u32) -> u32
    requires { IsRead matches.now id.now (ValueParser.Signed (pos low) (pos high)) }
    ensures value { result ≡ number_in (rows_of (found_of matches.now)) id.now }
    ensures low { low ≤ result }
    ensures high { result ≤ high }
{
    match matches.get_one::<u32>(id) {
        Some(number) => number,
        None => unreachable!(),
    }
}

// The text of an argument that the command has read.
fn text_of<'a>(matches: &ArgMatches<'a>, id: &str) -> &'a str
    requires { HasText matches.now id.now }
    ensures { result.now ≡ text_in (rows_of (found_of matches.now)) id.now }
{
    match matches.get_str(id) {
        Some(text) => text,
        None => unreachable!(),
    }
}

// The plan of what the command has read.
#[tactic(auto, unfolding(crate::specs::Jobs::plan_of))]
fn plan_of(matches: &ArgMatches<'_>) -> Result<Plan, UsageFault>
    requires { AreRead matches.now }
    ensures answer { result ≡ planned (plan_of (rows_of (found_of matches.now))) }
    ensures few { OnOk result (all_tries (plan_of (rows_of (found_of matches.now))) ≤ 250000) }
{
    let plan = Plan::new(
        number(matches, "seed", 0, 4_294_967_295),
        number(matches, "workers", 1, 16),
        number(matches, "rounds", 0, 10_000),
        number(matches, "tries", 1, 1000),
        number(matches, "heat", 0, 1000),
        number(matches, "relax", 0, 1000),
        number(matches, "depth", 1, 4),
        number(matches, "room", 1, 1024),
    );
    match plan {
        Ok(plan) => Ok(plan),
        // The command has seen to the limits of each number alone.
        Err(_) => Err(UsageFault::Product),
    }
}

// Whether a complex of this kind can have this dimension.
fn can_have(kind: Kind, dim: u32) -> bool
    ensures test { result ≡ can_have kind dim }
    ensures surface { IsTrue result ↔ (is_surface kind ≡ true → dim ≡ 2) }
{
    !kind.is_surface() || dim == 2
}

// The job of what the command has read.
#[tactic(auto, unfolding(crate::specs::Jobs::job_of))]
fn job_of(matches: &ArgMatches<'_>) -> Result<Job, UsageFault>
    requires { AreRead matches.now }
    ensures answer { result ≡ job_of (rows_of (found_of matches.now)) }
    ensures job { IfOk result (IsJob (rows_of (found_of matches.now))) }
    ensures dim { IfOk result (λ job. (1 ≤ job.dim) × (job.dim ≤ 6)) }
    ensures draws { IfOk result (λ job. job.draws ≤ 100000) }
    ensures err { IfErr result (IsUnfit (rows_of (found_of matches.now))) }
{
    let Some(name) = JobName::from_name(text_of(matches, "job")) else {
        return Err(UsageFault::Name);
    };
    let Some(kind) = Kind::from_name(text_of(matches, "kind")) else {
        return Err(UsageFault::Name);
    };
    let plan = plan_of(matches)?;
    let dim = number(matches, "dim", 1, 6);
    let draws = number(matches, "draws", 0, 100_000);
    if !can_have(kind, dim) {
        return Err(UsageFault::KindDim);
    }
    Ok(Job {
        name,
        plan,
        kind,
        dim,
        draws,
    })
}

/// The job that words ask for. The words are those after the program's name.
///
/// They are one word for the job, and options of one value each, as `--depth 3` or `--depth=3`, each
/// at most once and in any order. Behind a lone `--` only the job's word may stand. The allocator is
/// for the command, and nothing of it is left in the answer.
#[tactic(auto, unfolding(crate::specs::Jobs::job_at))]
pub fn read_words(alloc: Global, words: &[String]) -> Result<Job, UsageFault>
    ensures answer { Gives result (job_at (map string_bytes words.now)) }
    ensures taken { OnOk result (is_taken (map string_bytes words.now) ≡ true) }
    ensures job { IfOk result (IsJob (rows (map string_bytes words.now))) }
    ensures dim { IfOk result (λ job. (1 ≤ job.dim) × (job.dim ≤ 6)) }
    ensures draws { IfOk result (λ job. job.draws ≤ 100000) }
    ensures words { result ≡ Err UsageFault.Words → is_taken (map string_bytes words.now) ≡ false }
    ensures name { result ≡ Err UsageFault.Name → NamesNone (rows (map string_bytes words.now)) }
    ensures product { result ≡ Err UsageFault.Product → HasTooManyTries (rows (map string_bytes words.now)) }
    ensures kind_dim { result ≡ Err UsageFault.KindDim → HasOtherDim (rows (map string_bytes words.now)) }
{
    let matches = parse(alloc, words)?;
    job_of(&matches)
}
