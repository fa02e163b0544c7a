//! The command that takes the words.

ghost use Rattle.std.specs.Prelude.{◌≡◌, ◌⊎◌, IfErr, IfOk, OnOk, codes, false, fold, map, string_bytes, true};
ghost use Rattle.clap.specs.Words.{app_of, found_of, rows_of, rule_of, with_rule};
ghost use Rattle.job_words.specs.Command.{complex_rules, is_taken, number_rule, phase_rules, rows, size_rules, text_rule, the_app, wanted_rule};
ghost use Rattle.job_words.specs.Reads.{AreRead};

use crate::job::UsageFault;
use clap::builder::ValueParser;
use clap::error::ErrorKind;
use clap::{Arg, ArgAction, ArgMatches, Command};
use std::alloc::{AllocError, Global};

// An option that takes a whole number from `low` to `high`.
fn number_option<'a>(alloc: Global, id: &'a str, low: u32, high: u32, default: &'a str) -> Arg<'a>
    ensures rule { rule_of result ≡ number_rule id.entry.now low high default.entry.now }
    ensures local { result.global ≡ false }
{
    let parser = clap::value_parser!(u32).range(i64::from(low)..=i64::from(high));
    Arg::new(alloc, id)
        .long(id)
        .action(ArgAction::Set)
        .value_parser(parser)
        .default_value(default)
}

// The command with such an option.
fn with_number<'a>(
    alloc: Global,
    command: Command<'a>,
    id: &'a str,
    low: u32,
    high: u32,
    default: &'a str,
) -> Result<Command<'a>, AllocError>
    ensures { IfOk result (λ c. app_of c
        ≡ with_rule (app_of command.entry) (number_rule id.entry.now low high default.entry.now)) }
{
    let more = command.arg(number_option(alloc, id, low, high, default))?;
    Ok(more)
}

// The command with an option that takes a text.
fn with_text<'a>(
    alloc: Global,
    command: Command<'a>,
    id: &'a str,
    default: &'a str,
) -> Result<Command<'a>, AllocError>
    ensures { IfOk result (λ c. app_of c
        ≡ with_rule (app_of command.entry) (text_rule id.entry.now default.entry.now)) }
{
    let option = Arg::new(alloc, id)
        .long(id)
        .action(ArgAction::Set)
        .value_parser(ValueParser::string())
        .default_value(default);
    let more = command.arg(option)?;
    Ok(more)
}

// The command with a word that has to be there.
fn with_word<'a>(
    alloc: Global,
    command: Command<'a>,
    id: &'a str,
) -> Result<Command<'a>, AllocError>
    ensures { IfOk result (λ c. app_of c ≡ with_rule (app_of command.entry) (wanted_rule id.entry.now)) }
{
    let word = Arg::new(alloc, id).required(true).action(ArgAction::Set);
    let more = command.arg(word)?;
    Ok(more)
}

// The command with the options of a search's size.
fn with_sizes<'a>(alloc: Global, command: Command<'a>) -> Result<Command<'a>, AllocError>
    ensures { IfOk result (λ c. app_of c ≡ fold with_rule (app_of command.entry) size_rules) }
{
    let workers = with_number(alloc, command, "workers", 1, 16, "4")?;
    let seed = with_number(alloc, workers, "seed", 0, 4_294_967_295, "1")?;
    let rounds = with_number(alloc, seed, "rounds", 0, 10_000, "40")?;
    let tries = with_number(alloc, rounds, "tries", 1, 1000, "200")?;
    Ok(tries)
}

// The command with the options of a search's phases and tries.
fn with_phases<'a>(alloc: Global, command: Command<'a>) -> Result<Command<'a>, AllocError>
    ensures { IfOk result (λ c. app_of c ≡ fold with_rule (app_of command.entry) phase_rules) }
{
    let heat = with_number(alloc, command, "heat", 0, 1000, "6")?;
    let relax = with_number(alloc, heat, "relax", 0, 1000, "40")?;
    let depth = with_number(alloc, relax, "depth", 1, 4, "2")?;
    let room = with_number(alloc, depth, "room", 1, 1024, "16")?;
    Ok(room)
}

// The command with the option of a kind.
fn with_kind<'a>(alloc: Global, command: Command<'a>) -> Result<Command<'a>, AllocError>
    ensures { IfOk result (λ c. app_of c
        ≡ with_rule (app_of command.entry) (text_rule (codes "kind") (codes "simplex"))) }
{
    with_text(alloc, command, "kind", "simplex")
}

// The command with the options of a complex that is made.
fn with_complex<'a>(alloc: Global, command: Command<'a>) -> Result<Command<'a>, AllocError>
    ensures { IfOk result (λ c. app_of c ≡ fold with_rule (app_of command.entry) complex_rules) }
{
    let kind = with_kind(alloc, command)?;
    let dim = with_number(alloc, kind, "dim", 1, 6, "2")?;
    let draws = with_number(alloc, dim, "draws", 0, 100_000, "0")?;
    Ok(draws)
}

// The command of the program's words.
fn command<'a>(alloc: Global) -> Result<Command<'a>, AllocError>
    ensures { IfOk result (λ c. app_of c ≡ the_app) }
{
    let plain = Command::new(alloc, "bistellar").no_binary_name(true);
    let job = with_word(alloc, plain, "job")?;
    let sizes = with_sizes(alloc, job)?;
    let phases = with_phases(alloc, sizes)?;
    let complex = with_complex(alloc, phases)?;
    Ok(complex)
}

/// What the command finds in the words.
pub(crate) fn parse<'a>(alloc: Global, words: &'a [String]) -> Result<ArgMatches<'a>, UsageFault>
    ensures taken { OnOk result (is_taken (map string_bytes words.now) ≡ true) }
    ensures rows { IfOk result (λ m. rows_of (found_of m) ≡ rows (map string_bytes words.now)) }
    ensures read { IfOk result AreRead }
    ensures err { IfErr result (λ e. (e ≡ UsageFault.Memory)
        ⊎ ((e ≡ UsageFault.Words) × (is_taken (map string_bytes words.now) ≡ false))) }
{
    let command = command(alloc)?;
    match command.try_get_matches_from(words) {
        Ok(matches) => Ok(matches),
        Err(error) => match error.kind() {
            ErrorKind::OutOfMemory => Err(UsageFault::Memory),
            _ => Err(UsageFault::Words),
        },
    }
}
