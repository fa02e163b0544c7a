// Whether a worker may do what an event asks.
ghost use Rattle.std.specs.Prelude.{◌≡◌, ◌≤◌, ◌+◌, ℕ, nat_le, nat_eq, not, find, get_or, length, Ok, IfOk, IsSome, MatchOption, OnOk};
ghost use Rattle.flip_rules.specs.Flips.{broken_rule, replay};
ghost use Rattle.core_laws.specs.Cores.{after};
ghost use Rattle.flip_world.specs.Labels.{lesser};
ghost use Rattle.core_laws.specs.Steps.{EachLabel, IsLeastFailing};

use crate::draft::Draft;
use complex_core::Complex;
use flip_rules::{Flip, Illegal, check_near};
use std::alloc::AllocError;

// The lesser of two labels, where there are any.
fn lesser(first: Option<u16>, second: Option<u16>) -> Option<u16>
    ensures { result ≡ lesser first second }
{
    match (first, second) {
        (Some(one), Some(other)) => Some(one.min(other)),
        (Some(one), None) => Some(one),
        (None, second) => second,
    }
}

// The first label that is no place.
fn first_stray(places: usize, labels: &[u16]) -> Option<u16>
    ensures { result ≡ find (λ p. not (nat_le p places)) labels.now }
{
    labels
        .iter()
        .copied()
        .find(|label| *label as usize > places)
}

/// The least label of the flip that is no place.
pub(crate) fn stray_label(places: usize, flip: &Flip) -> Option<u16>
    ensures { MatchOption result (EachLabel (λ p. nat_le p places) flip.now) (IsLeastFailing (λ p. nat_le p places) flip.now) }
{
    lesser(
        first_stray(places, &flip.a.labels()),
        first_stray(places, &flip.b.labels()),
    )
}

/// The owner of a place. A number that is no place has none.
pub(crate) fn owner_at(owners: &[u16], place: u16) -> u16
    ensures { result ≡ get_or owners.now place 0 }
{
    owners.get(place as usize).copied().unwrap_or(0)
}

// The first label that the worker doesn't own.
fn first_unowned(owners: &[u16], worker: u16, labels: &[u16]) -> Option<u16>
    ensures { result ≡ find (λ p. not (nat_eq (get_or owners.now p 0) worker)) labels.now }
{
    labels
        .iter()
        .copied()
        .find(|label| owner_at(owners, *label) != worker)
}

/// The least label of the flip that the worker doesn't own.
pub(crate) fn unowned_label(owners: &[u16], worker: u16, flip: &Flip) -> Option<u16>
    ensures { MatchOption result (EachLabel (λ p. nat_eq (get_or owners.now p 0) worker) flip.now) (IsLeastFailing (λ p. nat_eq (get_or owners.now p 0) worker) flip.now) }
{
    lesser(
        first_unowned(owners, worker, &flip.a.labels()),
        first_unowned(owners, worker, &flip.b.labels()),
    )
}

/// The first rule that a flip breaks on a complex after a draft's flips.
pub(crate) fn judged(
    complex: &Complex,
    draft: &Draft,
    flip: &Flip,
) -> Result<Result<(), Illegal>, AllocError>
    requires { IsSome (replay complex.now draft.now) }
    ensures broken_rule { IfOk result (λ answer. answer ≡ broken_rule (after complex.now draft.now) flip.now.a flip.now.b) }
    ensures few { IfOk result (λ answer. OnOk answer (length flip.now.a + length flip.now.b ≤ 8)) }
{
    if flip.a.is_empty() || flip.b.is_empty() {
        return Ok(Err(Illegal::Shape));
    }
    let near_a = draft.near(complex.around(&flip.a), &flip.a)?;
    let near_b = draft.near(complex.around(&flip.b), &flip.b)?;
    Ok(check_near(complex.dim(), &near_a, &near_b, flip))
}
