// Judges certificates.
ghost use Rattle.std.specs.Prelude.{◌≡◌, ◌↔◌, ◌≤◌, ◌+◌, IfOk, IsTrue, length, map, true};
ghost use Rattle.complex_core.specs.Labels.{has};
ghost use Rattle.complex_core.specs.Maps.{used};
ghost use Rattle.flip_rules.specs.Boundaries.{IsBoundary};
ghost use Rattle.cert_text.specs.Statements.{statement, of_vertex};
ghost use Rattle.cert_replay.specs.Answers.{Certifies, HasLinks, IsAnswer, IsListAnswer, IsListsAnswer, IsTakenTo, IsValid, NamesVertices, link_at};
ghost use Rattle.cert_replay.specs.declared.judge.Replayed.TheVariants.{Valid};

use crate::outcome::{Outcome, replay_flips};
use cert_text::Certificate;
use complex_core::{Complex, Face, VertexMap};
use flip_rules::{Flip, Illegal, is_simplex_boundary};
use std::alloc::{AllocError, Global};

/// What a certificate comes to.
#[derive(Clone, Copy, Debug, PartialEq, Eq)]
pub enum Replayed {
    /// The certificate shows what it states. It has so many flips, over all lists. For a sphere and
    /// an equivalence `facets` is how many facets the end has, for a manifold how many lists there
    /// are.
    Valid { flips: u64, facets: u64 },
    /// The flip with this number, counted from 1 over all lists, is the first illegal one, and this
    /// is the first rule that it breaks.
    Bad { number: u64, fault: Illegal },
    /// The flips are legal in order, and the end isn't the one that is stated; or the lists of a
    /// manifold aren't those of exactly the vertices, rising.
    WrongEnd,
}

// The flips end in the boundary of a simplex.
fn replay_sphere(alloc: Global, complex: &Complex, flips: &[Flip]) -> Result<Replayed, AllocError>
    ensures { IfOk result (IsListAnswer IsBoundary complex.now flips.now) }
{
    let end = match replay_flips(alloc, complex, flips)? {
        Outcome::End(end) => end,
        Outcome::Bad(number, fault) => return Ok(Replayed::Bad { number, fault }),
    };
    if is_simplex_boundary(&end) {
        Ok(valid(flips, &end))
    } else {
        Ok(Replayed::WrongEnd)
    }
}

// The flips end in a complex that the map takes to the target.
fn replay_equal(
    alloc: Global,
    complex: &Complex,
    flips: &[Flip],
    map: &VertexMap,
    target: &Complex,
) -> Result<Replayed, AllocError>
    ensures { IfOk result (IsListAnswer (IsTakenTo map.now target.now) complex.now flips.now) }
{
    let end = match replay_flips(alloc, complex, flips)? {
        Outcome::End(end) => end,
        Outcome::Bad(number, fault) => return Ok(Replayed::Bad { number, fault }),
    };
    if is_taken(&end, map, target)? {
        Ok(valid(flips, &end))
    } else {
        Ok(Replayed::WrongEnd)
    }
}

// The flips end as stated.
fn valid(flips: &[Flip], end: &Complex) -> Replayed
    ensures { result ≡ Valid (length flips.now) (length end.now.facets) }
{
    Replayed::Valid {
        flips: flips.len() as u64,
        facets: end.facets().len() as u64,
    }
}

// Whether the map has a pair for each used label, and takes the complex to the target.
fn is_taken(complex: &Complex, map: &VertexMap, target: &Complex) -> Result<bool, AllocError>
    ensures { IfOk result (λ t. IsTrue t ↔ IsTakenTo map.now target.now complex.now) }
{
    match complex.relabel(map)? {
        Some(image) => Ok(is_same(&image, target)),
        None => Ok(false),
    }
}

// Whether two complexes have the same dimension and facets.
fn is_same(first: &Complex, second: &Complex) -> bool
    ensures { IsTrue result ↔ (first.now ≡ second.now) }
{
    first.dim() == second.dim() && first.facets() == second.facets()
}

// Each vertex has a list, and its flips end, from the link of the vertex, in the boundary of a simplex.
fn replay_manifold(
    alloc: Global,
    complex: &Complex,
    lists: &[(u16, Vec<Flip>)],
) -> Result<Replayed, AllocError>
    requires { 1 ≤ complex.now.dim }
    ensures { IfOk result (IsListsAnswer complex.now (map of_vertex lists.now)) }
{
    if names_vertices(complex, lists)? {
        replay_lists(alloc, complex, lists)
    } else {
        Ok(Replayed::WrongEnd)
    }
}

// Whether the lists are those of exactly the used labels, rising.
fn names_vertices(complex: &Complex, lists: &[(u16, Vec<Flip>)]) -> Result<bool, AllocError>
    ensures { IfOk result (λ t. IsTrue t ↔ NamesVertices complex.now (map of_vertex lists.now)) }
{
    let labels = complex.labels()?;
    if labels.len() != lists.len() {
        return Ok(false);
    }
    for (position, list) in lists.iter().enumerate() {
        if list.0 != labels[position] {
            return Ok(false);
        }
    }
    Ok(true)
}

// Judges one list after another, where they are those of the vertices.
fn replay_lists(
    alloc: Global,
    complex: &Complex,
    lists: &[(u16, Vec<Flip>)],
) -> Result<Replayed, AllocError>
    requires links { 1 ≤ complex.now.dim }
    requires vertices { NamesVertices complex.now (map of_vertex lists.now) }
    ensures { IfOk result (IsListsAnswer complex.now (map of_vertex lists.now)) }
{
    let mut flips = 0;
    for list in lists {
        let link = link_of(complex, list.0)?;
        match replay_sphere(alloc, &link, &list.1)? {
            Replayed::Valid { flips: more, .. } => flips = sum(flips, more)?,
            Replayed::Bad { number, fault } => {
                let number = sum(flips, number)?;
                return Ok(Replayed::Bad { number, fault });
            }
            Replayed::WrongEnd => return Ok(Replayed::WrongEnd),
        }
    }
    Ok(Replayed::Valid {
        flips,
        facets: lists.len() as u64,
    })
}

// The link of a vertex.
fn link_of(complex: &Complex, vertex: u16) -> Result<Complex, AllocError>
    requires links { 1 ≤ complex.now.dim }
    requires used { has (used complex.now.facets) vertex ≡ true }
    ensures { IfOk result (λ k. k ≡ link_at complex.now vertex) }
{
    // Labels are from 1: `facets` says so.
    let _ = complex.facets();
    let Some(face) = Face::new().with(vertex) else {
        unreachable!();
    };
    match complex.link(&face)? {
        Some(link) => Ok(link),
        None => unreachable!(),
    }
}

// The sum of two numbers of flips. More than the type holds are in no memory.
fn sum(first: u64, second: u64) -> Result<u64, AllocError>
    ensures { IfOk result (λ n. n ≡ first + second) }
{
    first.checked_add(second).ok_or(AllocError)
}

/// Replays the flips of a certificate from a complex, and judges what they show of it. A
/// certificate of a manifold needs a complex of dimension at least 1, whose vertices have links.
///
/// `Valid` is answered exactly where the certificate shows what it states, `Bad` at the first
/// illegal flip. Where all flips are legal and the end isn't the one that is stated, it is
/// `WrongEnd`. A certificate of a manifold is `WrongEnd` too where its lists aren't those of exactly
/// the used labels, rising; else the first list that fails decides.
///
/// A flip costs a look-up by order for each facet that it takes out or puts in, and a pass over the
/// facets of one label of A and of one of B.
pub fn replay(
    alloc: Global,
    complex: &Complex,
    certificate: &Certificate,
) -> Result<Replayed, AllocError>
    requires { HasLinks complex.now (statement certificate.now) }
    ensures answer { IfOk result (IsAnswer complex.now (statement certificate.now)) }

    // Valid is exactly that the certificate shows what it states.
    ensures valid { IfOk result (λ r. IsValid r ↔ Certifies complex.now (statement certificate.now)) }
{
    match certificate {
        Certificate::Sphere(flips) => replay_sphere(alloc, complex, flips),
        Certificate::Equal { target, flips, map } => {
            replay_equal(alloc, complex, flips, map, target)
        }
        Certificate::Manifold(lists) => replay_manifold(alloc, complex, lists),
    }
}
