//! The parts of certificates: their flips, maps and vertices.

ghost use Rattle.std.specs.Prelude.{◌≡◌, ◌≤◌, ◌<◌, [], List, map, IfOk, length};
ghost use Rattle.complex_core.specs.Maps.{ArePositive, Differ, pair_cmp};
ghost use Rattle.complex_core.specs.Rising.{rising};
ghost use Rattle.facet_text.specs.Lines.{items};
ghost use Rattle.cert_text.specs.Statements as statements;
ghost use Rattle.cert_text.specs.Statements.{of_vertex};
ghost use Rattle.cert_text.specs.Readings.{Reads, so_many};
ghost use Rattle.cert_text.specs.Lines.{flip_line, pair_line};
ghost use Rattle.cert_text.specs.Grammar.{flips_at, map_at, vertex_part, vertices_at};

use crate::fault::CertFault;
use crate::line::{
    no_more_numbers, no_more_vertices, read_flip_line, read_pair_line, read_stated,
    read_vertex_line,
};
use complex_core::{MapFault, VertexMap};
use flip_rules::Flip;
use std::alloc::{AllocError, Global};
use std::collections::BTreeSet;

/// The flips of a vertex.
type OfVertex = (u16, Vec<Flip>);

/// So many lines, one flip each.
#[tactic(auto, using(crate::proofs::Parts::one_more, crate::proofs::Parts::stops, crate::proofs::Parts::all_read))]
fn read_flip_lines(
    alloc: Global,
    bytes: &[u8],
    from: usize,
    count: u32,
) -> Result<(Vec<Flip>, usize), CertFault>
    requires { from ≤ length bytes.now }
    ensures read { Reads bytes.now (λ v. v.items) result (so_many flip_line count [] (items bytes.now from)) }
    ensures offset { IfOk result (λ x. (from ≤ x.1) × (x.1 ≤ length bytes.now)) }
{
    let mut flips = Vec::new(alloc);
    let mut offset = from;
    'lines: for _ in 0..count {
        let (flip, after) = read_flip_line(bytes, offset)?;
        flips.push(flip)?;
        offset = after;
    }
    Ok((flips, offset))
}

/// The number of flips, and the flips.
#[tactic(auto, using(crate::proofs::Parts::fails_first, crate::proofs::Parts::fails_after, crate::proofs::Parts::first_read), unfolding(crate::specs::Grammar::flips_at))]
pub(crate) fn read_flips(
    alloc: Global,
    bytes: &[u8],
    from: usize,
) -> Result<(Vec<Flip>, usize), CertFault>
    requires { from ≤ length bytes.now }
    ensures read { Reads bytes.now (λ v. v.items) result (flips_at (items bytes.now from)) }
    ensures offset { IfOk result (λ x. (from < x.1) × (x.1 ≤ length bytes.now)) }
{
    let (count, offset) = read_stated(bytes, from, b"flips")?;
    let (flips, offset) = read_flip_lines(alloc, bytes, offset, count)?;
    no_more_numbers(bytes, offset)?;
    Ok((flips, offset))
}

/// So many lines, one pair each.
#[tactic(auto, using(crate::proofs::Parts::one_more, crate::proofs::Parts::stops, crate::proofs::Parts::all_read))]
fn read_pair_lines(
    alloc: Global,
    bytes: &[u8],
    from: usize,
    count: u32,
) -> Result<(Vec<(u16, u16)>, usize), CertFault>
    requires { from ≤ length bytes.now }
    ensures read { Reads bytes.now (λ v. v.items) result (so_many pair_line count [] (items bytes.now from)) }
    ensures positive { IfOk result (λ x. ArePositive x.0.items) }
    ensures differ { IfOk result (λ x. Differ x.0.items) }
    ensures offset { IfOk result (λ x. (from ≤ x.1) × (x.1 ≤ length bytes.now)) }
{
    let mut pairs = Vec::new(alloc);
    let mut firsts = BTreeSet::new(alloc);
    let mut seconds = BTreeSet::new(alloc);
    let mut offset = from;
    'lines: for _ in 0..count {
        let (pair, after) = read_pair_line(bytes, offset, &mut firsts, &mut seconds)?;
        pairs.push(pair)?;
        offset = after;
    }
    Ok((pairs, offset))
}

/// The map of pairs that share no numbers.
fn map_of(alloc: Global, pairs: &[(u16, u16)]) -> Result<VertexMap, AllocError>
    requires positive { ArePositive pairs.now }
    requires differ { Differ pairs.now }
    ensures { IfOk result (λ m. m ≡ rising pair_cmp pairs.now) }
{
    match VertexMap::from_pairs(alloc, pairs) {
        Ok(map) => Ok(map),
        Err(MapFault::Memory) => Err(AllocError),
        Err(MapFault::Twice(_)) => unreachable!(),
    }
}

/// The number of pairs, and their map.
#[tactic(auto, using(crate::proofs::Parts::fails_first, crate::proofs::Parts::fails_after, crate::proofs::Parts::first_read), unfolding(crate::specs::Grammar::map_at))]
pub(crate) fn read_map(
    alloc: Global,
    bytes: &[u8],
    from: usize,
) -> Result<(VertexMap, usize), CertFault>
    requires { from ≤ length bytes.now }
    ensures read { Reads bytes.now (λ m. m) result (map_at (items bytes.now from)) }
    ensures offset { IfOk result (λ x. (from < x.1) × (x.1 ≤ length bytes.now)) }
{
    let (count, offset) = read_stated(bytes, from, b"map")?;
    let (pairs, offset) = read_pair_lines(alloc, bytes, offset, count)?;
    no_more_numbers(bytes, offset)?;
    let map = map_of(alloc, &pairs)?;
    Ok((map, offset))
}

/// A vertex, and its flips.
#[tactic(auto, using(crate::proofs::Parts::fails_first, crate::proofs::Parts::fails_after, crate::proofs::Parts::first_read), unfolding(crate::specs::Grammar::vertex_part))]
fn read_vertex(alloc: Global, bytes: &[u8], from: usize) -> Result<(OfVertex, usize), CertFault>
    requires { from ≤ length bytes.now }
    ensures read { (before : List statements.OfVertex) → Reads bytes.now of_vertex result (vertex_part before (items bytes.now from)) }
    ensures offset { IfOk result (λ x. (from < x.1) × (x.1 ≤ length bytes.now)) }
{
    let (vertex, offset) = read_vertex_line(bytes, from)?;
    let (flips, offset) = read_flips(alloc, bytes, offset)?;
    Ok(((vertex, flips), offset))
}

/// So many vertices, each with its flips.
#[tactic(auto, using(crate::proofs::Parts::one_more, crate::proofs::Parts::stops, crate::proofs::Parts::all_read))]
fn read_vertex_parts(
    alloc: Global,
    bytes: &[u8],
    from: usize,
    count: u32,
) -> Result<(Vec<OfVertex>, usize), CertFault>
    requires { from ≤ length bytes.now }
    ensures read { Reads bytes.now (λ v. map of_vertex v.items) result (so_many vertex_part count [] (items bytes.now from)) }
    ensures offset { IfOk result (λ x. (from ≤ x.1) × (x.1 ≤ length bytes.now)) }
{
    let mut vertices = Vec::new(alloc);
    let mut offset = from;
    'vertices: for _ in 0..count {
        let (vertex, after) = read_vertex(alloc, bytes, offset)?;
        vertices.push(vertex)?;
        offset = after;
    }
    Ok((vertices, offset))
}

/// The number of vertices, and the vertices.
#[tactic(auto, using(crate::proofs::Parts::fails_first, crate::proofs::Parts::fails_after, crate::proofs::Parts::first_read), unfolding(crate::specs::Grammar::vertices_at))]
pub(crate) fn read_vertices(
    alloc: Global,
    bytes: &[u8],
    from: usize,
) -> Result<(Vec<OfVertex>, usize), CertFault>
    requires { from ≤ length bytes.now }
    ensures read { Reads bytes.now (λ v. map of_vertex v.items) result (vertices_at (items bytes.now from)) }
    ensures offset { IfOk result (λ x. (from < x.1) × (x.1 ≤ length bytes.now)) }
{
    let (count, offset) = read_stated(bytes, from, b"vertices")?;
    let (vertices, offset) = read_vertex_parts(alloc, bytes, offset, count)?;
    no_more_vertices(bytes, offset)?;
    Ok((vertices, offset))
}
