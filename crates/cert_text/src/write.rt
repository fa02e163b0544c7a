//! The writer of certificates.

ghost use Rattle.std.specs.Prelude.{◌≡◌, ◌∷◌, ◌++◌, ◌+◌, [], ℕ, List, Ok, OnErr, OnOk, codes, length, map};
ghost use Rattle.std.specs.List.{flat_map};
ghost use Rattle.facet_text.specs.Writing as facet;
ghost use Rattle.facet_text.specs.Writing.{OnlyAdds};
ghost use Rattle.cert_text.specs.Statements as statements;
ghost use Rattle.cert_text.specs.Statements.{statement, of_vertex};
ghost use Rattle.cert_text.specs.Grammar.{certificate_at};
ghost use Rattle.cert_text.specs.Writing.{KeepsLimits, flip_line_text, flips_text, header_text, map_text, number_line, pair_text, text_of, vertex_text, vertices_text};

use crate::certificate::Certificate;
use complex_core::{Complex, VertexMap};
use facet_text::write_complex;
use flip_rules::Flip;
use line_text::{write_flip, write_number};
use std::alloc::AllocError;

/// Appends the one text of a certificate: single spaces, rising labels, the pairs of a map rising,
/// and a line feed after each line. After want of memory `out` is as it was.
pub fn write_certificate(certificate: &Certificate, out: &mut Vec<u8>) -> Result<(), AllocError>
    ensures ok { OnOk result (out.new.items ≡ out.old.items ++ text_of (statement certificate.now)) }
    ensures err { OnErr result (out.new.items ≡ out.old.items) }
{
    let before = out.len();
    let result = put_certificate(certificate, out);
    if result.is_err() {
        out.truncate(before);
    }
    result
}

/// A certificate within the limits is read again from its whole text, whatever bytes stand before
/// it.
pub fn written_certificate_is_read()
    ensures { (before : List ℕ) (c : statements.Statement) → KeepsLimits c →
        certificate_at (before ++ text_of c) (length before) ≡ Ok c }
{}

#[tactic(auto, unfolding(crate::specs::Writing::text_of))]
fn put_certificate(certificate: &Certificate, out: &mut Vec<u8>) -> Result<(), AllocError>
    ensures ok { OnOk result (out.new.items ≡ out.old.items ++ text_of (statement certificate.now)) }
    ensures err { OnErr result (OnlyAdds out.old.items out.new.items) }
{
    match certificate {
        Certificate::Sphere(flips) => {
            put_header(b"sphere", out)?;
            put_flips(flips, out)
        }
        Certificate::Equal { target, flips, map } => {
            put_header(b"equal", out)?;
            put_target(target, out)?;
            put_flips(flips, out)?;
            write_map(map, out)
        }
        Certificate::Manifold(vertices) => {
            put_header(b"manifold", out)?;
            put_vertices(vertices, out)
        }
    }
}

/// Adds the first line.
fn put_header(kind: &[u8], out: &mut Vec<u8>) -> Result<(), AllocError>
    ensures ok { OnOk result (out.new.items ≡ out.old.items ++ header_text kind.now) }
    ensures err { OnErr result (OnlyAdds out.old.items out.new.items) }
{
    out.extend_from_slice(b"bistellar 1 ")?;
    out.extend_from_slice(kind)?;
    out.push(b'\n')?;
    Ok(())
}

/// Adds a line of a word and a number.
fn put_number(name: &[u8], number: usize, out: &mut Vec<u8>) -> Result<(), AllocError>
    ensures ok { OnOk result (out.new.items ≡ out.old.items ++ number_line name.now number) }
    ensures err { OnErr result (OnlyAdds out.old.items out.new.items) }
{
    out.extend_from_slice(name)?;
    out.push(b' ')?;
    write_number(number, out)?;
    out.push(b'\n')?;
    Ok(())
}

/// Adds the line of a complex.
fn put_target(target: &Complex, out: &mut Vec<u8>) -> Result<(), AllocError>
    ensures ok { OnOk result (out.new.items ≡ out.old.items ++ (facet.text_of target.now.facets ++ 10 ∷ [])) }
    ensures err { OnErr result (OnlyAdds out.old.items out.new.items) }
{
    write_complex(target, out)?;
    out.push(b'\n')?;
    Ok(())
}

/// Adds the line of a flip.
fn put_flip(flip: &Flip, out: &mut Vec<u8>) -> Result<(), AllocError>
    ensures ok { OnOk result (out.new.items ≡ out.old.items ++ flip_line_text flip.now) }
    ensures err { OnErr result (OnlyAdds out.old.items out.new.items) }
{
    write_flip(flip, out)?;
    out.push(b'\n')?;
    Ok(())
}

/// Adds the number of flips, and their lines.
#[tactic(auto, unfolding(crate::specs::Writing::flips_text))]
fn put_flips(flips: &[Flip], out: &mut Vec<u8>) -> Result<(), AllocError>
    ensures ok { OnOk result (out.new.items ≡ out.old.items ++ flips_text flips.now) }
    ensures err { OnErr result (OnlyAdds out.old.items out.new.items) }
{
    put_number(b"flips", flips.len(), out)?;
    for flip in flips {
        put_flip(flip, out)?;
    }
    Ok(())
}

/// Adds the line of a pair.
fn put_pair(first: u16, second: u16, out: &mut Vec<u8>) -> Result<(), AllocError>
    ensures ok { OnOk result (out.new.items ≡ out.old.items ++ pair_text (first, second)) }
    ensures err { OnErr result (OnlyAdds out.old.items out.new.items) }
{
    write_number(usize::from(first), out)?;
    out.push(b' ')?;
    write_number(usize::from(second), out)?;
    out.push(b'\n')?;
    Ok(())
}

/// Appends the lines of a map: the number of its pairs, and a line for each pair. After want of memory
/// `out` begins with what it was.
#[tactic(auto, unfolding(crate::specs::Writing::map_text))]
pub fn write_map(map: &VertexMap, out: &mut Vec<u8>) -> Result<(), AllocError>
    ensures ok { OnOk result (out.new.items ≡ out.old.items ++ map_text map.now) }
    ensures err { OnErr result (OnlyAdds out.old.items out.new.items) }
{
    let pairs = map.pairs();
    put_number(b"map", pairs.len(), out)?;
    for pair in pairs {
        put_pair(pair.0, pair.1, out)?;
    }
    Ok(())
}

/// Adds a vertex, and its flips.
#[tactic(auto, unfolding(crate::specs::Writing::vertex_text))]
fn put_vertex(vertex: u16, flips: &[Flip], out: &mut Vec<u8>) -> Result<(), AllocError>
    ensures ok { OnOk result (out.new.items ≡ out.old.items ++ vertex_text (vertex, flips.now)) }
    ensures err { OnErr result (OnlyAdds out.old.items out.new.items) }
{
    put_number(b"vertex", usize::from(vertex), out)?;
    put_flips(flips, out)
}

/// Adds the number of vertices, and each with its flips.
#[tactic(auto, unfolding(crate::specs::Writing::vertices_text))]
fn put_vertices(vertices: &[(u16, Vec<Flip>)], out: &mut Vec<u8>) -> Result<(), AllocError>
    ensures ok { OnOk result (out.new.items ≡ out.old.items ++ vertices_text (map of_vertex vertices.now)) }
    ensures err { OnErr result (OnlyAdds out.old.items out.new.items) }
{
    put_number(b"vertices", vertices.len(), out)?;
    for vertex in vertices {
        put_vertex(vertex.0, &vertex.1, out)?;
    }
    Ok(())
}
