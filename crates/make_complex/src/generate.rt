//! The generator: a named complex, and draws on it.

ghost use Rattle.std.specs.Prelude.{◌≡◌, ◌≤◌, ◌↔◌, IsTrue, true, IfOk, length};
ghost use Rattle.complex_core.specs.Maps.{used};
ghost use Rattle.stars.specs.StarViews.{UsesUpTo};
ghost use Rattle.pseudo_test.specs.Ridges.{Closed};
ghost use Rattle.pseudo_test.specs.Chains.{StronglyConnected};
ghost use Rattle.face_counts.specs.Eulers.{euler};
ghost use Rattle.orient_test.specs.Signs.{Orientable};
ghost use Rattle.make_complex.specs.Kinds.{is_surface};
ghost use Rattle.make_complex.specs.Draws.{made_complex};
ghost use Rattle.make_complex.specs.Named.{named_euler, is_orientable};

use crate::Kind;
use crate::draws::{MOST_LABELS, draw};
use crate::named::named;
use crate::words::draw_words;
use complex_core::Complex;
use rand_pcg::Lcg64Xsh32;
use stars::StarMap;
use std::alloc::{AllocError, Global};

/// Makes a complex: the named one of a kind and a dimension, and so many draws on it, whose words are
/// those of PCG XSH RR 64/32 (O'Neill, 2014), started with the seed on the stream 0.
pub fn make(
    alloc: Global,
    kind: Kind,
    dim: u32,
    draws: u32,
    seed: u32,
) -> Result<Complex, AllocError>
    requires low { 1 ≤ dim }
    requires high { dim ≤ 6 }
    requires surface { is_surface kind ≡ true → dim ≡ 2 }
    requires draws { draws ≤ 100000 }
    ensures made { IfOk result (λ k. k ≡ made_complex kind dim draws seed) }
    ensures facets { IfOk result (λ k. length k.facets ≤ 20000) }
    ensures labels { IfOk result (λ k. length (used k.facets) ≤ 4096) }
    ensures greatest { IfOk result (λ k. UsesUpTo k 4096) }
    ensures dim { IfOk result (λ k. k.dim ≡ dim) }
    ensures closed { IfOk result (λ k. Closed k.facets) }
    ensures strong { IfOk result (λ k. StronglyConnected k.facets) }
    ensures euler { IfOk result (λ k. euler k.facets ≡ named_euler kind dim) }
    ensures orientable { IfOk result (λ k. Orientable k.facets ↔ IsTrue (is_orientable kind)) }
{
    let mut complex = named(alloc, kind, dim)?;
    let mut stars = StarMap::of(alloc, &complex, MOST_LABELS)?;
    let mut words = Lcg64Xsh32::new(u64::from(seed), 0);
    for _ in 0..draws {
        let drawn = draw_words(&mut words);
        draw(alloc, &mut complex, &mut stars, drawn)?;
    }
    Ok(complex)
}
