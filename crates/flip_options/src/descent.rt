// The descent: the best flip, again and again.
ghost use Rattle.std.specs.Prelude.{◌≡◌, IfOk, OnOk};
ghost use Rattle.complex_core.specs.Maps.{greatest};
ghost use Rattle.complex_core.specs.Complexes.{ComplexView};
ghost use Rattle.flip_rules.specs.Boundaries.{IsBoundary};
ghost use Rattle.flip_rules.specs.Flips.{flipped};
ghost use Rattle.stars.specs.StarViews.{UsesUpTo};
ghost use Rattle.descent_laws.specs.Descents.{IsReducing, IsDescent};
ghost use Rattle.descent_laws.specs.Laws.{Descends, IsCycle};
ghost use Rattle.flip_options.specs.DescentViews.{AreHeld};

use crate::options::Options;
use complex_core::Complex;
use flip_rules::Flip;
use stars::StarMap;
use std::alloc::{AllocError, Global};

// The last of rising labels, or 0.
fn last_label(labels: &[u16]) -> u16
    ensures { result ≡ greatest labels.now }
{
    labels.last().copied().unwrap_or(0)
}

// The greatest label that is used.
fn greatest_label(complex: &Complex) -> Result<u16, AllocError>
    ensures { IfOk result (UsesUpTo complex.now) }
{
    let labels = complex.labels()?;
    Ok(last_label(&labels))
}

// Makes a flip of an index above d/2 on the stars, and brings the options up to date.
fn make(stars: &mut StarMap, options: &mut Options, flip: &Flip) -> Result<(), AllocError>
    requires { (k : ComplexView) × AreHeld k stars.old options.old × IsReducing k flip.now }
    ensures { (k : ComplexView) → AreHeld k stars.old options.old → IsReducing k flip.now →
        OnOk result (AreHeld (flipped k flip.now.a flip.now.b) stars.new options.new) }
{
    match stars.flip(flip) {
        Ok(()) => options.after(stars, flip),
        Err(_) => Err(AllocError),
    }
}

/// Makes the best flip of an index above d/2, again and again, until there is none. It gives the flips,
/// and the complex after them.
///
/// A flip costs the faces that it changes, and not the size of the complex.
pub fn descend(alloc: Global, complex: &Complex) -> Result<(Vec<Flip>, Complex), AllocError>
    ensures descent { IfOk result (λ r. IsDescent complex.now r.0.items r.1) }

    // The flips replay to that complex, on which no legal flip has an index above d/2.
    ensures shows { IfOk result (λ r. Descends complex.now r.0.items r.1) }

    // In dimension 1 a closed and strongly connected complex ends as the boundary of a simplex.
    ensures cycle { IsCycle complex.now → IfOk result (λ r. IsBoundary r.1) }
{
    let places = greatest_label(complex)?;
    let mut stars = StarMap::of(alloc, complex, places)?;
    let mut options = Options::of(alloc, &stars)?;
    let mut flips = Vec::new(alloc);
    while let Some(flip) = options.best() {
        make(&mut stars, &mut options, &flip)?;
        flips.push(flip)?;
    }
    let end = stars.complex(alloc)?;
    Ok((flips, end))
}
