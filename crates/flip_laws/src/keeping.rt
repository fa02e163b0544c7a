// A flip that is made, with all that it keeps.
ghost use Rattle.std.specs.Prelude.{◌≡◌, Ok, Err, OnOk, OnErr, IfErr};
ghost use Rattle.flip_rules.specs.Flips.{broken_rule, flipped, FlipRefused, OfFaces};
ghost use Rattle.flip_laws.specs.Keeping.{Keeps, ReplayKeeps};

use complex_core::Complex;
use flip_rules::{Flip, FlipFault, Illegal, apply};

/// Makes a flip on a complex, or leaves the complex as it is: exactly where the flip breaks a rule,
/// or for want of memory.
///
/// The complex after the flip has the same dimension, Euler characteristic and ridges in one facet
/// as before. It is closed, thin, strongly connected or orientable exactly where it was so before.
pub fn flip_keeping(complex: &mut Complex, flip: &Flip) -> Result<(), FlipFault>
    ensures legal { OnOk result (broken_rule complex.old flip.now.a flip.now.b ≡ Ok tt) }
    ensures ok { OnOk result (complex.new ≡ flipped complex.old flip.now.a flip.now.b) }
    ensures kept { OnOk result (Keeps complex.old complex.new) }
    ensures err { OnErr result (complex.new ≡ complex.old) }
    ensures broken_rule { IfErr result (FlipRefused (broken_rule complex.old flip.now.a flip.now.b)) }

    // A flip that breaks a rule is always told which, also where memory is short.
    ensures told { (e : Illegal) → broken_rule complex.old flip.now.a flip.now.b ≡ Err e →
        result ≡ Err (FlipFault.Illegal e) }

    ensures faces { OfFaces flip.now }
{
    let _facets = complex.facets();
    match apply(complex, flip) {
        Ok(()) => Ok(()),
        Err(fault) => Err(fault),
    }
}

/// Flips one after another keep what one flip keeps.
pub fn keeping_law()
    ensures replay { ReplayKeeps }
{}
