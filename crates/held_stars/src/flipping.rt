//! Flips on the stars that are lent.

ghost use Rattle.std.specs.Prelude.{◌≡◌, ◌<◌, ◌++◌, ◌∷◌, [], OnOk, OnErr, IfErr, Ok, Err, length};
ghost use Rattle.std.specs.List.{AllByRecursion};
ghost use Rattle.complex_core.specs.Complexes.{ComplexView};
ghost use Rattle.flip_rules.specs.Flips.{broken_rule, flipped, FlipRefused};
ghost use Rattle.flip_rules.specs.declared.flip.Illegal.{Illegal};
ghost use Rattle.stars.specs.StarViews.{shown, HasLabels};
ghost use Rattle.vertex_claims.specs.declared.pass.Pass.{Pass};
ghost use Rattle.held_stars.specs.Holding.{FitsRoom, Made, Restorable, Roomy};

use crate::hold::Hold;
use flip_rules::{Flip, FlipFault};
use stars::{Star, flip_here};

// Each star has room for the facets that it has, as all stars have.
fn know_rooms(near: &[Star])
    ensures { AllByRecursion FitsRoom near.now }
{
    for star in near {
        let _room = star.room();
    }
}

/// Makes a flip whose labels are all held, on their stars, which are lent.
///
/// # Errors
/// `Illegal` where the flip isn't legal, and `Memory` where it is legal and there isn't enough of it.
/// Then the stars are as before.
pub fn make_flip(hold: &mut Hold, flip: &Flip) -> Result<(), FlipFault>
    requires made { (pass : Pass) × (now : ComplexView) × Made pass hold.old now }
    requires labels { HasLabels (shown hold.old.lent.items) flip.now }
    requires room { Roomy hold.old × (length hold.old.flips.items < 4) }
    ensures legal { (pass : Pass) (now : ComplexView) → Made pass hold.old now → OnOk result (broken_rule now flip.now.a flip.now.b ≡ Ok tt) }
    ensures made { (pass : Pass) (now : ComplexView) → Made pass hold.old now → OnOk result (Made pass hold.new (flipped now flip.now.a flip.now.b)) }
    ensures broken_rule { (pass : Pass) (now : ComplexView) → Made pass hold.old now → IfErr result (FlipRefused (broken_rule now flip.now.a flip.now.b)) }
    ensures told { (pass : Pass) (now : ComplexView) (e : Illegal) → Made pass hold.old now → broken_rule now flip.now.a flip.now.b ≡ Err e → result ≡ Err (FlipFault.Illegal e) }
    ensures restorable { (pass : Pass) (now : ComplexView) → Made pass hold.old now → OnErr result (Restorable pass hold.new) }
    ensures flips { (OnOk result (hold.new.flips.items ≡ hold.old.flips.items ++ flip.now ∷ [])) × (OnErr result (hold.new.flips.items ≡ hold.old.flips.items)) }
    ensures lent { length hold.new.lent.items ≡ length hold.old.lent.items }
    ensures room { Roomy hold.new }
{
    match flip_here(&mut hold.lent, flip) {
        Ok(()) => {
            know_rooms(&hold.lent);
            hold.flips.push_reserved(*flip);
            Ok(())
        }
        Err(fault) => Err(fault),
    }
}
