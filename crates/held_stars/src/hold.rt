//! What a worker keeps in a try.

ghost use Rattle.std.specs.Prelude.{◌≡◌, ◌<◌, [], IfOk};
ghost use mathlib.Core.Option.{some};
ghost use Rattle.stars.specs.StarViews.{VertexStar};
ghost use Rattle.board_rule.specs.Views.{home};
ghost use Rattle.board_rule.specs.Homes.{VersionedStar};
ghost use Rattle.vertex_claims.specs.Passes.{IsOf, IsSame, know, slot, Puts};
ghost use Rattle.held_stars.specs.Holding.{Lends, Roomy};

use crate::lending::lend;
use board_rule::Slot;
use flip_rules::Flip;
use stars::Star;
use std::alloc::{AllocError, Global};
use vertex_claims::{Board, Pass};

/// What a worker keeps in a try, in memory that is taken once for all of its tries.
///
/// A flip has at most 8 labels, and a try at most 4 flips, so it holds at most 33 places.
#[derive(Drop)]
pub struct Hold {
    /// The flips that it made, in order.
    pub flips: Vec<Flip>,
    /// The stars of the places that it holds, rising in their vertices. They lie in no slot until the
    /// try ends, so that flips are made on them where they are, and no star loses room.
    pub lent: Vec<Star>,
}

impl Hold {
    /// Nothing, with room for a try.
    ///
    /// # Errors
    /// `AllocError` where there isn't enough memory.
    pub fn new(alloc: Global) -> Result<Hold, AllocError>
        ensures room { IfOk result Roomy }
        ensures none { IfOk result (λ h. (h.flips.items ≡ []) × (h.lent.items ≡ [])) }
    {
        Ok(Hold {
            flips: Vec::with_capacity(alloc, 4)?,
            lent: Vec::with_capacity(alloc, 33)?,
        })
    }

    /// Nothing is kept but the star of the place of a first claim, which is lent. It takes no memory.
    pub fn begin(&mut self, board: &Board, pass: &mut Pass, place: u16)
        requires room { Roomy self.old }
        requires board { IsOf pass.old board.now }
        requires place { 0 < place }
        requires star { (x : VersionedStar) × (slot pass.old place ≡ some (Slot.Home x)) × (x.star.vertex ≡ place) }
        ensures room { Roomy self.new }
        ensures flips { self.new.flips.items ≡ [] }
        ensures same { IsSame pass.old pass.new }
        ensures known { know pass.new ≡ know pass.old }
        ensures lent { (x : VersionedStar) → slot pass.old place ≡ some (Slot.Home x) → Lends [] self.new.lent.items x.star }
        ensures slots { (x : VersionedStar) → slot pass.old place ≡ some (Slot.Home x) → (s : VertexStar) × Puts pass.old pass.new place (some (Slot.Home (home s x.version))) }
    {
        self.flips.clear();
        self.lent.clear();
        lend(board, pass, &mut self.lent, place);
    }
}
