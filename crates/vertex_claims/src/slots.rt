// Lays the stars of a complex on a board, and takes them off.
ghost use Rattle.std.specs.Prelude.{◌≡◌, ◌+◌, ◌<◌, ◌≤◌, ◌∷◌, [], ℕ, List, IfOk, length, map, vec_capacity};
ghost use Rattle.std.specs.Slots.{slots_items, slots_len, IsFull};
ghost use mathlib.Core.Option.{some};
ghost use lib.ListN.{get_elem?};
ghost use Rattle.complex_core.specs.Complexes.{ComplexView};
ghost use Rattle.flip_rules.specs.Entries.{JournalEntry};
ghost use Rattle.stars.specs.StarViews.{shown};
ghost use Rattle.stars.specs.Building.{stars_of};
ghost use Rattle.board_rule.specs.Books.{Book};
ghost use Rattle.board_rule.specs.Views.{home};
ghost use Rattle.board_rule.specs.Homes.{VersionedStar};
ghost use Rattle.vertex_claims.specs.Laid.{HomesOf};

use atomic_table::Closed;
use board_rule::{OpenJournal, Slot, VersionedStar};
use stars::Star;
use std::alloc::{AllocError, Global};

// The slots of a board with these stars: an empty journal, and each star with version 0.
pub(crate) fn homes(alloc: Global, stars: Vec<Star>) -> Result<Vec<Slot>, AllocError>
    ensures { IfOk result (λ v. (b : Book) × (b.entries ≡ []) × (v.items ≡ Slot.Journal b ∷ map (λ s. Slot.Home (home s 0)) (shown stars.items))) }
{
    let mut slots = Vec::new(alloc);
    slots.push(Slot::Journal(OpenJournal::new(alloc)))?;
    for star in stars {
        slots.push(Slot::Home(VersionedStar::new(star, 0)))?;
    }
    Ok(slots)
}

// Takes the journal and the stars out of the slots of a board on which nothing is held.
pub(crate) fn unpack(
    mut closed: Closed<Slot, Global>,
    places: usize,
    mut stars: Vec<Star>,
) -> (OpenJournal, Vec<Star>)
    requires full { IsFull closed.words × IsFull closed.slots × (slots_len closed.slots ≡ places + 1) }
    requires journal { (b : Book) × (get_elem? (slots_items closed.slots) 0 ≡ some (Slot.Journal b)) }
    requires stars { (p : ℕ) → 0 < p → p ≤ places → (x : VersionedStar) × (get_elem? (slots_items closed.slots) p ≡ some (Slot.Home x)) }
    requires room { (stars.items ≡ []) × (places ≤ vec_capacity stars) }
    ensures journal { get_elem? (slots_items closed.slots) 0 ≡ some (Slot.Journal result.0) }
    ensures stars { (k : ComplexView) (entries : List JournalEntry) → HomesOf (slots_items closed.slots) places k entries → shown result.1.items ≡ stars_of k.dim k.facets 0 places }
{
    let Slot::Journal(journal) = closed.take(0) else {
        unreachable!()
    };
    for p in 0..places {
        let Slot::Home(home) = closed.take(p + 1) else {
            unreachable!()
        };
        let (star, _version) = home.into_parts();
        stars.push_reserved(star);
    }
    closed.free();
    (journal, stars)
}
