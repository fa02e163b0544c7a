// Lists of flips: those of entries, and those that lead back.
ghost use Rattle.std.specs.Prelude.{◌≡◌, IfOk};
ghost use Rattle.flip_rules.specs.Journals.{flat, mine};
ghost use Rattle.flip_rules.specs.Laws.{inverse_list};

use flip_rules::{Entry, Flip, inverse};
use std::alloc::{AllocError, Global};

/// The flips of all entries, in order.
pub fn flat(alloc: Global, entries: &[Entry]) -> Result<Vec<Flip>, AllocError>
    ensures { IfOk result (λ v. v.items ≡ flat entries.now) }
{
    let mut all = Vec::new(alloc);
    for entry in entries {
        all.extend_from_slice(entry.flips())?;
    }
    Ok(all)
}

/// The entries that this worker made in this round, in order.
pub fn of_worker(
    alloc: Global,
    entries: &[Entry],
    round: u32,
    worker: u16,
) -> Result<Vec<Entry>, AllocError>
    ensures { IfOk result (λ v. v.items ≡ mine entries.now round worker) }
{
    let mut own = Vec::new(alloc);
    for entry in entries {
        if entry.round() == round && entry.worker() == worker {
            let copy = Entry::new(
                alloc,
                entry.round(),
                entry.worker(),
                entry.seq(),
                entry.flips(),
            )?;
            own.push(copy)?;
        }
    }
    Ok(own)
}

/// The inverse of each flip, in reverse order: they lead back from where the flips lead.
pub fn inverse_list(alloc: Global, flips: &[Flip]) -> Result<Vec<Flip>, AllocError>
    ensures { IfOk result (λ v. v.items ≡ inverse_list flips.now) }
{
    let mut back = Vec::new(alloc);
    for done in 0..flips.len() {
        back.push(inverse(&flips[flips.len() - 1 - done]))?;
    }
    Ok(back)
}
