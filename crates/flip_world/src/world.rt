// The core: one step for each event.
ghost use Rattle.std.specs.Prelude.{◌≡◌, ℕ, ◌<◌, ◌≤◌, ◌-◌, ◌+◌, ◌^◌, [], length, replicate, Ok, Err, Some, MatchOption, IfOk, OnOk, OnErr, IfErr, IsTrue, ◌↔◌};
ghost use Rattle.std.specs.List.{AllByRecursion, flat_map};
ghost use Rattle.complex_core.specs.Complexes.{IsComplex};
ghost use Rattle.flip_rules.specs.Flips.{replay, broken_rule};
ghost use Rattle.flip_rules.specs.Journals.{flat};
ghost use Rattle.flip_rules.specs.declared.flip.Illegal.TheVariants.{Shape};
ghost use Rattle.core_laws.specs.Cores.{Core, IsWorker, IsWithin, places_of, owner_of, pending_of, opened, complex_of, seen_by};
ghost use Rattle.core_laws.specs.Steps.{Step, StepRefused, ClaimTold, ClaimRefused, EachLabel, IsLeastFailing, is_place, is_owned, FlipHeld, FlipTold, FlipAnswer, RollbackTold, CommitTold, CommitAnswer, ReleaseTold, ReleaseRefused};
ghost use Rattle.core_laws.specs.Serials.{Serial};

use crate::draft::Draft;
use crate::judge::{judged, stray_label, unowned_label};
use complex_core::Complex;
use core_laws::{Event, Refused, StepFault, Told};
use flip_rules::{Entry, Flip, Illegal, Journal};
use std::alloc::{AllocError, Global};
use std::marker::Model;

/// Places with owners, workers with pending flips, and the journal of what they committed.
///
/// Contracts see it as a core: start, places, workers, owners, pending flips and journal. Every world is serial.
#[derive(Drop)]
pub struct World {
    start: Complex,
    complex: Complex,
    owners: Vec<u16>,
    drafts: Vec<Draft>,
    written: Vec<u32>,
    journal: Journal,
}

impl Model for World {
    ghost use Rattle.core_laws.specs.Cores.{Core};
    ghost use Rattle.flip_world.specs.Worlds.{IsWorld};

    ghost Value = { Core };

    ghost view = { λ w. record { start = w.start; owners = w.owners.items; pending = w.drafts.items; journal = w.journal } };

    ghost invariant = { λ w. IsWorld (record { start = w.start; owners = w.owners.items; pending = w.drafts.items; journal = w.journal }) w.complex w.written.items };
}

// Whether the flip has the wrong sizes.
fn is_shape(answer: &Result<(), Illegal>) -> bool
    ensures { IsTrue result ↔ (answer.now ≡ Err Shape) }
{
    matches!(answer, Err(Illegal::Shape))
}

// Drafts without flips.
fn empty_drafts(alloc: Global, count: u16) -> Result<Vec<Draft>, AllocError>
    ensures { IfOk result (λ drafts. drafts.items ≡ replicate count []) }
{
    let mut drafts = Vec::new(alloc);
    for _ in 0..count {
        drafts.push(Draft::new(alloc))?;
    }
    Ok(drafts)
}

impl World {
    /// A world on this complex: all places are free, nothing is pending, and the journal is empty.
    pub fn open(
        alloc: Global,
        start: &Complex,
        places: u16,
        workers: u16,
    ) -> Result<World, AllocError>
        ensures opened { IfOk result (λ world. world ≡ opened start.now places workers) }
        ensures within { IfOk result (IsWithin 0) }
    {
        let _facets = start.facets();
        Ok(World {
            start: start.copy()?,
            complex: start.copy()?,
            owners: vec![in alloc; 0; places as usize + 1]?,
            drafts: empty_drafts(alloc, workers)?,
            written: vec![in alloc; 0; workers as usize]?,
            journal: Journal::new(alloc),
        })
    }

    /// Answers an event, and does what is told. A refused event, and want of memory, leave the world as it is.
    pub fn step(&mut self, event: &Event) -> Result<Told, StepFault>
        requires { IsWithin (2 ^ 32 - 2) self.old }
        ensures told { IfOk result (λ told. Step self.old event.now (Ok told) self.new) }
        ensures refused { IfErr result (StepRefused self.old event.now) }
        ensures unchanged { OnErr result (self.new ≡ self.old) }
        ensures serial { Serial self.new }

        // A step adds at most one entry, and at most one flip to a worker's.
        ensures grows { (count : ℕ) → IsWithin count self.old → IsWithin (count + 1) self.new }
    {
        let answer = self.answer(event);
        let _journal = self.journal();
        answer
    }

    // Answers an event.
    fn answer(&mut self, event: &Event) -> Result<Told, StepFault>
        requires { IsWithin (2 ^ 32 - 2) self.old }
        ensures told { IfOk result (λ told. Step self.old event.now (Ok told) self.new) }
        ensures refused { IfErr result (StepRefused self.old event.now) }
        ensures unchanged { OnErr result (self.new ≡ self.old) }
    {
        if !self.has_worker(event.worker()) {
            return Err(StepFault::Refused(Refused::NoWorker));
        }
        match event {
            Event::Claim { worker, place } => Ok(self.claim(*worker, *place)?),
            Event::Flip { worker, flip } => self.flip(*worker, flip),
            Event::Rollback { worker } => Ok(self.roll_back(*worker)),
            Event::Commit { worker } => self.commit(*worker),
            Event::Release { worker, place } => Ok(self.release(*worker, *place)?),
        }
    }

    /// The journal.
    pub fn journal(&self) -> &Journal
        ensures journal { result.now ≡ self.now.journal }
        ensures serial { Serial self.now }
    {
        &self.journal
    }

    /// The owner of a place, 0 where it is free.
    pub fn owner(&self, place: u16) -> u16
        requires { place ≤ places_of self.now }
        ensures { result ≡ owner_of self.now place }
    {
        self.owners[place as usize]
    }

    /// The flips of a worker that it has made and not committed.
    pub fn pending(&self, worker: u16) -> &[Flip]
        requires { IsWorker self.now worker }
        ensures { result.now ≡ pending_of self.now worker }
    {
        self.drafts[worker as usize - 1].flips()
    }

    /// The complex: the start after the journal's flips.
    pub fn complex(&self) -> Result<Complex, AllocError>
        ensures complex { IfOk result (λ k. k ≡ complex_of self.now) }
        ensures replays { IfOk result (λ k. replay self.now.start (flat self.now.journal) ≡ Some k) }
    {
        self.complex.copy()
    }

    // Whether there is a worker of this number.
    fn has_worker(&self, worker: u16) -> bool
        ensures { IsTrue result ↔ IsWorker self.now worker }
    {
        worker != 0 && worker as usize <= self.drafts.len()
    }

    fn claim(&mut self, worker: u16, place: u16) -> Result<Told, Refused>
        requires { IsWorker self.old worker }
        ensures told { IfOk result (λ told. ClaimTold self.old worker place told self.new) }
        ensures refused { IfErr result (ClaimRefused self.old worker place) }
        ensures unchanged { OnErr result (self.new ≡ self.old) }
    {
        if place as usize >= self.owners.len() {
            return Err(Refused::NoPlace(place));
        }
        let owner = self.owners[place as usize];
        if owner == worker {
            return Ok(Told::AlreadyHeld);
        }
        if owner != 0 {
            return Err(Refused::Busy { place, owner });
        }
        self.owners[place as usize] = worker;
        Ok(Told::Claimed)
    }

    fn release(&mut self, worker: u16, place: u16) -> Result<Told, Refused>
        requires worker { IsWorker self.old worker }
        requires few { length (pending_of self.old worker) < 2 ^ 32 - 1 }
        ensures told { IfOk result (λ told. ReleaseTold self.old worker place told self.new) }
        ensures refused { IfErr result (ReleaseRefused self.old worker place) }
        ensures unchanged { OnErr result (self.new ≡ self.old) }
    {
        if place as usize >= self.owners.len() {
            return Err(Refused::NoPlace(place));
        }
        if self.owners[place as usize] != worker {
            return Err(Refused::NotHeld(place));
        }
        let count = self.drafts[worker as usize - 1].flips().len() as u32;
        if place != 0 && count != 0 {
            return Err(Refused::Pending(count));
        }
        self.owners[place as usize] = 0;
        Ok(Told::Released)
    }

    fn roll_back(&mut self, worker: u16) -> Told
        requires worker { IsWorker self.old worker }
        requires few { length (pending_of self.old worker) < 2 ^ 32 - 1 }
        ensures { RollbackTold self.old worker result self.new }
    {
        let draft = &mut self.drafts[worker as usize - 1];
        let count = draft.flips().len() as u32;
        draft.clear();
        Told::RolledBack(count)
    }

    // The least label of the flip that is no place.
    fn stray_label(&self, flip: &Flip) -> Option<u16>
        ensures { MatchOption result (EachLabel (is_place self.now) flip.now) (IsLeastFailing (is_place self.now) flip.now) }
    {
        stray_label(self.owners.len() - 1, flip)
    }

    // The least label of the flip that the worker doesn't own.
    fn unowned_label(&self, worker: u16, flip: &Flip) -> Option<u16>
        ensures { MatchOption result (EachLabel (is_owned self.now worker) flip.now) (IsLeastFailing (is_owned self.now worker) flip.now) }
    {
        unowned_label(&self.owners, worker, flip)
    }

    // The first rule that the flip breaks, where the worker sees it.
    fn judged(&self, worker: u16, flip: &Flip) -> Result<Result<(), Illegal>, AllocError>
        requires { IsWorker self.now worker }
        ensures broken_rule { IfOk result (λ answer. answer ≡ broken_rule (seen_by self.now worker) flip.now.a flip.now.b) }
        ensures few { IfOk result (λ answer. OnOk answer (length flip.now.a + length flip.now.b ≤ 8)) }
    {
        judged(&self.complex, &self.drafts[worker as usize - 1], flip)
    }

    // Whether the worker may make the flip.
    fn may_flip(&self, worker: u16, flip: &Flip) -> Result<(), StepFault>
        requires { IsWorker self.now worker }
        ensures held { OnOk result (FlipHeld self.now worker flip.now) }
        ensures legal { OnOk result (broken_rule (seen_by self.now worker) flip.now.a flip.now.b ≡ Ok tt) }
        ensures few { OnOk result (length flip.now.a + length flip.now.b ≤ 8) }
        ensures refused { IfErr result (FlipAnswer self.now worker flip.now) }
    {
        if let Some(place) = self.stray_label(flip) {
            return Err(StepFault::Refused(Refused::NoPlace(place)));
        }
        let answer = self.judged(worker, flip)?;
        if is_shape(&answer) {
            return Err(StepFault::Refused(Refused::Illegal(Illegal::Shape)));
        }
        if let Some(place) = self.unowned_label(worker, flip) {
            return Err(StepFault::Refused(Refused::NotHeld(place)));
        }
        match answer {
            Ok(()) => Ok(()),
            Err(illegal) => Err(StepFault::Refused(Refused::Illegal(illegal))),
        }
    }

    fn flip(&mut self, worker: u16, flip: &Flip) -> Result<Told, StepFault>
        requires { IsWorker self.old worker }
        ensures told { IfOk result (λ told. FlipTold self.old worker flip.now told self.new) }
        ensures refused { IfErr result (FlipAnswer self.old worker flip.now) }
        ensures unchanged { OnErr result (self.new ≡ self.old) }
    {
        let _first = flip.a.len();
        let _second = flip.b.len();
        self.may_flip(worker, flip)?;
        self.drafts[worker as usize - 1].push(flip)?;
        Ok(Told::Flipped)
    }

    fn commit(&mut self, worker: u16) -> Result<Told, StepFault>
        requires worker { IsWorker self.old worker }
        requires few { length self.old.journal < 2 ^ 32 - 1 }
        ensures told { IfOk result (λ told. CommitTold self.old worker told self.new) }
        ensures refused { IfErr result (CommitAnswer self.old worker) }
        ensures unchanged { OnErr result (self.new ≡ self.old) }
    {
        if self.owners[0] != worker {
            return Err(StepFault::Refused(Refused::NotHeld(0)));
        }
        let alloc = *self.owners.allocator();
        let seat = worker as usize - 1;
        if self.drafts[seat].flips().is_empty() {
            return Err(StepFault::Refused(Refused::NoFlips));
        }
        let seq = self.written[seat];
        let entry = Entry::new(alloc, 0, worker, seq, self.drafts[seat].flips())?;
        self.journal.push(entry)?;
        match self.drafts[seat].make(&mut self.complex) {
            Ok(()) => {}
            Err(_) => {
                let _ = self.journal.pop();
                return Err(StepFault::Memory);
            }
        }
        self.drafts[seat].clear();
        self.written[seat] = seq + 1;
        self.owners[0] = 0;
        Ok(Told::Committed(seq))
    }
}
