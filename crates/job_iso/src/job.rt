// The job `iso`, from bytes to what it says.
ghost use Rattle.std.specs.Prelude.{◌≡◌, IfOk};
ghost use Rattle.job_answer.specs.Meanings.{Judges};
ghost use Rattle.job_iso.specs.Answers.{meaning, yes_text, no_text};

use cert_text::write_map;
use complex_core::{Complex, VertexMap};
use facet_iso::{IsoFault, isomorphism};
use job_answer::{Fault, Said, Status, plain, read_two, refuse};
use std::alloc::{AllocError, Global};

/// The most bytes of an input.
pub const MOST_BYTES: usize = 4_194_304;

// What is said of a map.
fn map_found(alloc: Global, map: &VertexMap) -> Result<Said, AllocError>
    ensures status { IfOk result (λ a. a.status ≡ Status.Yes) }
    ensures text { IfOk result (λ a. a.text.items ≡ yes_text map.now) }
{
    let mut text = String::from_str(alloc, "yes\n")?.into_bytes();
    write_map(map, &mut text)?;
    Ok(Said {
        status: Status::Yes,
        text,
    })
}

// What is said where there is none.
fn none_found(alloc: Global) -> Result<Said, AllocError>
    ensures status { IfOk result (λ a. a.status ≡ Status.No) }
    ensures text { IfOk result (λ a. a.text.items ≡ no_text) }
{
    Ok(plain(Status::No, String::from_str(alloc, "no\nno map\n")?))
}

/// Tells the least map of labels that takes the first complex of an input to the second, or that there is none. Both are strongly
/// connected, and each of their ridges lies in at most two facets; the first that isn't so is refused.
///
/// # Errors
///
/// `AllocError` for want of memory.
pub fn iso(alloc: Global, bytes: &[u8]) -> Result<Said, AllocError>
    ensures { IfOk result (λ a. Judges meaning bytes.now a.status a.text.items tt) }
{
    let (first, second) = match read_two(alloc, bytes) {
        Ok(complexes) => complexes,
        Err(fault) => return refuse(alloc, fault),
    };
    match isomorphism(alloc, &first, &second) {
        Ok(Some(map)) => map_found(alloc, &map),
        Ok(None) => none_found(alloc),
        Err(IsoFault::Unfit(which)) => refuse(alloc, Fault::Unfit(which)),
        Err(IsoFault::Memory) => Err(AllocError),
    }
}
