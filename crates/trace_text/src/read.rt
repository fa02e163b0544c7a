//! The reader of traces.

ghost use Rattle.std.specs.Prelude.{◌≡◌, ◌+◌, ◌≤◌, IfOk, length};
ghost use Rattle.complex_core.specs.Maps.{greatest, used};
ghost use Rattle.trace_text.specs.Grammar.{places_in, trace_of};
ghost use Rattle.trace_text.specs.Outcomes.{KeepsTraceLimits, Gives};

use crate::event::{MOST_WORKERS, read_events};
use crate::fault::TraceFault;
use crate::part::stated_next;
use crate::trace::Trace;
use complex_core::{Complex, VertexMap};
use facet_text::read_complex;
use std::alloc::{AllocError, Global};

/// How many spare labels there may be.
const MOST_SPARES: u16 = 1_024;

/// The map that takes each label that is used or spare to its place.
fn places_in(complex: &Complex, room: u16) -> Result<VertexMap, AllocError>
    requires { greatest (used complex.now.facets) + room ≤ 65535 }
    ensures { IfOk result (λ m. m ≡ places_in complex.now room) }
{
    let (_, names) = complex.dense(room)?;
    names.inverse()
}

/// Reads a trace, from the first byte to the last.
///
/// A complex stands first, and then the lines `workers N`, with 1 to 16 workers, `room M`, with 1
/// to 1,024 spare labels, and any number of events: `claim W P`, `flip W A | B`, `rollback W`,
/// `commit W` and `release W P`.
pub fn read_trace(alloc: Global, bytes: &[u8]) -> Result<Trace, TraceFault>
    ensures read { Gives result (trace_of bytes.now) }
    ensures limits { IfOk result KeepsTraceLimits }
    ensures few { IfOk result (λ t. length t.events ≤ length bytes.now) }
{
    let (complex, offset) = read_complex(alloc, bytes, 0)?;
    let (workers, offset) = stated_next(bytes, offset, b"workers", MOST_WORKERS)?;
    let (room, offset) = stated_next(bytes, offset, b"room", MOST_SPARES)?;
    let places = places_in(&complex, room)?;
    let events = read_events(alloc, bytes, offset, &places)?;
    Ok(Trace {
        complex,
        workers,
        room,
        events,
    })
}
