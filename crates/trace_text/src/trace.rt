//! Traces.

use complex_core::Complex;
use core_laws::Event;
use std::marker::Model;

/// A trace: a complex, how many workers and spare labels there are, and events in the labels of
/// the complex. The spare labels are as many after its greatest one.
#[derive(Drop)]
pub struct Trace {
    pub complex: Complex,
    pub workers: u16,
    pub room: u16,
    pub events: Vec<Event>,
}

impl Model for Trace {
    ghost use Rattle.trace_text.specs.Traces.{Trace as Text};

    ghost Value = { Text };

    ghost view = { λ t. record { start = t.complex; workers = t.workers; room = t.room; events = t.events.items } };
}
