//! Gates, which may end a worker between the steps of a try.

ghost use Rattle.std.specs.Prelude.{ℕ, ◌≤◌, ◌<◌, ◌≡◌, Option, None};
ghost use Rattle.held_stars.specs.Gates.{Heard, Follows, is_quit, after_asked, after_committed};

use crate::point::{Point, Step};

/// What may end a worker. It is asked at each point of each try.
pub trait Gate {
    /// How often it has said that a try ends. The count never falls.
    ghost quits: { Self → ℕ };

    /// What it was asked and told, where it tells.
    ghost heard: { Self → Option Heard };

    /// Whether a try goes on at a point. It ends only where the count rose.
    fn at(&mut self, point: Point) -> Step
        ensures later { quits self.old ≤ quits self.new }
        ensures rose { result ≡ Step.Quit → quits self.old < quits self.new }
        ensures heard { Follows (heard self.old) (heard self.new) (λ h g. g ≡ after_asked point (is_quit result) h) };

    /// A try of the worker was committed.
    fn committed(&mut self)
        ensures heard { Follows (heard self.old) (heard self.new) (λ h g. g ≡ after_committed h) }
        ensures quits { quits self.new ≡ quits self.old };
}

/// A gate that lets every try go on.
#[derive(Clone, Copy, Debug, PartialEq, Eq, Default)]
pub struct OpenGate;

impl Gate for OpenGate {
    ghost quits = { λ _. 0 };

    ghost heard = { λ _. None };

    fn at(&mut self, _point: Point) -> Step {
        Step::Go
    }

    fn committed(&mut self) {}
}
