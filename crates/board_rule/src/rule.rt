// The rule of a board, and the steps that it allows.
ghost use Rattle.board_rule.specs.Rule.{Ruled, opener};
ghost use Rattle.board_rule.specs.Plays.{began, claimed, fetched, released, left, wrote, handed, given, gathered};
ghost use Rattle.board_rule.specs.declared.view.View.TheVariants.{Spent};

use crate::data::Slot;
use crate::setup::Setup;
use crate::view::View;
use atomic_table::{Join, Play, Split, TableRule};

/// The rule of a board.
pub struct Ruling;

impl TableRule<Slot, View, Setup> for Ruling {
    ghost holds = { Ruled };

    ghost first = { opener };
}

/// The first claim of a try, at a place from 1.
pub struct ClaimFirst;

impl Play<Slot, View> for ClaimFirst {
    ghost then = { began };
}

/// A later claim of a place from 1.
pub struct ClaimStar;

impl Play<Slot, View> for ClaimStar {
    ghost then = { claimed };
}

/// A claim of place 0.
pub struct ClaimJournal;

impl Play<Slot, View> for ClaimJournal {
    ghost then = { fetched };
}

/// A place from 1 is given back.
pub struct Release;

impl Play<Slot, View> for Release {
    ghost then = { released };
}

/// Place 0 is given back with the same entries.
pub struct Leave;

impl Play<Slot, View> for Leave {
    ghost then = { left };
}

/// Place 0 is given back with one entry more.
pub struct Commit;

impl Play<Slot, View> for Commit {
    ghost then = { wrote };
}

/// A pass is handed out.
pub struct HandOut;

impl Split<View> for HandOut {
    ghost left = { handed };

    ghost right = { given };
}

/// A pass is taken back.
pub struct TakeBack;

impl Join<View> for TakeBack {
    ghost both = { gathered };

    ghost spent = { Spent };
}
