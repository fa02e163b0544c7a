// What main keeps of each pass.
ghost use Rattle.std.specs.Prelude.{List, Bool};
ghost use Rattle.std.specs.Borrow.{ftrue};
ghost use Rattle.flip_rules.specs.Entries.{JournalEntry};
ghost use Rattle.board_rule.specs.Tries.{Try};

use std::marker::Model;

/// What main keeps of a pass.
pub struct Kept {
    // Whether it was taken back, and the entries, marks and notes that it had then.
    pub ghost gone: { Bool },
    pub ghost mine: { List JournalEntry },
    pub ghost tries: { List Try },
}

impl Model for Kept {
    ghost also_owns = { λ _. ftrue };
}
