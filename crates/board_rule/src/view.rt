// What passes and main know of a board: ghost values, in proofs alone.
ghost use Rattle.std.specs.Prelude.{ℕ, List, Bool};
ghost use Rattle.std.specs.Borrow.{ftrue};
ghost use Rattle.complex_core.specs.Complexes.{ComplexView};
ghost use Rattle.flip_rules.specs.Entries.{JournalEntry};
ghost use Rattle.board_rule.specs.Tries.{Try};
ghost use Rattle.board_rule.specs.Homes.{VersionedStar};
ghost use Rattle.board_rule.specs.declared.kept.Kept.{Kept};

use std::marker::Model;

/// What a pass knows. It exists in proofs alone, and so does each type of this file.
pub struct PassView {
    pub ghost worker: { ℕ },
    // What the board was told when it was opened: its complex, and its greatest place.
    pub ghost start: { ComplexView },
    pub ghost places: { ℕ },
    // The places from 1 that it holds, each with its star and version.
    pub ghost items: { List (ℕ × VersionedStar) },
    // A complex of which all these stars are.
    pub ghost seen: { ComplexView },
    // It holds place 0, and this was the journal then.
    pub ghost has_journal: { Bool },
    pub ghost journal: { List JournalEntry },
    // The entries that it committed.
    pub ghost mine: { List JournalEntry },
    pub ghost claiming: { Bool },
    // Its marks and notes, the latest first.
    pub ghost tries: { List Try },
}

impl Model for PassView {
    ghost also_owns = { λ _. ftrue };
}

/// What main knows: what the board was told, and what it keeps of each pass, by number. Number 0 is
/// no pass.
pub struct MainView {
    pub ghost start: { ComplexView },
    pub ghost places: { ℕ },
    pub ghost back: { List Kept },
}

impl Model for MainView {
    ghost also_owns = { λ _. ftrue };
}

/// The view of one seat: main's, a living pass's, or that of a pass that was taken back.
pub enum View {
    Main(MainView),
    Pass(PassView),
    Spent,
}
