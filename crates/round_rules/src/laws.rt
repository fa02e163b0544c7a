//! Laws of rounds.

ghost use Rattle.round_rules.specs.Laws.{RoundLaw, RoundReplays, RoundGrows, TryCommits};

/// A law: a round is right where its board was closed.
///
/// The closed board says what its journal and its stars are, and what they have to do with the marks and
/// notes that main kept of each worker. Each worker says what its own tries answered, by their notes
/// alone. Then every try of every worker meets its outcome, and the entries lead to the complex that has
/// the board's stars. There are at most as many entries as tries.
pub fn round_law()
    ensures { RoundLaw }
{}

/// A law: a right round leads from a complex to a complex.
///
/// The end of the round has the dimension of its start, and uses no label above the greatest place.
pub fn round_ends()
    ensures { RoundReplays }
{}

/// A law: in a right round each entry adds at most as many facets as the dimension.
///
/// So the number of entries says how many facets the end of the round has at most.
pub fn round_grows()
    ensures { RoundGrows }
{}

/// A law: a try that nothing hinders commits, unless it quits or wants memory.
///
/// Nothing hinders a try that won its place, of which no later claim was refused, whose flips its phase
/// allows, and of which no flip is blocked after any beginning of the journal that fits its mark.
pub fn try_commits()
    ensures { TryCommits }
{}
