// How large the labels of a search's flips can be: a law, and no code.
ghost use Rattle.sphere_search.specs.Laws.{LabelsAreFew};

/// Where no label of a complex is above n, flips that show it to be a sphere use none above
/// n + 1,024.
pub fn labels_law()
    ensures { LabelsAreFew }
{}
