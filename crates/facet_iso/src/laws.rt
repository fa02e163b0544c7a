// What an ordered image says of a map: laws, and no code.
ghost use Rattle.facet_iso.specs.Laws.{OneLeastMap, OrderedImageDetermines};

/// Two maps from one strong and thin complex to another that agree on the labels of the least
/// facet agree on all labels.
pub fn ordered_image_determines()
    ensures { OrderedImageDetermines }
{}

/// There is at most one least map from one strong and thin complex to another.
pub fn one_least_map()
    ensures { OneLeastMap }
{}
