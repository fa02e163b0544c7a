// What a search for flips that lead a complex to the boundary of a simplex came to.
use flip_rules::Flip;

/// What a search came to.
#[derive(Drop)]
pub enum Searched<T> {
    /// These flips lead the complex to the boundary of a simplex.
    Found(Vec<Flip>),
    /// The search spent its rounds and found none. This is its record.
    Gave(T),
}
