//! The labels that a text may use.

ghost use Rattle.std.specs.Prelude.{◌≡◌, true};
ghost use Rattle.std.specs.Option.{SomeIff};
ghost use Rattle.std.specs.Str.Parse.{digits_value};
ghost use Rattle.line_text.specs.Labels.{allows};
ghost use Rattle.line_text.specs.Numbers.{is_number};

use crate::number::number_of;
use complex_core::VertexMap;

/// The labels that a text may use, among those from 1 to 65,535.
#[derive(Clone, Copy)]
pub enum Labels<'a> {
    /// Those up to this one.
    UpTo(u16),
    /// Those that the map takes to another.
    Of(&'a VertexMap),
}

impl Labels<'_> {
    #[tactic(auto, unfolding(crate::specs::Labels::allows))]
    fn allows(self, label: u16) -> bool
        ensures { result ≡ allows self.entry label }
    {
        match self {
            Labels::UpTo(most) => 1 <= label && label <= most,
            Labels::Of(map) => 1 <= label && map.get(label).is_some(),
        }
    }
}

/// The value of a number, where it is one of these labels.
#[tactic(auto, unfolding(crate::specs::Labels::allows))]
pub fn label_of(text: &[u8], labels: Labels<'_>) -> Option<u16>
    requires { is_number text.now ≡ true }
    ensures { SomeIff result (allows labels.entry (digits_value 10 text.now) ≡ true) (digits_value 10 text.now) }
{
    let value = number_of(text)?;
    if value > u32::from(u16::MAX) {
        return None;
    }
    let label = value as u16;
    if labels.allows(label) {
        Some(label)
    } else {
        None
    }
}
