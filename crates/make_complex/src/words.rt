//! The words of a draw.

ghost use Rattle.std.specs.Prelude.{◌≡◌};
ghost use Rattle.make_complex.specs.Words.{after_words, word_at};

use rand_core::utils::NextWord;
use rand_pcg::Lcg64Xsh32;

/// What the three words of a draw choose, in the order in which they are drawn.
#[derive(Clone, Copy)]
pub struct DrawWords {
    /// A facet.
    pub facet: u32,
    /// The index of the flip.
    pub index: u32,
    /// A subset of the facet.
    pub subset: u32,
}

/// Draws the three words of a draw, which are the next three of the generator.
pub fn draw_words(words: &mut Lcg64Xsh32) -> DrawWords
    ensures facet { result.facet ≡ word_at words.old 0 }
    ensures index { result.index ≡ word_at words.old 1 }
    ensures subset { result.subset ≡ word_at words.old 2 }
    ensures after { words.new ≡ after_words words.old 3 }
{
    let facet = words.next_word();
    let index = words.next_word();
    let subset = words.next_word();
    DrawWords {
        facet,
        index,
        subset,
    }
}
