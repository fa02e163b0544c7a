//! The words that workers draw.

ghost use Rattle.std.specs.Prelude.{◌≡◌};
ghost use Rattle.anneal_plan.specs.Words.{stream_number, stream_of, words_from, after_words, DrawsFollow};

use crate::Plan;
use rand_core::utils::NextWord;
use rand_pcg::Lcg64Xsh32;

impl Plan {
    /// The generator of a worker in a round: PCG XSH RR 64/32 (O'Neill, 2014), started with the
    /// plan's seed on the stream 16 · round + worker.
    ///
    /// So 16 workers, numbered one after another, have a stream each in every round.
    pub fn stream(&self, round: u32, worker: u16) -> Lcg64Xsh32
        ensures { result ≡ stream_of self.now.seed (stream_number round worker) }
    {
        let number = 16 * u64::from(round) + u64::from(worker);
        Lcg64Xsh32::new(u64::from(self.seed()), number)
    }
}

/// Draws the eight words of a try, which are the next eight of the generator.
pub fn draw(words: &mut Lcg64Xsh32) -> [u32; 8]
    ensures words { result ≡ words_from words.old 8 }
    ensures after { words.new ≡ after_words words.old 8 }
{
    let mut drawn = [0; 8];
    for word in drawn.iter_mut() {
        *word = words.next_word();
    }
    drawn
}

/// A law: word k of draw t of a generator is its word 8 t + k, all counted from 0.
pub fn draws_follow()
    ensures { DrawsFollow }
{}
