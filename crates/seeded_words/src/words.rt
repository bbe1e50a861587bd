use rand_core::utils::NextWord;
use rand_pcg::Lcg64Xsh32;
use std::marker::Model;

/// The words of a seed, those of PCG XSH RR 64/32 (O'Neill) started at the seed on stream 0. A contract sees the state of the
/// generator.
#[derive(Debug, Drop)]
pub struct Words {
    generator: Lcg64Xsh32,
}

impl Model for Words {
    ghost use Rattle.rand_pcg.specs.Lcg.{Lcg};

    ghost Value = { Lcg };

    ghost view = { λ w. w.generator };
}

impl Words {
    ghost use Rattle.std.specs.Prelude.{◌≡◌};
    ghost use Rattle.seeded_words.specs.Words.{generator, word, after_word};

    /// The words of the seed, from the first on.
    #[tactic(auto, unfolding(crate::specs::Words::generator))]
    pub fn new(seed: u64) -> Words
        ensures { result ≡ generator seed }
    {
        Words {
            generator: Lcg64Xsh32::new(seed, 0),
        }
    }

    /// The next word, of 32 bits.
    #[tactic(auto, unfolding(crate::specs::Words::word, crate::specs::Words::after_word))]
    pub fn next(&mut self) -> u32
        ensures value { result ≡ word self.old }
        ensures after { self.new ≡ after_word self.old }
    {
        self.generator.next_word()
    }
}
