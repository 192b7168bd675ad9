//! The bits and pages that a task keeps, by a mask for each bit word.

ghost use Rattle.std.specs.Prelude.{◌≡◌, ◌<◌, ◌&&◌, ◌||◌, not, false, true};
ghost use Rattle.wait_model.specs.{declared.layout.TheConstants.BIT_WORDS, declared.layout.TheConstants.WORD_BITS};
ghost use Rattle.wait_model.specs.{declared.watches.Watch.Watch, Watches.same};
ghost use Rattle.wait_model.specs.declared.watches.Watch.TheVariants as watch;
ghost use Rattle.wq_checked.specs.Kept.{keeps_in};

use wait_model::layout::BIT_WORDS;
use wait_model::words::{bit_at, with_bit, without_bit};

/// How many masks there are.
const ROOM: usize = BIT_WORDS as usize;

/// Which bits a task keeps.
#[derive(Drop)]
pub struct KeptBits {
    pub(crate) masks: [u64; ROOM],
}

impl KeptBits {
    /// None.
    pub fn none() -> KeptBits
        ensures { (c : Watch) → keeps_in result c ≡ false }
    {
        KeptBits { masks: [0; ROOM] }
    }

    /// Whether bit `bit` of bit word `word` is among them.
    pub fn has(&self, word: u8, bit: u8) -> bool
        requires word { word < BIT_WORDS }
        requires bit { bit < WORD_BITS }
        ensures { result ≡ keeps_in self.now (watch.Bit word bit) }
    {
        bit_at(self.masks[usize::from(word)], bit)
    }

    /// One more.
    pub fn put(&mut self, word: u8, bit: u8)
        requires word { word < BIT_WORDS }
        requires bit { bit < WORD_BITS }
        ensures { (c : Watch) → keeps_in self.new c ≡ (same c (watch.Bit word bit) || keeps_in self.old c) }
    {
        let at = usize::from(word);
        self.masks[at] = with_bit(self.masks[at], bit);
    }

    /// One less.
    pub fn take(&mut self, word: u8, bit: u8)
        requires word { word < BIT_WORDS }
        requires bit { bit < WORD_BITS }
        ensures { (c : Watch) → keeps_in self.new c ≡ (not (same c (watch.Bit word bit)) && keeps_in self.old c) }
    {
        let at = usize::from(word);
        self.masks[at] = without_bit(self.masks[at], bit);
    }
}
