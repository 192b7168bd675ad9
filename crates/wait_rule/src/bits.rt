//! The steps on bit words, by which tasks take bits as locks and give them back. With the steps on the flags of woken
//! entries they are those of the kernel's flag words.

ghost use Rattle.std.specs.Prelude.{◌≡◌, ◌<◌, true};
ghost use Rattle.wait_model.specs.declared.layout.TheConstants.{BIT_WORDS, WORD_BITS};
ghost use Rattle.wait_model.specs.declared.steps.Step.TheVariants as step;
ghost use Rattle.wait_model.specs.declared.watches.Watch.TheVariants as watch;
ghost use Rattle.wait_model.specs.Watches.{was_clear};
ghost use Rattle.wait_rule.specs.declared.journal.Item.TheVariants as item;
ghost use Rattle.wait_rule.specs.{BitPlays.bit_cleared_play, BitPlays.bit_set_play, Queues.IsAgreedHold, Queues.IsIdle};
ghost use Rattle.wait_rule.specs.{Says.IsUp, Says.added};
ghost use Rattle.wait_rule.specs.Bits.{ClearsBit, KeepsBitOf, SetsBit};

use crate::domain::{Domain, Task};
use crate::journal::{Ask, Journal};
use crate::queue_plays::Watching;
use atomic_table::Play;
use std::marker::{Brand, PhantomData};
use wait_model::positions::cond_at;
use wait_model::watches::Watch;

/// A bit that is set.
pub struct SetBit<J> {
    of: PhantomData<J>,
}

impl<J: Watching> Play<Ask, Journal> for SetBit<J> {
    ghost then = { bit_set_play J.watch };
}

/// A bit that is cleared.
pub struct ClearBit<J> {
    of: PhantomData<J>,
}

impl<J: Watching> Play<Ask, Journal> for ClearBit<J> {
    ghost then = { bit_cleared_play J.watch };
}

/// Sets bit `bit`, below `WORD_BITS`, of bit word `word`, below `BIT_WORDS`, by one atomic or, and answers the word
/// that it found (`test_and_set_bit`, include/linux/bitops.h). Where that word had the bit clear the task keeps the bit
/// then, and else it changes nothing. As for each test of a watch, no word differs from its member bit in a hold.
pub fn bit_set(domain: &Domain, task: &mut Task, word: u8, bit: u8) -> u64
    requires of { task.old.domain ≡ domain.now }
    requires up { IsUp task.old }
    requires word { word < BIT_WORDS }
    requires bit { bit < WORD_BITS }
    requires agreed { IsAgreedHold task.old }
    ensures step { task.new ≡ added task.old (item.Made (step.Consume (watch.Bit word bit) 1 result)) }
    ensures sets { SetsBit task.old task.new (watch.Bit word bit) (was_clear (watch.Bit word bit) result) }
{
    set_as::<Brand>(domain, task, word, bit)
}

fn set_as<J: Watching>(domain: &Domain, task: &mut Task, word: u8, bit: u8) -> u64
    requires watch { watch.Bit word bit ≡ J.watch }
    requires of { task.old.domain ≡ domain.now }
    requires word { word < BIT_WORDS }
    requires bit { bit < WORD_BITS }
    requires agreed { IsAgreedHold task.old }
    ensures { task.new ≡ added task.old (item.Made (step.Consume (watch.Bit word bit) 1 result)) }
{
    let at = cond_at(Watch::Bit { word, bit }) as usize;
    let mask = 1u64 << bit;
    domain
        .table
        .shared
        .fetch_or::<SetBit<J>>(&mut task.seat, at, mask)
}

/// Clears bit `bit`, below `WORD_BITS`, of bit word `word`, below `BIT_WORDS`, by one atomic and-not
/// (`clear_bit_unlock`, include/linux/bitops.h). The task keeps the bit by its own history, and is idle; it keeps it no
/// more then, and owes a wake of it. The word that it found stands in the history, and is not told.
pub fn bit_clear(domain: &Domain, task: &mut Task, word: u8, bit: u8)
    requires of { task.old.domain ≡ domain.now }
    requires up { IsUp task.old }
    requires word { word < BIT_WORDS }
    requires bit { bit < WORD_BITS }
    requires idle { IsIdle task.old }
    requires keeps { KeepsBitOf task.old (watch.Bit word bit) }
    ensures step { (found : _)
        × (task.new ≡ added task.old (item.Made (step.Publish (watch.Bit word bit) 0 found))) }
    ensures clears { ClearsBit task.old task.new (watch.Bit word bit) }
{
    clear_as::<Brand>(domain, task, word, bit);
}

fn clear_as<J: Watching>(domain: &Domain, task: &mut Task, word: u8, bit: u8)
    requires watch { watch.Bit word bit ≡ J.watch }
    requires of { task.old.domain ≡ domain.now }
    requires word { word < BIT_WORDS }
    requires bit { bit < WORD_BITS }
    requires idle { IsIdle task.old }
    requires keeps { KeepsBitOf task.old (watch.Bit word bit) }
    ensures { (found : _) × (task.new ≡ added task.old (item.Made (step.Publish (watch.Bit word bit) 0 found))) }
{
    let at = cond_at(Watch::Bit { word, bit }) as usize;
    let kept = !(1u64 << bit);
    domain
        .table
        .shared
        .fetch_and::<ClearBit<J>>(&mut task.seat, at, kept);
}
