//! Who keeps each bit: the task that set it, or took note of the page that a walk took for it, and has not cleared it
//! since. Beside it the page that a walk took for each task, until the task takes note of it.

ghost use Rattle.std.specs.Prelude.{◌≡◌, ℕ, ◌+◌, ◌*◌, ◌<◌, IfOk, IfSome, Some, None, length, slice_get, true};
ghost use Rattle.std.specs.Prelude.{slice_index_or};
ghost use Rattle.wait_model.specs.declared.layout.TheConstants.{TASKS, BIT_WORDS, WORD_BITS, BITS};
ghost use Rattle.wait_model.specs.Admission as spec;
ghost use Rattle.wait_model.specs.Shown.{IsInRange};
ghost use Rattle.wait_core.specs.Keepers.{keeps_shown, kept_after, noted_by, taken_after};
ghost use Rattle.wait_core.specs.Keepers as keepers_of;

use std::alloc::{AllocError, Global};
use wait_model::calls::{Call, Event};
use wait_model::layout::{BITS, TASKS, WORD_BITS};

/// So many places with nothing in them.
fn nothing(alloc: Global, count: usize) -> Result<Vec<Option<u8>>, AllocError>
    ensures count { IfOk result (λ places. length places.items ≡ count) }
    ensures none { IfOk result (λ places. (k : ℕ) → k < count → slice_get places.items k ≡ Some None) }
{
    vec![in alloc; None; count]
}

/// Nobody keeps any bit.
pub fn no_keepers(alloc: Global) -> Result<Vec<Option<u8>>, AllocError>
    ensures count { IfOk result (λ keepers. length keepers.items ≡ BITS) }
    ensures none { IfOk result (λ keepers. (k : ℕ) → k < BITS → slice_get keepers.items k ≡ Some None) }
{
    nothing(alloc, usize::from(BITS))
}

/// No page was taken for any task.
pub fn none_taken(alloc: Global) -> Result<Vec<Option<u8>>, AllocError>
    ensures count { IfOk result (λ taken. length taken.items ≡ TASKS) }
    ensures none { IfOk result (λ taken. (k : ℕ) → k < TASKS → slice_get taken.items k ≡ Some None) }
{
    nothing(alloc, usize::from(TASKS))
}

/// The number of a bit among all bits.
fn bit_number(word: u8, bit: u8) -> usize
    ensures { result ≡ WORD_BITS * word + bit }
{
    usize::from(WORD_BITS) * usize::from(word) + usize::from(bit)
}

/// Whether a task is the keeper of a bit.
fn is_keeper(keeper: Option<u8>, task: u8) -> bool
    ensures { result ≡ keepers_of.is_keeper keeper task }
{
    match keeper {
        None => false,
        Some(keeper) => keeper == task,
    }
}

/// Whether a task keeps the bit that a call would clear.
pub fn keeps_of(keepers: &[Option<u8>], task: u8, call: Call) -> bool
    requires count { length keepers.now ≡ BITS }
    requires call { spec.is_in_range task call ≡ true }
    ensures { result ≡ keeps_shown keepers.now task call }
{
    match call {
        Call::ClearBit { word, bit } => is_keeper(keepers[bit_number(word, bit)], task),
        _ => false,
    }
}

/// Notes that a task keeps the page of which it takes note, if one was taken for it.
fn note(keepers: &mut Vec<Option<u8>>, task: u8, page: Option<u8>)
    requires count { length keepers.old.items ≡ BITS }
    requires page { IfSome page (λ p. p < BIT_WORDS) }
    ensures { keepers.new.items ≡ noted_by task page keepers.old.items }
{
    if let Some(page) = page {
        keepers[bit_number(page, 0)] = Some(task);
    }
}

/// Notes who keeps the bit that an event set or cleared, for whom it took a page, and who took note of one.
#[inline(always)]
pub fn keep(keepers: &mut Vec<Option<u8>>, taken: &mut Vec<Option<u8>>, task: u8, event: Event)
    requires count { length keepers.old.items ≡ BITS }
    requires tasks { length taken.old.items ≡ TASKS }
    requires page { IfSome (slice_index_or taken.old.items task None) (λ p. p < BIT_WORDS) }
    requires event { IsInRange event }
    ensures kept { keepers.new.items ≡ kept_after task event taken.old.items keepers.old.items }
    ensures taken { taken.new.items ≡ taken_after task event taken.old.items }
{
    match event {
        Event::Tas { word, bit, found } => {
            if found == 0 {
                keepers[bit_number(word, bit)] = Some(task);
            }
        }
        Event::TasFor { word, who, found } => {
            if found == 0 {
                taken[usize::from(who)] = Some(word);
            }
        }
        Event::Unflag => {
            let slot = usize::from(task);
            note(keepers, task, taken[slot]);
            taken[slot] = None;
        }
        Event::Clear { word, bit } => keepers[bit_number(word, bit)] = None,
        _ => {}
    }
}
