//! The steps by which pages are handed over: a walk tries a page for the task of an entry, tells the task, and takes
//! the entry off; the task loads its flag word, and takes note of the page. They share with the page lock of
//! mm/filemap.c that who unlocks a page takes it for a waiter.

ghost use Rattle.std.specs.Prelude.{◌≡◌, ◌<◌, ℕ, Some};
ghost use Rattle.wait_model.specs.{declared.watches.Entry.Entry, declared.layout.TheConstants.BIT_WORDS};
ghost use Rattle.wait_model.specs.{declared.layout.TheConstants.SLOTS, Watches.page};
ghost use Rattle.wait_model.specs.declared.steps.Step.TheVariants as step;
ghost use Rattle.wait_rule.specs.declared.journal.Item.TheVariants as item;
ghost use Rattle.wait_rule.specs.{Asked.was_given_at, Bits.KeepsBitOf, Bits.NotesPage};
ghost use Rattle.wait_rule.specs.PageCalls.{tried_for_play, told_play, flag_word_play, noted_play, HandsOver, HasTaken};
ghost use Rattle.wait_rule.specs.PageCalls.{HasTold, IsFlagWord, MayTryFor, QueuesNoPage, ShowsGiven, ShowsNoFlag};
ghost use Rattle.wait_rule.specs.Queues.{IsAgreed, IsLocked, ShowsEntry, index};
ghost use Rattle.wait_rule.specs.Says.{IsUp, added, asks_for, stored_with};
ghost use Rattle.wait_rule.specs.Stays.{Carries, take_off_change, unchanged};

use crate::domain::{Domain, Task};
use crate::journal::{Ask, Journal};
use crate::members::member_store;
use crate::queue_plays::Unqueued;
use crate::running::wake_task;
use atomic_table::Play;
use std::marker::{Brand, PhantomData};
use std::sync::Wait;
use wait_model::layout::{HANDED, SLOTS};
use wait_model::positions::{cond_at, entry_at, flag_at};
use wait_model::watches::{Mode, Watch};
use wait_model::words::flag_word_of;

/// The number that a step is about: an entry's index, or a page. Each call picks it.
pub trait Numbering {
    ghost number: { ℕ };
}

impl Numbering for Brand {
    ghost number = { 0 };
}

/// A page that is tried for the task of an entry.
pub struct TryFor<J> {
    of: PhantomData<J>,
}

impl<J: Numbering> Play<Ask, Journal> for TryFor<J> {
    ghost then = { tried_for_play J.number };
}

/// DONE that is stored into an entry's flag word.
pub struct Tell;

impl Play<Ask, Journal> for Tell {
    ghost then = { told_play };
}

/// A load of an own flag word, which tells of a page.
pub struct LoadWord;

impl Play<Ask, Journal> for LoadWord {
    ghost then = { flag_word_play };
}

/// An own flag word that is cleared to take note of a page.
pub struct Note<J> {
    of: PhantomData<J>,
}

impl<J: Numbering> Play<Ask, Journal> for Note<J> {
    ghost then = { noted_play J.number };
}

/// Tries page `word`, below `BIT_WORDS`, for the task of the entry of `who` and slot 0 or 1, which the hold shows and
/// which is one for this page: sets bit 0 of the word by one atomic or, and answers the word that it found. Where that
/// had the bit clear the page is that task's, also while it sleeps; the hold has to tell it then (`handed_store`), wake
/// it, and take its entry off (`handed_unqueue`), before it does anything else to the queue. Else nothing changes.
pub fn bit_set_for(domain: &Domain, task: &mut Task, word: u8, who: u8, slot: u8) -> u64
    requires of { task.old.domain ≡ domain.now }
    requires up { IsUp task.old }
    requires held { IsLocked task.old }
    requires agreed { IsAgreed task.old }
    requires word { word < BIT_WORDS }
    requires slot { slot < SLOTS }
    requires may { MayTryFor task.old who slot word }
    ensures step { task.new ≡ added task.old (item.Made (step.TasFor (index who slot) word result)) }
    ensures carries { Carries unchanged task.old task.new }
{
    set_for::<Brand>(domain, task, word, who, slot)
}

fn set_for<J: Numbering>(domain: &Domain, task: &mut Task, word: u8, who: u8, slot: u8) -> u64
    requires entry { index who slot ≡ J.number }
    requires of { task.old.domain ≡ domain.now }
    requires held { IsLocked task.old }
    requires agreed { IsAgreed task.old }
    requires word { word < BIT_WORDS }
    requires slot { slot < SLOTS }
    requires may { MayTryFor task.old who slot word }
    ensures { task.new ≡ added task.old (item.Made (step.TasFor (index who slot) word result)) }
{
    let at = cond_at(Watch::Bit { word, bit: 0 }) as usize;
    domain
        .table
        .shared
        .fetch_or::<TryFor<J>>(&mut task.seat, at, 1)
}

/// Stores WOKEN and DONE into the flag word of the entry of `who` and slot 0 or 1, for whose task the hold has taken
/// its page.
pub fn handed_store(domain: &Domain, task: &mut Task, who: u8, slot: u8)
    requires of { task.old.domain ≡ domain.now }
    requires up { IsUp task.old }
    requires slot { slot < SLOTS }
    requires taken { HasTaken task.old who slot }
    ensures step { task.new ≡ added task.old (item.Made (step.Handed (index who slot))) }
    ensures carries { Carries unchanged task.old task.new }
{
    let at = flag_at(who, slot) as usize;
    domain
        .table
        .shared
        .store::<Tell>(&mut task.seat, at, HANDED);
}

/// Takes the entry of `who` and slot 0 or 1 off the queue, of whose task the hold has made a wake with NORMAL since it
/// told it of its page. It answers nothing whatever that wake answered.
pub fn handed_unqueue(domain: &Domain, task: &mut Task, who: u8, slot: u8)
    requires of { task.old.domain ≡ domain.now }
    requires up { IsUp task.old }
    requires held { IsLocked task.old }
    requires slot { slot < SLOTS }
    requires told { HasTold task.old who slot }
    ensures step { task.new ≡ added task.old (item.Made (step.Unqueue (index who slot))) }
    ensures carries { Carries (take_off_change (index who slot)) task.old task.new }
{
    let at = entry_at(who, slot) as usize;
    domain.table.shared.store::<Unqueued>(&mut task.seat, at, 0);
}

/// Takes the entry of `who` and slot 0 or 1 off the queue as `handed_unqueue` does, and clears its member bit.
pub fn unqueue_handed(domain: &Domain, task: &mut Task, who: u8, slot: u8)
    requires of { task.old.domain ≡ domain.now }
    requires up { IsUp task.old }
    requires held { IsLocked task.old }
    requires slot { slot < SLOTS }
    requires told { HasTold task.old who slot }
    ensures step { task.new ≡ stored_with task.old (step.Unqueue (index who slot)) }
    ensures carries { Carries (take_off_change (index who slot)) task.old task.new }
{
    let head = task.head;
    let index = SLOTS * u16::from(who) + u16::from(slot);
    handed_unqueue(domain, task, who, slot);
    member_store(domain, task, head, index, false);
}

/// Hands the page over to the task of the entry of `who` and slot 0 or 1, for which the hold has just taken it
/// (`bit_set_for`): tells the task, wakes it with NORMAL, whatever the mode of the walk is, and takes its entry off,
/// with its member bit. True where that wake met the task; one that had not gone to sleep yet finds the entry off, and
/// DONE.
pub fn hand_over<R: Wait>(rt: &R, domain: &Domain, task: &mut Task, who: u8, slot: u8) -> bool
    requires of { task.old.domain ≡ domain.now }
    requires up { IsUp task.old }
    requires held { IsLocked task.old }
    requires slot { slot < SLOTS }
    requires taken { HasTaken task.old who slot }
    requires entry { (e : Entry) × ShowsEntry task.old (index who slot) e }
    ensures hands { HandsOver task.old task.new who slot result }
    ensures carries { Carries (take_off_change (index who slot)) task.old task.new }
{
    handed_store(domain, task, who, slot);
    let met = wake_task(rt, domain, task, who, Mode::Normal);
    unqueue_handed(domain, task, who, slot);
    met
}

/// Loads the own flag word of slot 0 or 1: 0, WOKEN, or WOKEN with DONE. It is the last exactly where a walk told the
/// task of a page and it has not taken note of it since; so where its own entry for a page was taken off by a walk. It
/// is 0 where the task asks for no page, and has queued no entry of kind Woken there since it cleared the word.
pub fn flag_load(domain: &Domain, task: &mut Task, slot: u8) -> u64
    requires of { task.old.domain ≡ domain.now }
    requires up { IsUp task.old }
    requires slot { slot < SLOTS }
    ensures step { task.new ≡ added task.old (item.Made (step.Flag (index task.old.view.number slot) result)) }
    ensures word { IsFlagWord result }
    ensures given { ShowsGiven task.old (index task.old.view.number slot) result }
    ensures none { ShowsNoFlag task.old (index task.old.view.number slot) result }
    ensures carries { Carries unchanged task.old task.new }
{
    let at = flag_at(task.number, slot) as usize;
    domain.table.shared.load::<LoadWord>(&mut task.seat, at)
}

/// Takes note of page `word`, which a walk took for the task by its entry of slot 0 or 1: clears the own flag word,
/// DONE with WOKEN. The entry is off, as the task has found. From then on it keeps the page by its own history.
pub fn page_note(domain: &Domain, task: &mut Task, slot: u8, word: u8)
    requires of { task.old.domain ≡ domain.now }
    requires up { IsUp task.old }
    requires slot { slot < SLOTS }
    requires given { was_given_at (index task.old.view.number slot) (asks_for task.old) ≡ Some word }
    requires off { QueuesNoPage task.old (index task.old.view.number slot) }
    ensures step { task.new ≡ added task.old (item.Made (step.Unflag (index task.old.view.number slot) (Some word))) }
    ensures keeps { KeepsBitOf task.new (page word) }
    ensures notes { NotesPage task.old task.new word }
{
    note_as::<Brand>(domain, task, slot, word);
}

fn note_as<J: Numbering>(domain: &Domain, task: &mut Task, slot: u8, word: u8)
    requires page { word ≡ J.number }
    requires of { task.old.domain ≡ domain.now }
    requires slot { slot < SLOTS }
    requires given { was_given_at (index task.old.view.number slot) (asks_for task.old) ≡ Some word }
    requires off { QueuesNoPage task.old (index task.old.view.number slot) }
    ensures { task.new ≡ added task.old (item.Made (step.Unflag (index task.old.view.number slot) (Some word))) }
{
    let at = flag_at(task.number, slot) as usize;
    let none = flag_word_of(false);
    domain
        .table
        .shared
        .store::<Note<J>>(&mut task.seat, at, none);
}
