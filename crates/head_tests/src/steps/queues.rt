//! One happy path of each step on heads, entries, flags, bookmarks and conditions, in one thread.

ghost use Rattle.std.specs.Prelude.{◌≡◌, ◌<◌, ◌-◌, true, None};
ghost use Rattle.wait_model.specs.declared.layout.TheConstants.{TASKS, ENTRIES, HEADS, MEMBER_WORDS, FIRST_PLAIN_HEAD};
ghost use Rattle.wait_model.specs.declared.layout.TheConstants.{FIRST_SIMPLE_HEAD};
ghost use Rattle.wait_model.specs.Tasks.{IsState};
ghost use Rattle.wait_rule.specs.declared.journal.Item.TheVariants as item;
ghost use Rattle.wait_rule.specs.{Asked.nothing_asked, LookCounts.Looked};
ghost use Rattle.wait_rule.specs.Says.{IsFree, IsUp, RestsIn, added, asks_for, newcomer, noted};
ghost use Rattle.wait_rule.specs.Queues.{IsTurn, IsLocked, IsAgreed, MayRise};
ghost use Rattle.wait_rule.specs.Stays.{Carries, StaysOwing, unchanged};
ghost use Rattle.wait_rule.specs.Looking.{HasSeenEntries, HasSeenMarks, IsSelectingHold, ShowsEmpty};

use crate::scenes::{Alone, Beside, Seen, want, want_all, want_beside};
use std::sync::Wait;
use std::test::Fail;
use wait_model::entry_words::EntryWord;
use wait_model::layout::{
    ENTRIES, FIRST_DONE_HEAD, FIRST_PLACE, FIRST_PLAIN_HEAD, MEMBER_WORDS, RUNNING, SLOTS, TASKS,
    UNINTERRUPTIBLE,
};
use wait_model::queues::Mark;
use wait_model::watches::{Aim, Entry, Kind, Mode, Watch};
use wait_model::words::mark_word_of;
use wait_rule::domain::{Domain, Task};
use wait_rule::flags::{woken_clear, woken_load, woken_set};
use wait_rule::queues::{
    cond_load, consume, draw, entry_load, lock_step, mark_load, mark_store, member_load,
    member_store, publish, queue_store, serve, serving_load, unlock_step, unqueue_store,
};
use wait_rule::tasks::{set_state, wake_exchange};

/// Draws a ticket of a head: true where it is served.
pub(crate) fn take_turn(domain: &Domain, task: &mut Task, head: u16) -> bool
    requires of { task.old.domain ≡ domain.now }
    requires up { IsUp task.old }
    requires free { IsFree task.old }
    requires head { head < HEADS }
    ensures steps { (n : _) × (w : _) × (task.new ≡ added (added task.old (item.Drawn head n)) (item.Serving head w)) }
    ensures turn { result ≡ true → IsTurn task.new head }
    ensures owing { StaysOwing task.old task.new }
{
    let ticket = draw(domain, task, head);
    serving_load(domain, task, head) == ticket
}

/// A hold by single steps in which a state is stored, of a task whose ticket is served at once: whatever it is excused
/// of, it owes no more behind it, by what each step carries. False where another ticket is served: its own is out then.
fn pass_by_steps(domain: &Domain, task: &mut Task, head: u16, state: u32) -> bool
    requires of { task.old.domain ≡ domain.now }
    requires up { IsUp task.old }
    requires running { task.old.book.state ≡ 0 }
    requires free { IsFree task.old }
    requires head { head < FIRST_SIMPLE_HEAD }
    requires state { IsState state }
    ensures of { task.new.domain ≡ domain.now }
    ensures up { IsUp task.new }
    ensures owing { StaysOwing task.old task.new }
    ensures state { result ≡ true → task.new.book.state ≡ state }
    ensures free { result ≡ true → IsFree task.new }
{
    if !take_turn(domain, task, head) {
        return false;
    }
    lock_step(domain, task, head, None);
    set_state(domain, task, state);
    unlock_step(domain, task, false);
    serve(domain, task).wake(domain);
    true
}

/// Whether it does so with a state and then without one.
pub(crate) fn passes_twice(domain: &Domain, task: &mut Task) -> bool
    requires rests { RestsIn domain.now task.old }
{
    if !pass_by_steps(domain, task, FIRST_PLAIN_HEAD, UNINTERRUPTIBLE) {
        return false;
    }
    set_state(domain, task, RUNNING);
    pass_by_steps(domain, task, FIRST_PLAIN_HEAD, RUNNING)
}

/// A task that owes nothing passes a head by single steps, and owes nothing then.
#[test]
fn passes_by_steps(rt: HostRuntime) -> Result<(), Fail> {
    want(&rt, rt.alloc(), Alone::PassesTwice)
}

/// Looks at all entry words; true where none shows an entry.
pub(crate) fn see_entries(domain: &Domain, task: &mut Task) -> bool
    requires of { task.old.domain ≡ domain.now }
    requires up { IsUp task.old }
    requires held { IsLocked task.old }
    ensures { HasSeenEntries task.old task.new result ENTRIES }
{
    task.told();
    let mut empty = true;
    for i in 0..ENTRIES as usize {
        if entry_load(domain, task, (i / 2) as u8, (i % 2) as u8).queued() {
            empty = false;
        }
    }
    empty
}

/// Looks at all bookmark words; true where none shows a bookmark.
pub(crate) fn see_marks(domain: &Domain, task: &mut Task) -> bool
    requires of { task.old.domain ≡ domain.now }
    requires up { IsUp task.old }
    requires held { IsLocked task.old }
    ensures { HasSeenMarks task.old task.new result TASKS }
{
    task.told();
    let mut empty = true;
    for who in 0..TASKS {
        if mark_load(domain, task, who as u8) != 0 {
            empty = false;
        }
    }
    empty
}

/// Looks at all member words of a head without its lock; true where none has a bit.
fn see_no_bits(domain: &Domain, task: &mut Task, head: u16) -> bool
    requires of { task.old.domain ≡ domain.now }
    requires up { IsUp task.old }
    requires out { task.old.book.head ≡ None }
    requires head { head < HEADS }
    ensures looks { Looked MEMBER_WORDS task.old task.new }
    ensures carries { Carries unchanged task.old task.new }
{
    let mut empty = true;
    for i in 0..MEMBER_WORDS {
        if member_load(domain, task, head, i as u8) != 0 {
            empty = false;
        }
    }
    empty
}

/// Whether one sees no bit of a head before another task holds it, and while it does.
pub(crate) fn sees_no_bits_twice(domain: &Domain, task: &mut Task, other: &mut Task) -> bool
    requires rest { RestsIn domain.now task.old × RestsIn domain.now other.old }
{
    publish(domain, task, Watch::Plain { cond: 0 }, 1);
    let before = see_no_bits(domain, task, FIRST_PLAIN_HEAD);
    if !take_turn(domain, other, FIRST_PLAIN_HEAD) {
        return false;
    }
    lock_step(domain, other, FIRST_PLAIN_HEAD, None);
    let beside = see_no_bits(domain, task, FIRST_PLAIN_HEAD);
    unlock_step(domain, other, false);
    before && beside
}

/// A head without members shows no bit to who set its condition and holds no lock, also while another one holds it.
#[test]
fn members_without_the_lock(rt: HostRuntime) -> Result<(), Fail> {
    want_beside(&rt, rt.alloc(), Beside::SeesNoBits)
}

/// What loads and takes show of what was published.
pub(crate) fn publish_and_load(domain: &Domain, task: &mut Task) -> [bool; 6]
    requires rests { RestsIn domain.now task.old }
{
    let plain = Watch::Plain { cond: 47 };
    publish(domain, task, plain, 7);
    let loaded = cond_load(domain, task, plain);
    let first = consume(domain, task, 47);
    let second = consume(domain, task, 47);
    let var = Watch::Var { var: 16, old: 3 };
    publish(domain, task, var, 5);
    [
        loaded == 7,
        first == 7,
        second == 0,
        cond_load(domain, task, var) == 5,
        cond_load(domain, task, Watch::Done { cell: 63 }) == 0,
        cond_load(domain, task, Watch::Bit { word: 127, bit: 63 }) == 0,
    ]
}

/// A plain condition and a variable are published and loaded, and the condition is taken once.
#[test]
fn conditions_alone(rt: HostRuntime) -> Result<(), Fail> {
    want_all(&rt, rt.alloc(), Seen::Publishes)
}

/// Whether another task's ticket is served once the own lock is given back and the serve made, and not before.
pub(crate) fn serves_second(domain: &Domain, task: &mut Task, other: &mut Task) -> bool
    requires rest { RestsIn domain.now task.old × RestsIn domain.now other.old }
{
    if !take_turn(domain, task, FIRST_DONE_HEAD - 1) {
        return false;
    }
    lock_step(domain, task, FIRST_DONE_HEAD - 1, None);
    let second = draw(domain, other, FIRST_DONE_HEAD - 1);
    let held = serving_load(domain, other, FIRST_DONE_HEAD - 1);
    unlock_step(domain, task, false);
    let given = serving_load(domain, other, FIRST_DONE_HEAD - 1);
    serve(domain, task).wake(domain);
    let served = serving_load(domain, other, FIRST_DONE_HEAD - 1);
    task.witness(domain);
    held != second && given != second && served == second
}

/// A second ticket is served once the first one's lock is given back and its serve made; then the task sees that the
/// law holds.
#[test]
fn locks_alone(rt: HostRuntime) -> Result<(), Fail> {
    want_beside(&rt, rt.alloc(), Beside::ServesSecond)
}

/// Queues the own entry on the empty queue of condition 0, sets its flag, puts a bookmark before it, and takes both
/// off.
fn queue_and_leave(domain: &Domain, task: &mut Task)
    requires of { task.old.domain ≡ domain.now }
    requires up { IsUp task.old }
    requires held { IsLocked task.old }
    requires agreed { IsAgreed task.old }
    requires at { task.old.at ≡ FIRST_PLAIN_HEAD }
    requires none { ShowsEmpty task.old }
    requires clear { (noted task.old).own ≡ None }
    requires asks { asks_for task.old ≡ nothing_asked }
    ensures at { task.new.at ≡ task.old.at }
    ensures book { task.new.book ≡ task.old.book }
    ensures domain { task.new.domain ≡ task.old.domain }
{
    let entry = Entry {
        watch: Watch::Plain { cond: 0 },
        place: FIRST_PLACE,
        exclusive: false,
        priority: false,
        kind: Kind::Woken,
    };
    let me = task.number();
    let own = SLOTS * u16::from(me);
    let mark = ENTRIES + u16::from(me);
    queue_store(domain, task, 0, EntryWord::of(entry));
    member_store(domain, task, FIRST_PLAIN_HEAD, own, true);
    woken_set(domain, task, me, 0);
    mark_store(
        domain,
        task,
        mark_word_of(Mark {
            head: FIRST_PLAIN_HEAD,
            place: FIRST_PLACE - 1,
        }),
    );
    member_store(domain, task, FIRST_PLAIN_HEAD, mark, true);
    mark_store(domain, task, 0);
    member_store(domain, task, FIRST_PLAIN_HEAD, mark, false);
    unqueue_store(domain, task, me, 0);
    member_store(domain, task, FIRST_PLAIN_HEAD, own, false);
}

/// Whether the own flag is not set, before and after it is cleared.
pub(crate) fn clears_flag(domain: &Domain, task: &mut Task) -> bool
    requires new { task.old ≡ newcomer domain.now 0 1 (TASKS - 1) }
{
    let before = woken_load(domain, task, 1);
    woken_clear(domain, task, 1);
    let after = woken_load(domain, task, 1);
    !before && !after
}

/// The own flag reads as not set at the start, and after it was cleared.
#[test]
fn own_flag_is_clear(rt: HostRuntime) -> Result<(), Fail> {
    want(&rt, rt.alloc(), Alone::ClearsFlag)
}

/// Whether it finds the queue empty, queues the own entry there, and takes it off.
pub(crate) fn comes_and_leaves(domain: &Domain, task: &mut Task) -> bool
    requires new { task.old ≡ newcomer domain.now 0 1 (TASKS - 1) }
{
    if !take_turn(domain, task, FIRST_PLAIN_HEAD) {
        return false;
    }
    lock_step(domain, task, FIRST_PLAIN_HEAD, None);
    if !see_entries(domain, task) || !see_marks(domain, task) {
        return false;
    }
    queue_and_leave(domain, task);
    unlock_step(domain, task, false);
    true
}

/// An entry is queued and its flag set, with a bookmark before it, and both are taken off again.
#[test]
fn queue_alone(rt: HostRuntime) -> Result<(), Fail> {
    want(&rt, rt.alloc(), Alone::ComesAndLeaves)
}

/// In a hold of a walk that is to select one entry: queues the own entry, which is exclusive, and wakes the own task as
/// the entry's function does. True where it was woken, and then the walk used up its count.
fn select_own<R: Wait>(rt: &R, domain: &Domain, task: &mut Task) -> bool
    requires of { task.old.domain ≡ domain.now }
    requires up { IsUp task.old }
    requires running { task.old.book.state ≡ 0 }
    requires held { IsLocked task.old }
    requires agreed { IsAgreed task.old }
    requires at { task.old.at ≡ FIRST_PLAIN_HEAD }
    requires none { ShowsEmpty task.old }
    requires selecting { IsSelectingHold task.old }
    ensures of { task.new.domain ≡ domain.now }
    ensures up { IsUp task.new }
    ensures held { IsLocked task.new }
    ensures agreed { IsAgreed task.new }
    ensures at { task.new.at ≡ FIRST_PLAIN_HEAD }
    ensures rise { result ≡ true → MayRise task.new true }
{
    let entry = Entry {
        watch: Watch::Plain { cond: 0 },
        place: FIRST_PLACE,
        exclusive: true,
        priority: false,
        kind: Kind::Default,
    };
    let me = task.number();
    queue_store(domain, task, 0, EntryWord::of(entry));
    member_store(domain, task, FIRST_PLAIN_HEAD, SLOTS * u16::from(me), true);
    set_state(domain, task, UNINTERRUPTIBLE);
    wake_exchange(rt, domain, task, me, Mode::Normal.mask())
}

/// Whether it finds the queue empty, and its walk uses up its count.
pub(crate) fn spends_count<R: Wait>(rt: &R, domain: &Domain, task: &mut Task) -> bool
    requires new { task.old ≡ newcomer domain.now 0 1 (TASKS - 1) }
{
    let walk = Aim {
        watch: Watch::Plain { cond: 0 },
        mode: Mode::Normal,
        count: 1,
    };
    if !take_turn(domain, task, FIRST_PLAIN_HEAD) {
        return false;
    }
    lock_step(domain, task, FIRST_PLAIN_HEAD, Some(walk));
    if !see_entries(domain, task) || !see_marks(domain, task) {
        return false;
    }
    if !select_own(rt, domain, task) {
        return false;
    }
    unlock_step(domain, task, true);
    task.witness(domain);
    true
}

/// A walk that used up its count in a hold raises the head's spent count.
#[test]
fn spent_unlock(rt: HostRuntime) -> Result<(), Fail> {
    want(&rt, rt.alloc(), Alone::SpendsCount)
}
