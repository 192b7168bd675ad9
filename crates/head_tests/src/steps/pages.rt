//! A page that is handed over, by the single steps of two tasks in one thread: one queues an entry for it and finds it
//! set, who holds it clears it and hands it over in a hold of its head, and the first one takes note of it.

ghost use Rattle.std.specs.Prelude.{◌≡◌, ◌<◌, true, None};
ghost use Rattle.wait_model.specs.declared.layout.TheConstants.{PAGES, TASKS};
ghost use Rattle.wait_model.specs.declared.steps.Step.TheVariants as step;
ghost use Rattle.wait_model.specs.Watches.{head_of as head_for, is_page, page};
ghost use Rattle.wait_rule.specs.{Asked.nothing_asked, Bits.KeepsBitOf};
ghost use Rattle.wait_rule.specs.Looking.{IsQueuedForPage, ShowsEmpty, StaysIdle, page_entry};
ghost use Rattle.wait_rule.specs.Queues.{IsAgreed, IsIdle, IsLocked, index};
ghost use Rattle.wait_rule.specs.Says.{IsUp, asks_for, stored_with};

use crate::scenes::{Beside, want_beside};
use crate::steps::queues::{see_entries, see_marks, take_turn};
use std::sync::Wait;
use std::test::Fail;
use wait_model::entry_words::EntryWord;
use wait_model::heads::head_of;
use wait_model::layout::{FIRST_PLACE, HANDED};
use wait_model::watches::{Entry, Kind, Watch};
use wait_model::words::bit_at;
use wait_rule::bits::{bit_clear, bit_set};
use wait_rule::domain::{Domain, Task};
use wait_rule::pages::{bit_set_for, flag_load, hand_over, page_note};
use wait_rule::queues::{entry_load, lock_step, queue_member, serve, unlock_step};

/// Takes a page that nobody has; false where it is taken.
fn take_page(domain: &Domain, task: &mut Task, word: u8) -> bool
    requires of { task.old.domain ≡ domain.now }
    requires up { IsUp task.old }
    requires idle { IsIdle task.old }
    requires word { word < PAGES }
    ensures stays { StaysIdle task.old task.new }
    ensures keeps { result ≡ true → KeepsBitOf task.new (page word) }
{
    !bit_at(bit_set(domain, task, word, 0), 0)
}

/// Queues the own entry for a page on the empty queue of its head.
fn queue_for_page(domain: &Domain, task: &mut Task, word: u8)
    requires of { task.old.domain ≡ domain.now }
    requires up { IsUp task.old }
    requires held { IsLocked task.old }
    requires agreed { IsAgreed task.old }
    requires word { word < PAGES }
    requires few { task.old.view.number < TASKS }
    requires at { task.old.at ≡ head_for (page word) }
    requires none { ShowsEmpty task.old }
    requires asks { asks_for task.old ≡ nothing_asked }
    ensures { task.new ≡ stored_with task.old (step.Queue (index task.old.view.number 0) (page_entry word)) }
{
    let entry = Entry {
        watch: Watch::Bit { word, bit: 0 },
        place: FIRST_PLACE,
        exclusive: true,
        priority: false,
        kind: Kind::Page,
    };
    queue_member(domain, task, 0, EntryWord::of(entry));
}

/// Begins to wait for a page: queues the own entry, and tries the page in the same hold. True where it found it set.
fn come_for_page(domain: &Domain, task: &mut Task, word: u8) -> bool
    requires of { task.old.domain ≡ domain.now }
    requires up { IsUp task.old }
    requires idle { IsIdle task.old }
    requires word { word < PAGES }
    requires asks { asks_for task.old ≡ nothing_asked }
    ensures waits { result ≡ true → StaysIdle task.old task.new }
    ensures asks { result ≡ true → IsQueuedForPage task.new word }
{
    let _me = task.number();
    let head = head_of(Watch::Bit { word, bit: 0 });
    if !take_turn(domain, task, head) {
        return false;
    }
    lock_step(domain, task, head, None);
    if !see_entries(domain, task) || !see_marks(domain, task) {
        return false;
    }
    queue_for_page(domain, task, word);
    let found = bit_set(domain, task, word, 0);
    unlock_step(domain, task, false);
    serve(domain, task).wake(domain);
    bit_at(found, 0)
}

/// Whether an entry is one for this page.
fn is_for(entry: Entry, word: u8) -> bool
    ensures kind { result ≡ true → is_page entry.kind ≡ true }
    ensures watch { result ≡ true → entry.watch ≡ page word }
{
    match entry.kind {
        Kind::Page => match entry.watch {
            Watch::Bit { word: other, bit } => other == word && bit == 0,
            _ => false,
        },
        _ => false,
    }
}

/// In a hold of its head: hands a page over to the task whose entry of slot 0 is one for it. False where it has none,
/// or the page is taken.
fn give_page<R: Wait>(rt: &R, domain: &Domain, task: &mut Task, word: u8, who: u8) -> bool
    requires of { task.old.domain ≡ domain.now }
    requires up { IsUp task.old }
    requires held { IsLocked task.old }
    requires agreed { IsAgreed task.old }
    requires word { word < PAGES }
    requires at { task.old.at ≡ head_for (page word) }
    ensures of { task.new.domain ≡ task.old.domain }
    ensures at { task.new.at ≡ task.old.at }
    ensures book { task.new.book ≡ task.old.book }
{
    task.told();
    let Some(entry) = entry_load(domain, task, who, 0).entry() else {
        return false;
    };
    if !is_for(entry, word) {
        return false;
    }
    if bit_at(bit_set_for(domain, task, word, who, 0), 0) {
        return false;
    }
    hand_over(rt, domain, task, who, 0);
    true
}

/// Hands a page over to a task that waits for it, in a hold of its own.
fn hand_page<R: Wait>(rt: &R, domain: &Domain, task: &mut Task, word: u8, who: u8) -> bool
    requires of { task.old.domain ≡ domain.now }
    requires up { IsUp task.old }
    requires idle { IsIdle task.old }
    requires word { word < PAGES }
{
    let head = head_of(Watch::Bit { word, bit: 0 });
    if !take_turn(domain, task, head) {
        return false;
    }
    lock_step(domain, task, head, None);
    let given = give_page(rt, domain, task, word, who);
    unlock_step(domain, task, false);
    serve(domain, task).wake(domain);
    given
}

/// Finds the own entry off, loads the flag word, and takes note of the page; false where the entry is queued still, or
/// DONE is not in that word.
fn note_page(domain: &Domain, task: &mut Task, word: u8) -> bool
    requires of { task.old.domain ≡ domain.now }
    requires up { IsUp task.old }
    requires idle { IsIdle task.old }
    requires word { word < PAGES }
    requires waits { IsQueuedForPage task.old word }
    ensures stays { StaysIdle task.old task.new }
    ensures keeps { result ≡ true → KeepsBitOf task.new (page word) }
{
    let me = task.number();
    if entry_load(domain, task, me, 0).queued() {
        return false;
    }
    let found = flag_load(domain, task, 0);
    page_note(domain, task, 0, word);
    found == HANDED
}

/// Whether a task comes to wait for a page that another one has, and gets it once that one clears it and hands it over.
pub(crate) fn gets_page<R: Wait>(rt: &R, domain: &Domain, task: &mut Task, other: &mut Task) -> bool
    requires of { (task.old.domain ≡ domain.now) × (other.old.domain ≡ domain.now) }
    requires up { IsUp task.old × IsUp other.old }
    requires idle { IsIdle task.old × IsIdle other.old }
    requires asks { asks_for task.old ≡ nothing_asked }
{
    if !take_page(domain, other, 3) || !come_for_page(domain, task, 3) {
        return false;
    }
    bit_clear(domain, other, 3, 0);
    if !hand_page(rt, domain, other, 3, 0) || !note_page(domain, task, 3) {
        return false;
    }
    bit_clear(domain, task, 3, 0);
    true
}

/// A page that one task waits for is handed over to it by who held it, and it gives it back.
#[test]
fn a_page_is_handed(rt: HostRuntime) -> Result<(), Fail> {
    want_beside(&rt, rt.alloc(), Beside::GetsPage)
}
