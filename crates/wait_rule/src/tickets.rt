//! The steps on tickets: the holds of a head come in the order in which their tickets were drawn. No step here is one
//! of a history.

ghost use Rattle.std.specs.Prelude.{◌≡◌, ◌<◌};
ghost use Rattle.wait_model.specs.declared.layout.TheConstants.{HEADS};
ghost use Rattle.wait_rule.specs.declared.journal.Item.TheVariants as item;
ghost use Rattle.wait_rule.specs.{Queues.HasGiven, Stays.Carries, Stays.ticket_change};
ghost use Rattle.wait_rule.specs.Says.{IsFree, IsUp, ServesUnlocks, added};
ghost use Rattle.wait_rule.specs.Tickets.{after_serving, drawn, no_ticket};

use crate::domain::{Domain, Task};
use crate::queue_plays::{Draw, LoadServing, Serve};
use std::sync::Wait;
use wait_model::layout::HEADS;
use wait_model::positions::{next_at, serving_at};

/// Draws a ticket of head `head`, below `HEADS`: its number, modulo 2^64. The task has it out from then on.
#[inline(always)]
pub fn draw(domain: &Domain, task: &mut Task, head: u16) -> u64
    requires of { task.old.domain ≡ domain.now }
    requires up { IsUp task.old }
    requires free { IsFree task.old }
    requires head { head < HEADS }
    ensures step { task.new ≡ added task.old (item.Drawn head result) }
    ensures carries { Carries (ticket_change (λ _. drawn head result)) task.old task.new }
{
    let at = next_at(head) as usize;
    domain.table.shared.fetch_add::<Draw>(&mut task.seat, at, 1)
}

/// The number of head `head`, below `HEADS`, that is served, modulo 2^64. Where it is the one that the task drew of
/// this head, the task knows from then on that its ticket is served. It counts the locks of the head that were given
/// back, but for one whose serve is still to come: a task that has joined all others finds them in its histories.
#[inline(always)]
pub fn serving_load(domain: &Domain, task: &mut Task, head: u16) -> u64
    requires of { task.old.domain ≡ domain.now }
    requires up { IsUp task.old }
    requires head { head < HEADS }
    ensures step { task.new ≡ added task.old (item.Serving head result) }
    ensures counts { ServesUnlocks task.old.view head result }
    ensures carries { Carries (ticket_change (after_serving head result)) task.old task.new }
{
    let at = serving_at(head) as usize;
    domain.table.shared.load::<LoadServing>(&mut task.seat, at)
}

/// A lock that was passed on: the threads that park until the next ticket of its head is served are still to be woken.
/// It is linear: who has it wakes them, or says aloud that it hands that on.
pub struct Passed {
    head: u16,
}

impl Passed {
    /// Wakes the threads that park until another number of the head is served, where a ticket of it is out: all of
    /// them, since one alone might not be the one whose ticket is served now. `domain` is the one of the lock. It takes
    /// no task: no word changes, and no task knows more or less after it.
    #[inline(always)]
    pub fn wake(self, domain: &Domain) {
        wake_waiters(domain, self.hand_on());
    }

    /// The head, for who wakes those that wait for it in a way of its own, as a loop that tells another language does,
    /// or where nobody parks.
    #[inline(always)]
    pub fn hand_on(self) -> u16
        ensures { result ≡ self.head }
    {
        let Passed { head } = self;
        head
    }
}

/// Serves the next ticket of the head whose lock the task has given back. It has no ticket out from then on. No thread
/// is woken by it: that is left to whoever has the lock that it passed on.
#[inline(always)]
pub fn serve(domain: &Domain, task: &mut Task) -> Passed
    requires of { task.old.domain ≡ domain.now }
    requires given { HasGiven task.old }
    ensures served { task.new ≡ added task.old item.Served }
    ensures head { result.head ≡ task.old.at }
    ensures carries { Carries (ticket_change (λ _. no_ticket)) task.old task.new }
{
    let head = task.head;
    let at = serving_at(head) as usize;
    domain
        .table
        .shared
        .fetch_add::<Serve>(&mut task.seat, at, 1);
    Passed { head }
}

/// Wakes the threads that park until another number of head `head` is served, where there is such a head and a ticket
/// of it is out.
#[inline(always)]
pub(crate) fn wake_waiters(domain: &Domain, head: u16) {
    if head < HEADS {
        let drawn = domain.table.shared.peek(next_at(head) as usize);
        let at = serving_at(head) as usize;
        if domain.table.shared.peek(at) != drawn {
            domain.table.shared.wake_all(at);
        }
    }
}

/// Parks the thread while head `head`, below `HEADS`, serves the number `found`. It may return for no reason. At most
/// `TASKS` tickets are out, so two numbers that a waiting task finds there differ in their lower 32 bits. It takes no
/// task: no word changes, and no task knows more or less after it.
pub fn park_until_next<R: Wait>(rt: &R, domain: &Domain, head: u16, found: u64)
    requires { head < HEADS }
{
    let at = serving_at(head) as usize;
    domain
        .table
        .shared
        .park(rt, at, (found & 0xffff_ffff) as u32);
}
