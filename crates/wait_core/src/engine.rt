//! A core: the words of tasks, heads and conditions, the open calls, and the run that led to them.

ghost use Rattle.std.specs.Prelude.{◌≡◌, ◌+◌, ◌<◌, ◌≤◌, ◌++◌, ◌∷◌, ◌^◌, [], IfOk, IfSome, IsTrue, ◌↔◌, length};
ghost use Rattle.std.specs.Prelude.{vec_capacity, nat_lt};
ghost use Rattle.std.specs.Prelude.{◌*◌, ℕ, slice_index, slice_get};
ghost use Rattle.wait_core.specs.{Ended.answer_of, Spoken.EndsSentence};
ghost use Rattle.wait_model.specs.{Admission.IsListed, Followed.LeavesNobody, Locations.Shows, Programs.program};
ghost use Rattle.wait_model.specs.{Runs.is_open, Runs.progress_at, Tables.start, declared.points.Point.Point};
ghost use Rattle.wait_model.specs.declared.layout.TheConstants.{MEMBERS, WORDS, PLACES};
ghost use Rattle.wait_model.specs.declared.points.Progress.TheVariants as now;

use crate::changes::{change_by, class_at};
use crate::index::{RankedMember, reindex};
use crate::keepers::{keep, keeps_of, no_keepers, none_taken};
use crate::reads::{Found, arrived_at, held_head, read_entry, read_task, seen_at};
use crate::scan::member_ranked;
use std::alloc::{AllocError, Global};
use std::marker::Model;
use thiserror::Error;
use wait_model::admission::{is_in_range, is_queued_twice, lacks_bit, lacks_entry};
use wait_model::calls::{Answer, Call, Event, Ran};
use wait_model::layout::{ENTRY_AT, EVENTS, MEMBERS, RUN_ITEMS, RUNNABLE, TASK_AT, TASKS, WORDS};
use wait_model::points::{Next, Planned, Point, Progress};
use wait_model::programs::start_of;
use wait_model::queues::Member;
use wait_model::tasks::TaskRecord;

/// What a step did.
#[derive(Clone, Copy)]
pub enum Stepped {
    Made { event: Event, ended: Option<Answer> },
    NoCall,
    Asleep,
    Busy { head: u16 },
    Full,
}

/// Why a call was not opened.
#[derive(Clone, Copy, Debug, Error)]
pub enum StartFault {
    #[error("the task's last call has not ended")]
    CallOpen = 2,
    #[error("a number or a condition of the call is out of its range")]
    NoSuchCond = 3,
    #[error("the task does not hold the bit")]
    NotHeld = 4,
    #[error("the task's entry is queued already")]
    EntryQueued = 5,
    #[error("the task has added no entry such as the call wants")]
    NoEntry = 6,
}

/// The words, the open calls and the run.
#[derive(Drop)]
pub struct Core {
    words: Vec<u64>,
    progress: Vec<Progress>,
    run: Vec<Ran>,
    made: u32,
    /// The task that keeps each bit.
    keepers: Vec<Option<u8>>,
    /// The page that a walk took for each task, which has not taken note of it yet.
    taken: Vec<Option<u8>>,
    /// The members of all queues, by rising head and rank.
    index: Vec<RankedMember>,
}

impl Model for Core {
    ghost use Rattle.std.specs.Prelude.{List, vec_capacity};
    ghost use Rattle.wait_core.specs.Core.{IsIndexedCore};
    ghost use Rattle.wait_model.specs.declared.calls.Ran.{Ran};

    ghost Value = { List Ran };

    ghost view = { λ c. c.run.items };

    ghost invariant = { λ c. IsIndexedCore c.words.items c.progress.items c.run.items c.made (vec_capacity c.run)
        c.keepers.items c.taken.items c.index.items (vec_capacity c.index) };
}

impl Core {
    ghost use Rattle.std.specs.Prelude.{IsNone};
    ghost use Rattle.wait_core.specs.Members.{IsNextAt};
    ghost use Rattle.wait_core.specs.Stepped.{stepped, items_of, started, opened_by, call_shown};
    ghost use Rattle.wait_core.specs.Stepped.{MayStep, IsFound, IsStep};
    ghost use Rattle.wait_model.specs.BitKeepers.{AreKept};
    ghost use Rattle.wait_model.specs.Completions.{CountsAreBalanced};
    ghost use Rattle.wait_model.specs.Laws.{NoLostWake, NoLostFlag};
    ghost use Rattle.wait_model.specs.Lent.{NoPageIsLeft};
    ghost use Rattle.wait_model.specs.Locations.{Location, IsLocation, position_of, word_in};
    ghost use Rattle.wait_model.specs.Openings.{IsOpened};
    ghost use Rattle.wait_model.specs.Permits.{PermitsAreHanded};
    ghost use Rattle.wait_model.specs.Queues.{member_from, rank, IsInOrder};
    ghost use Rattle.wait_model.specs.Runs.{state_of, made_in};
    ghost use Rattle.wait_model.specs.Selections.{IsOrderly};
    ghost use Rattle.wait_model.specs.Spoken.{BeginsOpen};
    ghost use Rattle.wait_model.specs.Waiters.{NoWaiterIsLost};
    ghost use Rattle.wait_model.specs.Wakes.{NoWakeIsLost};

    /// The run: the calls that were opened and the events that were made.
    pub fn ran(&self) -> &[Ran]
        ensures { result.now ≡ self.now }
    {
        self.run.as_slice()
    }

    /// All words as at the start of a Domain, no call open, and an empty run with its room.
    pub fn new(alloc: Global) -> Result<Core, AllocError>
        ensures { IfOk result (λ core. core ≡ []) }
    {
        let words = first_words(alloc)?;
        let progress = nobody(alloc, usize::from(TASKS))?;
        let run = Vec::with_capacity(alloc, RUN_ITEMS)?;
        let keepers = no_keepers(alloc)?;
        let taken = none_taken(alloc)?;
        let index = Vec::with_capacity(alloc, usize::from(MEMBERS))?;
        Ok(Core {
            words,
            progress,
            run,
            made: 0,
            keepers,
            taken,
            index,
        })
    }

    /// Whether a task's call is open; `None` where it never had one, that is, where the run has opened none.
    pub fn call_of(&self, task: u8) -> Option<bool>
        ensures call { result ≡ call_shown ((state_of self.now).progress task) }
        ensures never { IsNone result ↔ (IsOpened task self.now → ⊥) }
    {
        match self.progress[usize::from(task)] {
            Progress::Fresh => None,
            Progress::Idle => Some(false),
            Progress::Open { .. } => Some(true),
        }
    }

    /// How many events were made, at most `EVENTS`.
    pub fn made(&self) -> u32
        ensures { result ≡ made_in self.now }
    {
        self.made
    }

    /// A task's record.
    pub fn task_of(&self, task: u8) -> TaskRecord
        ensures { result ≡ (state_of self.now).table.task task }
    {
        read_task(&self.words, task)
    }

    /// The next member of a head from a rank on, or `None` where it has none from there on. Its members are exactly
    /// the entries and the bookmarks whose words name the head. They stand by rising rank, so going on with the rank
    /// above each member's meets them all in order.
    pub fn member_from(&self, head: u16, least: u64) -> Option<Member>
        ensures next { IsNextAt (state_of self.now).table head least result }
        ensures member { result ≡ member_from least ((state_of self.now).queue head) }
        ensures fits { IfSome result (λ m. (m.at < MEMBERS) × (least ≤ rank m) × (m.place < PLACES)) }
        ensures order { IsInOrder ((state_of self.now).queue head) }
    {
        member_ranked(&self.words, &self.index, head, least)
    }

    /// The word at a position.
    pub fn word_at(&self, position: u32) -> u64
        requires { position < WORDS }
        ensures { (l : Location) → IsLocation l → position_of l ≡ position
            → result ≡ word_in (state_of self.now).table l }
    {
        self.words[position as usize]
    }

    /// No wake is lost in the state of any core. Whoever sleeps on a plain condition, a completion, a bit, a page or a
    /// variable that is set is covered by a task that owes the wake, or a walk has used up its count on others
    /// since, or some task is trying the bit. `wake` and `flag` say so in terms of views, `told` by the tasks'
    /// histories alone, and `waiters` that each task that is asleep in a wait sleeps in that sense.
    pub fn no_lost_wake(&self)
        ensures wake { NoLostWake (state_of self.now).table }
        ensures flag { NoLostFlag (state_of self.now).table }
        ensures told { NoWakeIsLost (state_of self.now).table }
        ensures waiters { NoWaiterIsLost (state_of self.now) }
    {
        let _ = &self.run;
    }

    /// The run of any core is orderly. A walk with a count above 0 has selected at most that count, and its answer
    /// tells how many. A wake of one of a simple queue and a `complete` have taken off at most one entry, and the
    /// answer of a wake of a simple queue tells how many it took off. A wait that ends with `RESTART` does so by a load
    /// of its condition that found it not set, in a turn that a signal ended, with its entry off. A wait for a bit that
    /// ends with `INTERRUPTED` found the bit set in a turn that a signal ended, and one that takes the bit has tried
    /// once more and found it set. A wait for a page that ends so found the page set in the hold in which it queued its
    /// entry, and its flag not set in its last turn, which a signal ended, and after it. And each task has accepted, or
    /// has pending, at most the signals that were raised at it, and the same of fatal ones.
    pub fn is_orderly(&self)
        ensures { IsOrderly self.now }
    {
        let _ = &self.run;
    }

    /// Every completion of any core is accounted for: what its stores raised and granted is what they lowered,
    /// what they threw away, and what stands now.
    pub fn counts_are_balanced(&self)
        ensures { CountsAreBalanced (state_of self.now).table }
    {
        let _ = &self.run;
    }

    /// Permits of any core are handed on exactly: while the lock of a completion's head is free and a task is queued
    /// there, the count is at most the number of tasks whose entry there another task took off and that have not taken
    /// the lock since. (`complete`, `wait_for_common` in kernel/sched/completion.c, `swake_up_locked` in
    /// kernel/sched/swait.c)
    pub fn permits_are_handed_on(&self)
        ensures { PermitsAreHanded (state_of self.now).table }
    {
        let _ = &self.run;
    }

    /// What a task of any core has made of its open call follows the call's sentence as far as it goes.
    pub fn open_calls_begin(&self)
        ensures { (t : ℕ) → BeginsOpen self.now t }
    {
        let _ = &self.run;
    }

    /// Each bit of any core is set exactly where one task holds it: by an exchange of its own that found it clear, or,
    /// for a page, by one that a walk made for it, and not cleared by that task since. So a page that was handed to a
    /// task has that task as its only holder, also while it sleeps; and until the task takes note of it, it has a call
    /// open that locks this page.
    pub fn bits_are_kept(&self)
        ensures kept { AreKept (state_of self.now).table }
        ensures lent { NoPageIsLeft (state_of self.now) }
    {
        let _ = &self.run;
    }

    /// Opens a call of a task; it makes no event. Refused by the first of these that stands, and then
    /// nothing changes: the task's call has not ended; a number or a condition is out of
    /// its range; the bit that it would clear is not one that the task keeps; a call that queues finds the own
    /// entry queued; `remove` or `woken` finds none, or `woken` one of another kind.
    // A script is played in two ways; out of line an opening takes some 25 instructions more.
    #[inline(always)]
    pub fn start(&mut self, task: u8, call: Call) -> Result<(), StartFault>
        requires { IsListed call }
        ensures answer { result ≡ started (state_of self.old) task call }
        ensures run { self.new ≡ self.old ++ opened_by task call result }
    {
        let slot = usize::from(task);
        if is_open_at(self.progress[slot]) {
            return Err(StartFault::CallOpen);
        }
        if !is_in_range(task, call) {
            return Err(StartFault::NoSuchCond);
        }
        if lacks_bit(call, keeps_of(&self.keepers, task, call)) {
            return Err(StartFault::NotHeld);
        }
        let entry = read_entry(&self.words, task);
        if is_queued_twice(call, entry) {
            return Err(StartFault::EntryQueued);
        }
        if lacks_entry(call, entry) {
            return Err(StartFault::NoEntry);
        }
        self.progress[slot] = Progress::Open {
            call,
            point: start_of(call),
        };
        log(&mut self.run, Ran::Opened { task, call });
        Ok(())
    }

    /// Makes a task's next event. What the task has made of a call when it ends follows the call's sentence, and the
    /// call's answer is the one that the sentence gives. After it, where a task of the run has published a watch and
    /// then ended a wake of it at the end of the queue, nobody sleeps on the watch for whom it was set at each moment
    /// since the publish.
    pub fn step(&mut self, task: u8) -> Stepped
        ensures answer { result ≡ stepped (state_of self.old) (made_in self.old) task ((state_of self.old).progress
            task) }
        ensures run { self.new ≡ self.old ++ items_of (state_of self.old) task result }
        ensures sentence { EndsSentence self.old task result }
        ensures setters { LeavesNobody self.new }
    {
        let Progress::Open { call, point } = self.progress[usize::from(task)] else {
            return Stepped::NoCall;
        };
        if !read_task(&self.words, task).runnable {
            return Stepped::Asleep;
        }
        self.step_open(task, call, point)
    }

    /// What a task finds at the point of its open call.
    #[inline(always)]
    pub(crate) fn look(&self, task: u8, call: Call, point: Point) -> Found
        requires { MayStep self.now task call point }
        ensures { IsFound self.now task call point result }
    {
        let walk = arrived_at(&self.words, &self.index, call, point);
        let seen = seen_at(&self.words, &self.index, task, call, point, walk);
        Found { seen, walk }
    }

    /// Makes the event that the program of a task's open call gives at its point, unless the event's lock is held or
    /// the run is full.
    #[inline(always)]
    pub(crate) fn make(
        &mut self,
        task: u8,
        call: Call,
        point: Point,
        found: Found,
        planned: Planned,
    ) -> Stepped
        requires may { MayStep self.old task call point }
        requires found { IsFound self.old task call point found }
        requires planned { planned ≡ program task call point found.seen }
        ensures { IsStep self.old task result self.new }
    {
        let event = planned.event;
        if let Some(head) = held_head(&self.words, event) {
            return Stepped::Busy { head };
        }
        if self.made == EVENTS {
            return Stepped::Full;
        }
        let change = change_by(
            &self.words,
            &self.index,
            task,
            call,
            point,
            event,
            found.walk,
        );
        let class = class_at(task, event);
        reindex(&mut self.index, &self.words, class, change.left);
        self.words[change.at] = change.left;
        keep(&mut self.keepers, &mut self.taken, task, event);
        advance(&mut self.progress[usize::from(task)], planned.next);
        let item = Ran::Made {
            task,
            event,
            found: change.found,
        };
        log(&mut self.run, item);
        self.made += 1;
        Stepped::Made {
            event,
            ended: ended(planned.next),
        }
    }
}

/// Brings an open call along to where it stands after an event.
#[inline(always)]
fn advance(progress: &mut Progress, next: Next)
    ensures { (call : Call) (p : Point) → progress.old ≡ now.Open call p → progress.new ≡ progress_at call next }
{
    match next {
        Next::Go(to) => {
            if let Progress::Open { point, .. } = progress {
                *point = to;
            }
        }
        Next::Ends(_) => *progress = Progress::Idle,
    }
}

/// The answer of a call that ended.
#[inline(always)]
fn ended(next: Next) -> Option<Answer>
    ensures { result ≡ answer_of next }
{
    match next {
        Next::Go(_) => None,
        Next::Ends(answer) => Some(answer),
    }
}

/// Adds an item to a run with room for it.
#[inline(always)]
fn log(run: &mut Vec<Ran>, item: Ran)
    requires { length run.old.items < vec_capacity run.old }
    ensures items { run.new.items ≡ run.old.items ++ item ∷ [] }
    ensures capacity { vec_capacity run.old ≤ vec_capacity run.new }
{
    let _ = run.push(item);
}

/// Whether a call is open.
fn is_open_at(progress: Progress) -> bool
    ensures { result ≡ is_open progress }
{
    match progress {
        Progress::Fresh | Progress::Idle => false,
        Progress::Open { .. } => true,
    }
}

/// So many words of 0.
fn zeros(alloc: Global, count: usize) -> Result<Vec<u64>, AllocError>
    ensures count { IfOk result (λ words. length words.items ≡ count) }
    ensures zero { IfOk result (λ words. (k : ℕ) → slice_index words.items k ≡ 0) }
{
    vec![in alloc; 0; count]
}

/// So many tasks that never had a call.
fn nobody(alloc: Global, count: usize) -> Result<Vec<Progress>, AllocError>
    ensures count { IfOk result (λ points. length points.items ≡ count) }
    ensures fresh { IfOk result (λ points. (k : ℕ) → k < count → slice_get points.items k ≡ Some Progress.Fresh) }
{
    vec![in alloc; Progress::Fresh; count]
}

/// The words at the start.
fn first_words(alloc: Global) -> Result<Vec<u64>, AllocError>
    ensures { IfOk result (λ words. Shows words.items start) }
{
    let mut words = zeros(alloc, WORDS)?;
    for at in TASK_AT..ENTRY_AT {
        words[at as usize] = RUNNABLE;
    }
    Ok(words)
}
