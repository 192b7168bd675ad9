//! A task whose calls are tested when they are made.

ghost use Rattle.std.specs.Prelude.{◌≡◌, ◌<◌, ◌≤◌, ◌+◌, ◌-◌, ◌||◌, [], Bool, true, false, IfErr, IfOk, None, Some};
ghost use Rattle.wait_model.specs.declared.layout.TheConstants.{BIT_WORDS, TASKS, WORD_BITS};
ghost use Rattle.wait_model.specs.declared.watches.Watch.{Watch};
ghost use Rattle.wait_model.specs.declared.watches.Watch.TheVariants as watch;
ghost use Rattle.wait_rule.specs.{Known.Known, Says.newcomer};
ghost use Rattle.wq_head.specs.Roused.{tasks_in};
ghost use Rattle.wq_checked.specs.{Checked.shared_by, Kept.IsReadyWith, Kept.keeps_in, Outs.WentOut};
ghost use Rattle.wq_checked.specs.declared.calls.Running.{Running as TheRunning};
ghost use Rattle.wq_checked.specs.Calls.{CameFrom, Rouses, WentOn};
ghost use Rattle.wq_checked.specs.Locks.{IsDrawn, Passes, awaited_in};
ghost use Rattle.wq_checked.specs.Reasons.{IsNoFork, busy_reason, stopped_reason};
ghost use Rattle.wq_checked.specs.declared.calls.Running.TheVariants as running;

use crate::advances::go_on;
use crate::calls::{Progress, Running};
use crate::kept_bits::KeptBits;
use crate::locks::{awaited, passed_on};
use crate::owners::{Full, another_owner};
use crate::reasons::Refused;
use std::alloc::{AllocError, Global};
use std::marker::Model;
use std::sync::Arc;
use thiserror::Error;
use wait_model::layout::{BIT_WORDS, WORD_BITS};
use wait_rule::queues::Passing;
use wait_rule::{Domain, Task};
use wq_head::Rousing;

/// A task of a Domain, with what is kept of it to test its calls: the bits and pages that it keeps, and the call that
/// is under way. Between two calls it is awake and idle, keeps just those bits, owes nothing else, and has left no entry
/// at a completion; while a call is under way, it has come by turns of that call from such a task.
#[derive(Drop)]
pub struct CheckedTask {
    pub(crate) domain: Arc<Domain, Global>,
    pub(crate) task: Task,
    pub(crate) kept: KeptBits,
    pub(crate) running: Running,
}

impl Model for CheckedTask {
    ghost use Rattle.std.specs.Prelude.{◌≡◌};
    ghost use Rattle.std.specs.Arc.{arc_value};
    ghost use Rattle.wq_checked.specs.Checked.{Checked};
    ghost use Rattle.wq_checked.specs.Calls.{IsRunningSound};

    ghost Value = { Checked };

    ghost view = { λ t. record { task = t.task; kept = t.kept; running = t.running } };

    ghost invariant = { λ t. (t.task.domain ≡ arc_value t.domain) × IsRunningSound t.running t.kept t.task };
}

/// Why no call may begin now: None where one may.
pub(crate) fn refusal_of(running: &Running) -> Option<Refused>
    ensures { result ≡ busy_reason running.now }
{
    match running {
        Running::Idle => None,
        Running::Starved => Some(Refused::Starved),
        _ => Some(Refused::Busy),
    }
}

/// Why no further task was made; nothing has changed then. Busy: a call of the task is under way, or a wake of it was
/// starved. Numbers: fewer numbers are spare than the new task is to have. Owners: else, and the Domain counts no
/// further owner, as it told in the call; the tasks of one Domain are too few for that.
#[derive(Debug, Drop, Error)]
pub enum NoFork {
    #[error("a call of the task is under way")]
    Busy,
    #[error("too few numbers of tasks are spare")]
    Numbers,
    #[error("{full}")]
    Owners { full: Full },
}

impl CheckedTask {
    /// A Domain and its first task, whose number is 0 and to which all other numbers are spare. The only other answer
    /// is want of memory.
    pub fn start(alloc: Global) -> Result<CheckedTask, AllocError>
        ensures first { IfOk result (λ t. t.task ≡ newcomer t.task.domain 0 1 (TASKS - 1)) }
        ensures ready { IfOk result (λ t. (t.running ≡ running.Idle) × (IsReadyWith t.kept t.task)) }
        ensures none { IfOk result (λ t. (c : Watch) → keeps_in t.kept c ≡ false) }
    {
        let (domain, task) = Domain::new(alloc)?;
        let domain = Arc::new(alloc, domain)?;
        Ok(CheckedTask {
            domain,
            task,
            kept: KeptBits::none(),
            running: Running::Idle,
        })
    }

    /// A new task of the same Domain, with this task's next number, and `share` further numbers of its own to give out.
    /// Busy comes exactly where a call may not begin, and Numbers exactly where else fewer than `1 + share` numbers are
    /// spare. Owners has what told so, which nothing makes but a count of owners that is full.
    pub fn fork(&mut self, share: u8) -> Result<CheckedTask, NoFork>
        ensures refused { IfErr result (IsNoFork self.old share) }
        ensures same { IfErr result (λ _. self.new ≡ self.old) }
        ensures may { IfOk result (λ _. (busy_reason self.old.running ≡ None)
            × (1 + share ≤ self.old.task.view.spare)) }
        ensures new { IfOk result (λ t. t.task ≡ newcomer self.old.task.domain self.old.task.view.next
            (self.old.task.view.next + 1) share) }
        ensures ready { IfOk result (λ t. (t.running ≡ running.Idle) × (IsReadyWith t.kept t.task)) }
        ensures none { IfOk result (λ t. (c : Watch) → keeps_in t.kept c ≡ false) }
        ensures old { IfOk result (λ _. self.new ≡ shared_by share self.old) }
    {
        if let Some(_) = refusal_of(&self.running) {
            return Err(NoFork::Busy);
        }
        if self.task.spare() <= share {
            return Err(NoFork::Numbers);
        }
        let domain = match another_owner(&self.domain) {
            Ok(domain) => domain,
            Err(full) => return Err(NoFork::Owners { full }),
        };
        match self.task.fork(&self.domain, share) {
            Ok(task) => Ok(CheckedTask {
                domain,
                task,
                kept: KeptBits::none(),
                running: Running::Idle,
            }),
            Err(_) => unreachable!(),
        }
    }

    /// The task's number, which no other task of the Domain has.
    pub fn number(&self) -> u8
        ensures { result ≡ self.now.task.view.number }
    {
        self.task.number()
    }

    /// Why no call may begin now: None where one may.
    pub fn refusal(&self) -> Option<Refused>
        ensures { result ≡ busy_reason self.now.running }
    {
        refusal_of(&self.running)
    }

    /// Whether the task keeps bit `bit` of bit word `word`: false for one that is not there.
    pub fn keeps(&self, word: u8, bit: u8) -> bool
        ensures within { word < BIT_WORDS → bit < WORD_BITS → result ≡ keeps_in self.now.kept (watch.Bit word bit) }
        ensures no_word { BIT_WORDS ≤ word → result ≡ false }
        ensures no_bit { WORD_BITS ≤ bit → result ≡ false }
    {
        u16::from(word) < BIT_WORDS && u16::from(bit) < WORD_BITS && self.kept.has(word, bit)
    }

    /// Goes on with the call that is under way by one stretch, which waits for nobody. `rousing` is emptied first, and
    /// names then the tasks that a wake has woken in this stretch and whose threads are to be roused, in their order.
    /// Nothing comes exactly where no call is under way, and Starved exactly after a wake that was starved. Else the
    /// call has come on by its own turns, from wherever it came, or is over with the answer of the whole call.
    /// Who was told of a lock (`Progress::Locked`) waits until its ticket is served, in a way of its own: `passed` has,
    /// from the first stretch of a call on that gave a lock back, the head whose lock it was, for the caller to tell
    /// those who wait for it. The locks of one call are all of one head. Threads that park for a lock of this Domain in
    /// the way of `wait_rule` there are none: all its calls are made by tasks like this one.
    pub fn advance(
        &mut self,
        rousing: &mut Rousing,
        passed: &mut Option<u16>,
    ) -> Result<Progress, Refused>
        ensures refused { IfErr result (λ e. stopped_reason self.old.running ≡ Some e) }
        ensures same { IfErr result (λ _. self.new ≡ self.old) }
        ensures under { IfOk result (λ _. stopped_reason self.old.running ≡ None) }
        ensures goes { IfOk result (λ told. (may : Bool) (start : Known) (first : TheRunning)
            → CameFrom may start first self.old.task self.old.running
            → WentOn may start first self.new.task self.new.running told) }
        ensures rouses { IfOk result (λ _. Rouses self.old.running self.old.task self.new.task rousing.new) }
        ensures awaits { IfOk result (λ told. IsDrawn self.new.task told) }
        ensures passes { IfOk result (λ told. Passes (awaited_in self.old.running) told passed.old passed.new) }
        ensures none { IfErr result (λ _. tasks_in rousing.new ≡ []) }
        ensures passes_none { IfErr result (λ _. passed.new ≡ passed.old) }
    {
        self.go(false, rousing, passed)
    }

    /// Goes on with the call that is under way by one stretch, as `advance` does, and leaves it where it is a wait: it is
    /// asked to leave at each stage of the stretch that has an exit, and goes out there. Who wants out calls `leave` until
    /// the call is over, also after Locked. It ends as the wait does where it got what it waited for, or as
    /// `Answer::Left`: its entry is off, and its last look found it not there. A task that is asleep is not left, and
    /// answers Park as before: another task wakes it first, by `Call::Kick` or for another reason. A call that is no
    /// wait goes on as by `advance`: a wake and a call about a completion end by themselves.
    /// `rousing`, `passed` and refusals are as those of `advance`.
    pub fn leave(
        &mut self,
        rousing: &mut Rousing,
        passed: &mut Option<u16>,
    ) -> Result<Progress, Refused>
        ensures refused { IfErr result (λ e. stopped_reason self.old.running ≡ Some e) }
        ensures same { IfErr result (λ _. self.new ≡ self.old) }
        ensures under { IfOk result (λ _. stopped_reason self.old.running ≡ None) }
        ensures goes { IfOk result (λ told. (may : Bool) (start : Known) (first : TheRunning)
            → CameFrom may start first self.old.task self.old.running
            → WentOn true start first self.new.task self.new.running told) }
        ensures asks { IfOk result (WentOut self.old.task self.old.running self.new.task self.new.running) }
        ensures rouses { IfOk result (λ _. Rouses self.old.running self.old.task self.new.task rousing.new) }
        ensures awaits { IfOk result (λ told. IsDrawn self.new.task told) }
        ensures passes { IfOk result (λ told. Passes (awaited_in self.old.running) told passed.old passed.new) }
        ensures none { IfErr result (λ _. tasks_in rousing.new ≡ []) }
        ensures passes_none { IfErr result (λ _. passed.new ≡ passed.old) }
    {
        self.go(true, rousing, passed)
    }

    /// Goes on with the call that is under way by one stretch, which is asked to leave a wait or is not.
    fn go(
        &mut self,
        asks: bool,
        rousing: &mut Rousing,
        passed: &mut Option<u16>,
    ) -> Result<Progress, Refused>
        ensures refused { IfErr result (λ e. stopped_reason self.old.running ≡ Some e) }
        ensures same { IfErr result (λ _. self.new ≡ self.old) }
        ensures under { IfOk result (λ _. stopped_reason self.old.running ≡ None) }
        ensures goes { IfOk result (λ told. (may : Bool) (start : Known) (first : TheRunning)
            → CameFrom may start first self.old.task self.old.running
            → WentOn (asks || may) start first self.new.task self.new.running told) }
        ensures asks { IfOk result (λ told. asks ≡ true
            → WentOut self.old.task self.old.running self.new.task self.new.running told) }
        ensures rouses { IfOk result (λ _. Rouses self.old.running self.old.task self.new.task rousing.new) }
        ensures awaits { IfOk result (λ told. IsDrawn self.new.task told) }
        ensures passes { IfOk result (λ told. Passes (awaited_in self.old.running) told passed.old passed.new) }
        ensures none { IfErr result (λ _. tasks_in rousing.new ≡ []) }
        ensures passes_none { IfErr result (λ _. passed.new ≡ passed.old) }
    {
        rousing.hand_on();
        match self.running {
            Running::Idle => Err(Refused::Nothing),
            Running::Starved => Err(Refused::Starved),
            running => {
                let domain = &self.domain;
                let mut passing = Passing::none();
                let (next, told) = go_on(
                    domain,
                    &mut self.task,
                    &mut self.kept,
                    running,
                    asks,
                    rousing,
                    &mut passing,
                );
                *passed = passed_on(*passed, awaited(running), told, passing.hand_on());
                self.running = next;
                Ok(told)
            }
        }
    }
}
