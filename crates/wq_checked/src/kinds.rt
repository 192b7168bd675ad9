//! The kinds of waits, as calls that are under way: how each stands there, and what it leaves at its end.

ghost use Rattle.std.specs.Prelude.{◌≡◌, ◌||◌};
ghost use Rattle.wait_model.specs.declared.watches.Watch.{Watch};
ghost use Rattle.wait_rule.specs.Bits.{taken_bits};
ghost use Rattle.wait_class.specs.Tables.{watch_in};
ghost use Rattle.wq_checked.specs.{Kept.keeps_in, Kinds.IsLawfulKind};
ghost use Rattle.wq_checked.specs.Advancing.{WaitKind, await_kind, bit_kind, event_kind, lock_kind, page_kind};
ghost use Rattle.wq_checked.specs.Calls.{await_answer, bit_answer, waited};

use crate::calls::{Answer, Running};
use crate::kept_bits::KeptBits;
use bit_wait::BitEnd;
use bit_wait::lock_leaves::until_of as lock_until;
use bit_wait::lock_waits::{LockBit, LockOutcome, LockRun, LockTurn};
use bit_wait::wait_leaves::until_of as bit_until;
use bit_wait::waits::{BitOutcome, BitRun, BitTurn, WaitBit};
use completion_cell::awaits::{AwaitCall, AwaitOutcome, AwaitRun, AwaitTurn};
use completion_cell::leaves::until_of as await_until;
use page_lock::leaves::until_of as page_until;
use page_lock::waits::{LockPage, PageOutcome, PageRun, PageTurn};
use wait_class::frame_stages::Framed;
use wait_class::stages::{Run, Turn};
use wait_event::wait_events::WaitEnd;
use wait_event::wait_leaves::{WaitUntil, until_of};
use wait_event::waits::{WaitCall, WaitOutcome, WaitRun, WaitTurn};
use wait_leave::{Leavable, Until};
use wait_model::watches::Watch;

/// A kind of wait.
pub(crate) trait Kind: Leavable {
    ghost kind: { WaitKind Self Self.Stage Self.Outcome };

    /// The call that is under way.
    fn now(run: Run<Self>, turn: Turn<Self::Stage, Self::Outcome>) -> Running
        ensures { result ≡ kind.now run turn };

    /// The answer of a wait that ended so.
    fn answer(self, outcome: Self::Outcome) -> Answer
        ensures { result ≡ kind.answer self outcome };

    /// Whether a wait that ended so may have left a state stored, since no place was left for its entry.
    fn is_worn(self, outcome: Self::Outcome) -> bool
        ensures { result ≡ kind.worn self outcome };

    /// Notes the bit or the page with which a wait ended.
    fn note_taken(self, outcome: Self::Outcome, kept: &mut KeptBits)
        requires fits { Self.table.Fits self }
        ensures { (c : Watch) → keeps_in kept.new c
            ≡ (taken_bits (watch_in Self.table self) (kind.took outcome) c || keeps_in kept.old c) };

    /// The kind keeps the laws.
    fn is_kind()
        ensures { IsLawfulKind Self.table Self.exits kind };
}

/// The answer of a wait for a plain condition or a variable that was not left.
fn waited(watch: Watch, loaded: u64, end: Result<(), WaitEnd>) -> Answer
    ensures { result ≡ waited watch loaded end }
{
    match watch {
        Watch::Var { .. } => match end {
            Ok(()) => Answer::Changed(Ok(loaded)),
            Err(end) => Answer::Changed(Err(end)),
        },
        _ => Answer::Waited(end),
    }
}

/// A wait for a plain condition or a variable.
impl Kind for WaitCall {
    ghost kind = { event_kind };

    fn now(run: WaitRun, turn: WaitTurn) -> Running
        ensures { result ≡ event_kind.now run turn }
    {
        Running::Event(run, turn)
    }

    fn answer(self, outcome: WaitOutcome) -> Answer {
        match until_of(self, outcome) {
            WaitUntil::Over(end) => waited(self.watch, self.seen, end),
            WaitUntil::Left { seen, selected } => Answer::Left { seen, selected },
        }
    }

    fn is_worn(self, _outcome: WaitOutcome) -> bool {
        false
    }

    fn note_taken(self, _outcome: WaitOutcome, _kept: &mut KeptBits) {}

    fn is_kind() {}
}

/// The answer of a wait for a bit, or to take a bit or a page.
fn bit_answer(end: Until<Result<(), BitEnd>>) -> Answer
    ensures { result ≡ bit_answer end }
{
    match end {
        Until::Over(end) => Answer::Bit(end),
        Until::Left { seen } => Answer::Left {
            seen,
            selected: false,
        },
    }
}

/// A wait for a bit.
impl Kind for Framed<WaitBit> {
    ghost kind = { bit_kind };

    fn now(run: BitRun, turn: BitTurn) -> Running
        ensures { result ≡ bit_kind.now run turn }
    {
        Running::Bit(run, turn)
    }

    fn answer(self, outcome: BitOutcome) -> Answer {
        bit_answer(bit_until(self.wait, outcome))
    }

    fn is_worn(self, outcome: BitOutcome) -> bool {
        match outcome {
            BitOutcome::Worn => true,
            _ => false,
        }
    }

    fn note_taken(self, _outcome: BitOutcome, _kept: &mut KeptBits) {}

    fn is_kind() {}
}

/// A wait to take a bit.
impl Kind for Framed<LockBit> {
    ghost kind = { lock_kind };

    fn now(run: LockRun, turn: LockTurn) -> Running
        ensures { result ≡ lock_kind.now run turn }
    {
        Running::Lock(run, turn)
    }

    fn answer(self, outcome: LockOutcome) -> Answer {
        bit_answer(lock_until(self.wait, outcome))
    }

    fn is_worn(self, _outcome: LockOutcome) -> bool {
        self.wait.worn
    }

    fn note_taken(self, outcome: LockOutcome, kept: &mut KeptBits) {
        if let LockOutcome::Over = outcome {
            kept.put(self.wait.word, self.wait.bit);
        }
    }

    fn is_kind() {}
}

/// A wait for a page.
impl Kind for LockPage {
    ghost kind = { page_kind };

    fn now(run: PageRun, turn: PageTurn) -> Running
        ensures { result ≡ page_kind.now run turn }
    {
        Running::Page(run, turn)
    }

    fn answer(self, outcome: PageOutcome) -> Answer {
        bit_answer(page_until(self, outcome))
    }

    fn is_worn(self, _outcome: PageOutcome) -> bool {
        false
    }

    fn note_taken(self, outcome: PageOutcome, kept: &mut KeptBits) {
        if let PageOutcome::Over = outcome {
            kept.put(self.page, 0);
        }
    }

    fn is_kind() {}
}

/// The answer of a wait for a completion.
fn await_answer(end: Until<Result<(), WaitEnd>>) -> Answer
    ensures { result ≡ await_answer end }
{
    match end {
        Until::Over(end) => Answer::Waited(end),
        Until::Left { seen } => Answer::Left {
            seen,
            selected: false,
        },
    }
}

/// A wait for a completion.
impl Kind for AwaitCall {
    ghost kind = { await_kind };

    fn now(run: AwaitRun, turn: AwaitTurn) -> Running
        ensures { result ≡ await_kind.now run turn }
    {
        Running::Await(run, turn)
    }

    fn answer(self, outcome: AwaitOutcome) -> Answer {
        await_answer(await_until(self, outcome))
    }

    fn is_worn(self, _outcome: AwaitOutcome) -> bool {
        false
    }

    fn note_taken(self, _outcome: AwaitOutcome, _kept: &mut KeptBits) {}

    fn is_kind() {}
}
