//! Scripts at heads: what new tasks do there one after the other, and what is to be seen of it.

ghost use Rattle.std.specs.Prelude.{◌<◌};
ghost use Rattle.wait_model.specs.{declared.layout.TheConstants.BIT_WORDS, Tasks.IsState};
ghost use Rattle.wq_head.specs.Walks.{IsFull};
ghost use Rattle.head_tests.specs.Ready.{IsReadyIn};

use crate::heads::many::queue_many;
use crate::heads::pages::{hands_to, queue_page};
use crate::heads::strangers::{queue_for, queue_lock, wake_for};
use crate::heads::waiting::{count_members, queue_own};
use std::process::Abort;
use std::sync::Wait;
use wait_model::heads::head_of;
use wait_model::layout::{FIRST_PLAIN_HEAD, RUNNING, UNINTERRUPTIBLE};
use wait_model::queues::{End, Walked};
use wait_model::watches::{Kind, Mode, Watch};
use wait_rule::{Domain, Task};
use wq_head::looks::active;

/// What is woken: condition 0, bit 16 of word 2 and variable 16, which have one head, the variable by a newer value than
/// is waited for, and pages.
#[derive(Clone, Copy)]
pub(crate) enum What {
    Condition,
    Bit,
    Newer,
    Page(Page),
}

#[derive(Clone, Copy)]
pub(crate) enum Page {
    One,
    Two,
    Three,
    Five,
    Seven,
    Nine,
}

/// What a wake did: how many it woke and selected, in how many holds, and how it ended.
#[derive(Clone, Copy)]
pub(crate) struct Did {
    pub woken: u32,
    pub selected: u32,
    pub holds: u32,
    pub end: End,
}

/// A row of a script.
#[derive(Clone, Copy)]
pub(crate) enum Deed {
    /// A new task queues its entry for the condition at the tail, and is asleep or awake.
    Queues {
        exclusive: bool,
        asleep: bool,
    },
    /// So many new tasks do so, and are awake.
    QueuesMany(u8),
    /// A new task queues its entry for the bit or the variable at the front.
    QueuesForBit,
    QueuesForVariable,
    /// It queues an exclusive one for the bit, or for the bit of a page.
    LocksBit,
    LocksPageBit(Page),
    /// It queues one for a page, and is asleep.
    QueuesForPage(Page),
    /// It does so, is asleep or awake, and a walk of this mode hands the page over to it.
    IsHanded {
        page: Page,
        mode: Mode,
        asleep: bool,
    },
    /// It wakes, with this count.
    Wakes(What, u32, Did),
    /// It sees that the head of the condition has a member, or none.
    IsActive(bool),
    /// So many entries and bookmarks are at all heads together.
    Counts {
        entries: u32,
        marks: u32,
    },
    /// The bit and the variable have one head.
    HaveOneHead,
}

/// A script, which is a constant: so the check of what plays it takes as long however many rows it has.
pub(crate) struct Case {
    pub name: &'static str,
    pub script: &'static [Deed],
}

/// The word of a page.
fn word_of(page: Page) -> u8
    ensures { result < BIT_WORDS }
{
    match page {
        Page::One => 1,
        Page::Two => 2,
        Page::Three => 3,
        Page::Five => 5,
        Page::Seven => 7,
        Page::Nine => 9,
    }
}

/// What a wake wakes for.
fn watch_of(what: What) -> Watch
    ensures { IsFull result }
{
    match what {
        What::Condition => Watch::Plain { cond: 0 },
        What::Bit => Watch::Bit { word: 2, bit: 16 },
        What::Newer => Watch::Var { var: 16, old: 7 },
        What::Page(page) => Watch::Bit {
            word: word_of(page),
            bit: 0,
        },
    }
}

/// The state of a task that is asleep, or is awake.
fn state_of(asleep: bool) -> u32
    ensures { IsState result }
{
    if asleep { UNINTERRUPTIBLE } else { RUNNING }
}

fn is_end(end: End, wanted: End) -> bool {
    match wanted {
        End::End => matches!(end, End::End),
        End::Spent => matches!(end, End::Spent),
        End::Stopped => matches!(end, End::Stopped),
    }
}

/// Whether a walk did this.
pub(crate) fn is_done(walked: Walked, did: Did) -> bool {
    walked.woken == did.woken
        && walked.selected == did.selected
        && walked.holds == did.holds
        && is_end(walked.end, did.end)
}

fn have_one_head() -> bool {
    let bit = Watch::Bit { word: 2, bit: 16 };
    let var = Watch::Var { var: 16, old: 0 };
    head_of(bit) == head_of(var)
}

/// Whether a row of a new task goes as it says.
fn does<R: Wait>(rt: &R, domain: &Domain, task: &mut Task, deed: Deed) -> bool
    requires ready { IsReadyIn domain.now task.old }
{
    match deed {
        Deed::Queues { exclusive, asleep } => {
            let kind = Kind::Default;
            queue_own(rt, domain, task, kind, exclusive, state_of(asleep))
        }
        Deed::QueuesForBit => {
            let bit = Watch::Bit { word: 2, bit: 16 };
            queue_for(rt, domain, task, Kind::Bit, bit)
        }
        Deed::QueuesForVariable => {
            let var = Watch::Var { var: 16, old: 0 };
            queue_for(rt, domain, task, Kind::Var, var)
        }
        Deed::LocksBit => {
            let bit = Watch::Bit { word: 2, bit: 16 };
            queue_lock(rt, domain, task, bit)
        }
        Deed::LocksPageBit(page) => {
            let word = word_of(page);
            queue_lock(rt, domain, task, Watch::Bit { word, bit: 0 })
        }
        Deed::QueuesForPage(page) => queue_page(rt, domain, task, word_of(page), UNINTERRUPTIBLE),
        Deed::Wakes(what, count, did) => {
            is_done(
                wake_for(rt, domain, task, watch_of(what), Mode::Normal, count),
                did,
            )
        }
        Deed::IsActive(wanted) => active(domain, task, FIRST_PLAIN_HEAD) == wanted,
        Deed::Counts { entries, marks } => count_members(domain, task) == (entries, marks),
        Deed::HaveOneHead => have_one_head(),
        Deed::QueuesMany(_) | Deed::IsHanded { .. } => false,
    }
}

/// Whether a row goes as it says: what it says of several new tasks, or of one.
fn goes<R: Wait>(rt: &R, domain: &Domain, task: &mut Task, deed: Deed) -> bool
    requires ready { IsReadyIn domain.now task.old }
    ensures ready { IsReadyIn domain.now task.new }
{
    match deed {
        Deed::QueuesMany(count) => queue_many(rt, domain, task, count),
        Deed::IsHanded { page, mode, asleep } => {
            hands_to(rt, domain, task, word_of(page), mode, state_of(asleep))
        }
        _ => match task.fork(domain, 0) {
            Ok(mut other) => does(rt, domain, &mut other, deed),
            Err(_) => false,
        },
    }
}

/// Plays a script.
pub(crate) fn play<R: Abort + Wait>(rt: &R, domain: &Domain, mut task: Task, case: &Case)
    requires ready { IsReadyIn domain.now task }
{
    let mut at: u64 = 0;
    for deed in case.script {
        let well = goes(rt, domain, &mut task, *deed);
        assert!(rt; well, "{}: row {at}, counted from 0", case.name);
        at = at.saturating_add(1);
    }
}
