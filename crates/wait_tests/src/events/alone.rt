//! One task alone: each call once, with what it answers where nobody else is there.

ghost use Rattle.std.specs.Prelude.{◌≡◌, ◌<◌};
ghost use Rattle.wait_model.specs.declared.layout.TheConstants.{FIRST_SIMPLE};
ghost use Rattle.wait_rule.specs.Says.{RestsIn};

use crate::in_order::met_nobody;
use std::sync::Wait;
use std::test::Fail;
use test_tasks::wants::all_so;
use wait_event::conds::set_and_wake;
use wait_event::entries::{add_entry, remove_entry};
use wait_event::prepares::{
    Prepared, finish_wait, prepare_event, prepare_exclusive, prepare_to_wait,
};
use wait_event::wait_events::wait_event;
use wait_model::queues::Form;
use wait_model::tasks::{How, SleepState};
use wait_model::watches::{Kind, Mode, Watch};
use wait_rule::{Domain, Task};
use wq_head::Worn;

/// Whether an exclusive prepare queued its entry as the first.
fn is_first(first: &Result<bool, Worn>) -> bool {
    matches!(first, Ok(true))
}

/// Whether a prepare that looks for a signal queued its entry.
fn is_queued(prepared: &Result<Prepared, Worn>) -> bool {
    matches!(prepared, Ok(Prepared::Queued))
}

/// A prepare that looks for no signal, and its finish: true where the entry was queued.
pub(crate) fn prepare_shared<R: Wait>(
    rt: &R,
    domain: &Domain,
    task: &mut Task,
    cond: u8,
    state: SleepState,
) -> bool
    requires rests { RestsIn domain.now task.old }
    requires full { cond < FIRST_SIMPLE }
    ensures rests { RestsIn domain.now task.new }
{
    let watch = Watch::Plain { cond };
    let queued = prepare_to_wait(rt, domain, task, Kind::Autoremove, watch, state);
    finish_wait(rt, domain, task);
    queued.is_ok()
}

/// An exclusive one: true where its entry was the first.
pub(crate) fn prepare_first<R: Wait>(rt: &R, domain: &Domain, task: &mut Task, cond: u8) -> bool
    requires rests { RestsIn domain.now task.old }
    requires full { cond < FIRST_SIMPLE }
    ensures rests { RestsIn domain.now task.new }
{
    let watch = Watch::Plain { cond };
    let first = prepare_exclusive(
        rt,
        domain,
        task,
        Kind::Autoremove,
        watch,
        SleepState::Interruptible,
    );
    finish_wait(rt, domain, task);
    is_first(&first)
}

/// One that looks for a signal: true where it found none.
pub(crate) fn prepare_asking<R: Wait>(
    rt: &R,
    domain: &Domain,
    task: &mut Task,
    cond: u8,
    how: How,
) -> bool
    requires rests { RestsIn domain.now task.old }
    requires full { cond < FIRST_SIMPLE }
    ensures rests { RestsIn domain.now task.new }
{
    let watch = Watch::Plain { cond };
    let prepared = prepare_event(rt, domain, task, Kind::Autoremove, watch, how);
    finish_wait(rt, domain, task);
    is_queued(&prepared)
}

/// An entry that is added and removed: true where there was a place for it.
fn enter_and_leave<R: Wait>(rt: &R, domain: &Domain, task: &mut Task, form: Form) -> bool
    requires rests { RestsIn domain.now task.old }
    requires first { task.old.view.number ≡ 0 }
{
    match add_entry(rt, domain, task, 1, Kind::Default, form) {
        Ok(()) => {
            remove_entry(rt, domain, task);
            true
        }
        Err(_worn) => false,
    }
}

/// The prepares of one task alone queue its entry each time: the exclusive one as the first.
#[test]
fn prepares_of_one_task(rt: HostRuntime) -> Result<(), Fail> {
    let (domain, mut task) = Domain::new(rt.alloc())?;
    let how = How {
        state: SleepState::Interruptible,
        exclusive: true,
    };
    let seen = [
        prepare_shared(&rt, &domain, &mut task, 0, how.state),
        prepare_first(&rt, &domain, &mut task, 0),
        prepare_asking(&rt, &domain, &mut task, 0, how),
    ];
    all_so(&seen)
}

/// A wake that finds nobody calls no entry, in one hold; a wait whose condition is set ends at its first look.
#[test]
fn set_before_the_wait(rt: HostRuntime) -> Result<(), Fail> {
    let (domain, mut task) = Domain::new(rt.alloc())?;
    let walked = set_and_wake(&rt, &domain, &mut task, 0, 1, Mode::Normal, 1);
    assert!(rt; met_nobody(walked, 1));
    let how = How {
        state: SleepState::Interruptible,
        exclusive: true,
    };
    assert!(rt; wait_event(&rt, &domain, &mut task, 0, how).is_ok());
    Ok(())
}

/// Entries of each form are added and removed.
#[test]
fn entries_of_one_task(rt: HostRuntime) -> Result<(), Fail> {
    let forms = [Form::Front, Form::Tail, Form::Priority];
    for i in 0..3 {
        let (domain, mut task) = Domain::new(rt.alloc())?;
        assert!(rt; enter_and_leave(&rt, &domain, &mut task, forms[i]));
    }
    Ok(())
}
