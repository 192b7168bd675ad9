//! The events of a call that locks a page.

ghost use Rattle.std.specs.Prelude.{◌≡◌};
ghost use Rattle.wait_model.specs.Programs as spec;

use crate::calls::{Answer, Call, Event};
use crate::layout::INTERRUPTED;
use crate::points::{FinishPoint, PagePoint, Planned, Point, Seen};
use crate::programs::bits::exchange;
use crate::programs::waiting::{fails, sleep_event};
use crate::programs::{ends, ends_with, go};
use crate::tasks::pending_state;

/// An event after which the call goes on to this point.
fn then(event: Event, point: PagePoint) -> Planned
    ensures { result ≡ spec.go event (Point.Page point) }
{
    go(event, Point::Page(point))
}

/// The exchange that begins the call, and ends it where it found the page clear.
fn first_try(call: Call, seen: Seen) -> Planned
    ensures { result ≡ spec.page_event 0 call PagePoint.First seen }
{
    if fails(call, seen) {
        return then(exchange(call, seen), PagePoint::Unflag);
    }
    ends(exchange(call, seen))
}

/// The exchange in the hold in which the entry was queued.
fn second_try(call: Call, seen: Seen) -> Planned
    ensures { result ≡ spec.page_event 0 call PagePoint.Try seen }
{
    let point = if fails(call, seen) {
        PagePoint::Unlock(false)
    } else {
        PagePoint::Off
    };
    then(exchange(call, seen), point)
}

/// The add of the own entry; where no place is left nothing is queued.
fn queue_event(call: Call, worn: bool) -> Planned
    ensures { result ≡ spec.page_queue call worn }
{
    let head = call.head();
    if worn {
        return go(Event::Unlock { head, spent: false }, Point::Worn);
    }
    let form = call.form();
    then(Event::Queue { head, form }, PagePoint::Try)
}

/// The unlock of the hold in which the entry was queued: the call ends where that got the page.
fn unlock_event(call: Call, got: bool) -> Planned
    ensures { result ≡ spec.page_unlock call got }
{
    let event = Event::Unlock {
        head: call.head(),
        spent: false,
    };
    if got {
        return ends(event);
    }
    then(event, PagePoint::State)
}

/// Where a task that waits for a page goes by its flag.
fn flag_read(call: Call, yes: bool) -> PagePoint
    ensures { result ≡ spec.flag_read call yes }
{
    if yes {
        PagePoint::Finish(FinishPoint::State)
    } else if call.state().looks() {
        PagePoint::Look
    } else {
        PagePoint::Sleep
    }
}

/// The look for a signal.
fn look_event(call: Call, seen: Seen) -> Planned
    ensures { result ≡ spec.page_event 0 call PagePoint.Look seen }
{
    let yes = pending_state(call.state().mask(), seen.own);
    let point = if yes {
        PagePoint::Finish(FinishPoint::State)
    } else {
        PagePoint::Sleep
    };
    then(Event::Look { yes }, point)
}

/// The last reading of the flag: set, the page was taken for the task.
fn last_event(yes: bool) -> Planned
    ensures { result ≡ spec.page_last yes }
{
    if yes {
        return then(Event::Flag { yes: true }, PagePoint::Clear);
    }
    ends_with(Event::Flag { yes: false }, Answer::Number(INTERRUPTED))
}

/// Finishing: running again, off the queue.
fn finish_event(me: u8, call: Call, point: FinishPoint, seen: Seen) -> Planned
    ensures { result ≡ spec.page_finish_event me call point seen }
{
    let head = call.head();
    let stands = seen.entry.is_some();
    match point {
        FinishPoint::State => then(
            Event::State { state: 0 },
            PagePoint::Finish(FinishPoint::Look),
        ),
        FinishPoint::Look => {
            if stands {
                then(
                    Event::Queued { yes: true },
                    PagePoint::Finish(FinishPoint::Lock),
                )
            } else {
                then(Event::Queued { yes: false }, PagePoint::Last)
            }
        }
        FinishPoint::Lock => then(Event::Lock { head }, PagePoint::Finish(FinishPoint::Queue)),
        FinishPoint::Queue => {
            if stands {
                then(
                    Event::Unqueue { who: me },
                    PagePoint::Finish(FinishPoint::Unlock),
                )
            } else {
                then(Event::Unlock { head, spent: false }, PagePoint::Last)
            }
        }
        FinishPoint::Unlock => then(Event::Unlock { head, spent: false }, PagePoint::Last),
    }
}

/// The event of a call that locks a page.
pub fn page_event(me: u8, call: Call, point: PagePoint, seen: Seen) -> Planned
    ensures { result ≡ spec.page_event me call point seen }
{
    match point {
        PagePoint::First => first_try(call, seen),
        PagePoint::Unflag => then(Event::Unflag, PagePoint::Lock),
        PagePoint::Lock => then(Event::Lock { head: call.head() }, PagePoint::Queue),
        PagePoint::Queue => queue_event(call, seen.worn),
        PagePoint::Try => second_try(call, seen),
        PagePoint::Off => then(Event::Unqueue { who: me }, PagePoint::Unlock(true)),
        PagePoint::Unlock(got) => unlock_event(call, got),
        PagePoint::State => {
            let state = call.state().mask();
            then(Event::State { state }, PagePoint::Flag)
        }
        PagePoint::Flag => then(Event::Flag { yes: seen.flag }, flag_read(call, seen.flag)),
        PagePoint::Look => look_event(call, seen),
        PagePoint::Sleep => sleep_event(seen, Point::Page(PagePoint::State)),
        PagePoint::Finish(point) => finish_event(me, call, point, seen),
        PagePoint::Last => last_event(seen.flag),
        PagePoint::Clear => ends(Event::Unflag),
    }
}
