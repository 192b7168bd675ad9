//! A wait of each kind that its task leaves, beside a second one and a wake, whose stretches on one thread come in orders
//! that numbers draw.

use super::leaves::{
    KINDS, MOMENTS, gives_back, go_on, has_got, make, takes_back, wait_of, wake_of,
};
use super::{MOST, begins, took};
use std::alloc::{AllocError, Global};
use std::process::Abort;
use std::test::Fail;
use test_tasks::draws::next_number;
use wait_model::watches::Mode;
use wq_checked::calls::{Answer, Call, Progress};
use wq_checked::tasks::CheckedTask;
use wq_head::Rousing;

/// How many orders are drawn for each kind of wait and each moment.
const ORDERS: u32 = 25;

/// How many turns an order has at most: each wait and the wake have fewer than 30 stretches, and one of four turns goes
/// to each.
const TURNS: u32 = 600;

/// The tasks of an order: who keeps what is waited for and makes the wake, two that wait, and one that kicks the first of
/// them out of its sleep.
#[derive(Drop)]
struct Players {
    keeper: CheckedTask,
    leaver: CheckedTask,
    second: CheckedTask,
    kicker: CheckedTask,
}

/// How far an order has come: the answers of the calls that are over, whether the wake has begun, and how many stretches
/// the first wait has made.
#[derive(Clone, Copy)]
struct Came {
    wake: Option<Answer>,
    left: Option<Answer>,
    waited: Option<Answer>,
    wakes: bool,
    stretches: u32,
}

fn fork(rt: &impl Abort, task: &mut CheckedTask) -> CheckedTask {
    match task.fork(0) {
        Ok(new) => new,
        Err(_none) => panic!(rt; "a number is spare"),
    }
}

fn start(rt: &impl Abort, alloc: Global) -> Result<Players, AllocError> {
    let mut keeper = CheckedTask::start(alloc)?;
    let leaver = fork(rt, &mut keeper);
    let second = fork(rt, &mut keeper);
    let kicker = fork(rt, &mut keeper);
    Ok(Players {
        keeper,
        leaver,
        second,
        kicker,
    })
}

/// One stretch of a call that is not over, which is asked to leave or is not: its answer, once it is over.
fn stretch(
    task: &mut CheckedTask,
    asks: bool,
    over: Option<Answer>,
    rousing: &mut Rousing,
) -> Option<Answer> {
    if over.is_some() {
        return over;
    }
    let mut passed = None;
    let told = if asks {
        task.leave(rousing, &mut passed)
    } else {
        task.advance(rousing, &mut passed)
    };
    match told {
        Ok(Progress::Done(answer)) => Some(answer),
        _ => None,
    }
}

/// The wake begins, which is over at once where it finds nobody in the queue.
fn begin_wake(keeper: &mut CheckedTask, came: Came, kind: u8) -> Came {
    let mut came = came;
    match keeper.begin(wake_of(kind)) {
        Ok(Progress::Done(answer)) => {
            came.wakes = true;
            came.wake = Some(answer);
        }
        Ok(_) => came.wakes = true,
        Err(_) => {}
    }
    came
}

impl Players {
    /// The turn of one of them, that the number draws: a stretch of the first wait, which is asked to leave after so
    /// many, or of the second one; one of the wake, which begins at some time; or a kick of the first wait, once it has
    /// been asked.
    fn turn(&mut self, came: Came, kind: u8, after: u32, seed: u32, rousing: &mut Rousing) -> Came {
        let mut came = came;
        let asks = came.stretches >= after;
        match seed % 4 {
            0 => {
                came.left = stretch(&mut self.leaver, asks, came.left, rousing);
                came.stretches = came.stretches.saturating_add(1);
            }
            1 => came.waited = stretch(&mut self.second, false, came.waited, rousing),
            2 => {
                if came.wakes {
                    came.wake = stretch(&mut self.keeper, false, came.wake, rousing);
                } else if seed % 32 < 12 {
                    came = begin_wake(&mut self.keeper, came, kind);
                }
            }
            _ => {
                if asks {
                    let who = self.leaver.number();
                    let _ = make(&mut self.kicker, Call::Kick { who }, rousing);
                }
            }
        }
        came
    }

    /// Plays an order from two waits that begin: what each of them has come to.
    fn play(&mut self, kind: u8, after: u32, seed: u32, rousing: &mut Rousing) -> Came {
        let mut came = Came {
            wake: None,
            left: None,
            waited: None,
            wakes: false,
            stretches: 0,
        };
        if !begins(&mut self.leaver, wait_of(kind)) || !begins(&mut self.second, wait_of(kind)) {
            return came;
        }
        let mut seed = seed;
        for _ in 0..TURNS {
            seed = next_number(seed);
            came = self.turn(came, kind, after, seed, rousing);
        }
        came
    }

    /// Whether the order has come to a good end: the wake and the first wait are over. What the first one got it passes
    /// on, and then the second one has got it; and nothing is left in the queue, nor of what was made.
    fn ends_well(&mut self, came: Came, kind: u8, rousing: &mut Rousing) -> bool {
        let passed = if has_got(came.left) {
            passes_on(&mut self.leaver, kind, rousing)
        } else {
            was_left(came.left)
        };
        let waited = match came.waited {
            Some(answer) => Some(answer),
            None => go_on(&mut self.second, MOST, rousing),
        };
        let given = has_got(waited) && gives_back(&mut self.second, kind, rousing);
        let there = takes_back(&mut self.keeper, kind, rousing);
        let none = meets_nobody(&mut self.keeper, kind, rousing);
        came.wake.is_some() && passed && given && there && none
    }
}

/// Whether a wait was left that no wake had chosen.
fn was_left(answer: Option<Answer>) -> bool {
    matches!(
        answer,
        Some(Answer::Left {
            selected: false,
            ..
        })
    )
}

/// What the first wait got of which there is one, it makes once more for the second one.
fn passes_on(task: &mut CheckedTask, kind: u8, rousing: &mut Rousing) -> bool {
    match kind {
        1 | 2 | 5 | 6 | 7 => make(task, wake_of(kind), rousing).is_some(),
        _ => true,
    }
}

/// Whether a wake chose nobody.
fn chose_none(answer: Option<Answer>) -> bool {
    match answer {
        Some(Answer::Walked(walked)) => walked.selected == 0,
        Some(Answer::Selected(number)) => number == 0,
        _ => false,
    }
}

/// A wake of each kind that sets nothing, where there is one.
fn wake_again_of(kind: u8) -> Call {
    let mode = Mode::Normal;
    let count = 0;
    match kind {
        0 => Call::Wake {
            cond: 3,
            mode,
            count,
        },
        1 => Call::Wake {
            cond: 4,
            mode,
            count,
        },
        2 => Call::SimpleWake {
            cond: 50,
            all: true,
        },
        3 => Call::SetVar { var: 100, value: 0 },
        _ => wake_of(kind),
    }
}

/// A wake by who keeps what is waited for: whether no entry was queued for it. What it gave back it takes again.
fn meets_nobody(keeper: &mut CheckedTask, kind: u8, rousing: &mut Rousing) -> bool {
    let told = make(keeper, wake_again_of(kind), rousing);
    match kind {
        0..=3 => chose_none(told),
        7 => { told.is_some() && takes_back(keeper, 7, rousing) && !takes_back(keeper, 7, rousing) }
        _ => chose_none(told) && takes_back(keeper, kind, rousing),
    }
}

/// One order: whether it comes to a good end.
fn goes_well(players: &mut Players, kind: u8, after: u32, seed: u32) -> bool {
    let mut rousing = Rousing::new();
    let came = players.play(kind, after, seed, &mut rousing);
    let well = players.ends_well(came, kind, &mut rousing);
    rousing.hand_on();
    rousing.end();
    well
}

/// In each drawn order of the stretches, a wait that is left from any of its stretches on takes nothing from the second
/// one: what was made comes to the second one, or to the first one, which passes it on; and no entry is left.
#[test]
fn left_wait_takes_nothing_in_each_order(rt: HostRuntime) -> Result<(), Fail> {
    let mut players = start(&rt, rt.alloc())?;
    assert!(rt; took(players.keeper.begin(Call::TryBit { word: 2, bit: 5 })));
    assert!(rt; took(players.keeper.begin(Call::TryBit { word: 3, bit: 0 })));
    let mut seed = 1;
    for kind in 0..KINDS {
        for after in 0..MOMENTS {
            for _order in 0..ORDERS {
                seed = next_number(seed);
                assert!(rt;
                    goes_well(&mut players, kind, after, seed),
                    "a wait of kind {kind}"
                );
            }
        }
    }
    Ok(())
}
