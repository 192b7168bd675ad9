//! Each example in threads, in Domains whose tasks park at once when they are put asleep.

ghost use Rattle.std.specs.Prelude.{◌<◌};

use crate::buffer::Side;
use crate::driver::{interrupt, release, transfer};
use crate::worker::Worker;
use std::sync::Wait;
use std::test::Fail;
use std::thread;
use wait_event::WaitEnd;
use wait_rule::{Domain, send_signal};

/// How many values go through a buffer, and how many commands each user hands to the device.
const VALUES: u64 = 300;

/// How many Domains are tried.
const ROUNDS: u32 = 10;

/// Opens the buffer and puts the values 1 to `VALUES`: true where each was put.
fn put_all<R: Wait>(rt: &R, mut side: Side) -> bool {
    side.open(rt);
    for i in 0..VALUES {
        if side.put(rt, i + 1).is_err() {
            return false;
        }
    }
    true
}

/// Takes as many: true where they come in their order.
fn get_all<R: Wait>(rt: &R, mut side: Side) -> bool {
    for i in 0..VALUES {
        match side.get(rt) {
            Ok(value) => {
                if value != i + 1 {
                    return false;
                }
            }
            Err(_) => return false,
        }
    }
    true
}

/// All values come through, in their order.
#[test]
fn values_in_their_order(rt: HostRuntime) -> Result<(), Fail> {
    for _round in 0..ROUNDS {
        let (domain, mut task) = Domain::with_looks(rt.alloc(), 0)?;
        let Ok(other) = task.fork(&domain, 0) else {
            panic!(rt; "numbers are spare")
        };
        let producer = Side::new(Worker::new(&domain, task));
        let consumer = Side::new(Worker::new(&domain, other));
        let (put, got) = thread::join(&rt, || put_all(&rt, producer), || get_all(&rt, consumer));
        assert!(rt; put && got);
    }
    Ok(())
}

/// Hands commands to the device, from `first` on: true where each status is that of its command.
fn transfer_all<R: Wait>(rt: &R, mut worker: Worker, first: u32) -> bool {
    for i in 0..VALUES {
        let command = u64::from(first) + i + 1;
        match transfer(&mut worker, rt, command) {
            Ok(status) => {
                if status != command + 1 {
                    return false;
                }
            }
            Err(_) => return false,
        }
    }
    true
}

/// Serves the commands of two users.
fn serve_all<R: Wait>(rt: &R, mut worker: Worker) -> bool {
    release(&mut worker, rt);
    for _ in 0..2 * VALUES {
        if interrupt(&mut worker, rt).is_err() {
            return false;
        }
    }
    true
}

/// Each of two users gets the status of its own command.
#[test]
fn statuses_to_their_users(rt: HostRuntime) -> Result<(), Fail> {
    let (domain, mut task) = Domain::with_looks(rt.alloc(), 0)?;
    let (Ok(one), Ok(two)) = (task.fork(&domain, 0), task.fork(&domain, 0)) else {
        panic!(rt; "numbers are spare")
    };
    let device = Worker::new(&domain, task);
    let one = Worker::new(&domain, one);
    let two = Worker::new(&domain, two);
    let (served, users) = thread::join(
        &rt,
        || serve_all(&rt, device),
        || thread::join(
            &rt,
            || transfer_all(&rt, one, 0),
            || transfer_all(&rt, two, 1000),
        ),
    );
    assert!(rt; served && users.0 && users.1);
    Ok(())
}

/// A signal ends a user's wait for the device.
#[test]
fn signal_ends_the_wait(rt: HostRuntime) -> Result<(), Fail> {
    let (domain, mut task) = Domain::new(rt.alloc())?;
    let Ok(user) = task.fork(&domain, 0) else {
        panic!(rt; "numbers are spare")
    };
    send_signal(&rt, &domain, &mut task, user.number(), false);
    let mut user = Worker::new(&domain, user);
    assert!(rt;
        matches!(
            transfer(&mut user, &rt, 1),
            Err(WaitEnd::Signal {
                seen: 0,
                selected: false
            })
        )
    );
    Ok(())
}
