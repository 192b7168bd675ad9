//! The call that a word of the generator draws.

ghost use Rattle.std.specs.Prelude.{◌≡◌, ◌<◌};
ghost use Rattle.drill_gen.specs.Drill.{task_in, call_of, drawn_call};

use wait_model::calls::Call;
use wait_model::tasks::{How, SleepState};
use wait_model::watches::Mode;

/// How many tasks make calls, from task 0 on.
const CALLERS: u64 = 16;
/// How many kinds of calls there are.
const KINDS: u64 = 8;
/// How many conditions they speak of, from condition 0 on.
const CONDS: u64 = 4;

/// The call of a kind, on a condition or, for a signal, at a task.
fn call_by(kind: u64, cond: u8, who: u8) -> Call
    ensures { result ≡ call_of kind cond who }
{
    match kind {
        0 => Call::Wait {
            cond,
            how: How {
                state: SleepState::Uninterruptible,
                exclusive: false,
            },
        },
        1 => Call::Wait {
            cond,
            how: How {
                state: SleepState::Interruptible,
                exclusive: false,
            },
        },
        2 => Call::Wait {
            cond,
            how: How {
                state: SleepState::Interruptible,
                exclusive: true,
            },
        },
        3 => Call::Set { cond, value: 1 },
        4 => Call::Wake {
            cond,
            mode: Mode::Normal,
            count: 0,
        },
        5 => Call::Take { cond },
        6 => Call::Signal { who, fatal: false },
        _ => Call::Accept,
    }
}

/// The task whose call a word draws: 0 to 15.
pub fn task_drawn(word: u64) -> u8
    ensures task { result ≡ task_in word }
    ensures few { result < CALLERS }
{
    (word % CALLERS) as u8
}

/// The call that a word draws. From its low end the word gives the task, the kind of the call, the condition, and
/// the task that a signal goes to.
pub fn call_drawn(word: u64) -> Call
    ensures { result ≡ drawn_call word }
{
    let kind = word / CALLERS % KINDS;
    let cond = (word / (CALLERS * KINDS) % CONDS) as u8;
    let who = (word / (CALLERS * KINDS * CONDS) % CALLERS) as u8;
    call_by(kind, cond, who)
}
