//! Scripts and what replaying them gives. The texts were written by hand from the rules, not by this program. A line of a
//! text here has what one task does until another one goes on.

use crate::cases::{Bytes, Case, REPLAY};

pub(crate) const NOTHING: Case = Case {
    name: "nothing",
    input: Bytes::Folded("waitq 1\n"),
    text: Bytes::Folded("events 0; end\n"),
    ..REPLAY
};

const REFUSED_OPEN: Case = Case {
    name: "refused_open",
    input: Bytes::Folded("waitq 1; step 1 1; call 1 wait c0 plain; call 1 set c0 1\n"),
    text: Bytes::Folded("t1 nocall; t1 refused 2; events 0; task 1 run none open; end\n"),
    ..REPLAY
};

pub(crate) const WAIT_SET_WAKE: Case = Case {
    name: "wait_set_wake",
    input: Bytes::Folded(
        "waitq 1; call 1 wait c0 plain; step 1 99; call 2 set c0 1; step 2 1; call 2 wake c0 normal 0; step 2 99; step 1 99\n",
    ),
    text: Bytes::Folded(
        "\
t1 load c0 0; t1 lock h256; t1 queue h256 front; t1 state unint; t1 unlock h256; t1 load c0 0; t1 sleep asleep\n\
t2 set c0 1; t2 = 0; t2 lock h256; t2 wake t1 yes; t2 unqueue t1; t2 unlock h256; \
t2 = woken 1 selected 0 holds 1 end\n\
t1 lock h256; t1 queue h256 front; t1 state unint; t1 unlock h256; t1 load c0 1; t1 state run; t1 queued yes; \
t1 lock h256; t1 unqueue t1; t1 unlock h256; t1 = 0\n\
events 22; task 1 run none idle; task 2 run none idle; word c0 1; end\n",
    ),
    ..REPLAY
};

/// Calls that are refused.
pub(crate) const REFUSED: &[Case] = &[
    NOTHING,
    REFUSED_OPEN,
    Case {
        name: "refused_open_read",
        input: Bytes::Folded("waitq 1; step 1 1; call 1 wait c0 plain; call 1 read c0\n"),
        ..REFUSED_OPEN
    },
];

/// Wakes of who waits for a condition.
pub(crate) const WAKES: &[Case] = &[
    WAIT_SET_WAKE,
    Case {
        name: "wake_before_load",
        input: Bytes::Folded(
            "waitq 1; call 1 wait c0 plain; step 1 5; call 2 set c0 1; step 2 1; call 2 wake c0 normal 0; step 2 99; step 1 99\n",
        ),
        text: Bytes::Folded(
            "\
t1 load c0 0; t1 lock h256; t1 queue h256 front; t1 state unint; t1 unlock h256\n\
t2 set c0 1; t2 = 0; t2 lock h256; t2 wake t1 yes; t2 unqueue t1; t2 unlock h256; \
t2 = woken 1 selected 0 holds 1 end\n\
t1 load c0 1; t1 state run; t1 queued no; t1 = 0\n\
events 13; task 1 run none idle; task 2 run none idle; word c0 1; end\n",
        ),
        ..REPLAY
    },
    Case {
        name: "wake_before_sleep",
        input: Bytes::Folded(
            "waitq 1; call 1 wait c0 plain; step 1 6; call 2 set c0 1; step 2 1; call 2 wake c0 normal 0; step 2 99; step 1 99\n",
        ),
        text: Bytes::Folded(
            "\
t1 load c0 0; t1 lock h256; t1 queue h256 front; t1 state unint; t1 unlock h256; t1 load c0 0\n\
t2 set c0 1; t2 = 0; t2 lock h256; t2 wake t1 yes; t2 unqueue t1; t2 unlock h256; \
t2 = woken 1 selected 0 holds 1 end\n\
t1 sleep stay; t1 lock h256; t1 queue h256 front; t1 state unint; t1 unlock h256; t1 load c0 1; t1 state run; \
t1 queued yes; t1 lock h256; t1 unqueue t1; t1 unlock h256; t1 = 0\n\
events 22; task 1 run none idle; task 2 run none idle; word c0 1; end\n",
        ),
        ..REPLAY
    },
    Case {
        name: "mode_misses",
        input: Bytes::Folded(
            "waitq 1; call 1 wait c0 plain; step 1 99; call 2 wake c0 int 0; step 2 99\n",
        ),
        text: Bytes::Folded(
            "\
t1 load c0 0; t1 lock h256; t1 queue h256 front; t1 state unint; t1 unlock h256; t1 load c0 0; t1 sleep asleep\n\
t2 lock h256; t2 wake t1 no; t2 unlock h256; t2 = woken 0 selected 0 holds 1 end\n\
events 10; task 1 unint none asleep; task 2 run none idle; head h256 t1; end\n",
        ),
        ..REPLAY
    },
    Case {
        name: "wake_one_exclusive",
        input: Bytes::Folded(
            "\
waitq 1; call 1 wait c0 int-ex; step 1 99; call 2 wait c0 int-ex; step 2 99; call 3 wait c0 plain; step 3 99; \
call 4 wake c0 normal 1; step 4 99\n",
        ),
        text: Bytes::Folded(
            "\
t1 load c0 0; t1 lock h256; t1 look no; t1 queue h256 tail; t1 state int; t1 unlock h256; t1 load c0 0; \
t1 sleep asleep\n\
t2 load c0 0; t2 lock h256; t2 look no; t2 queue h256 tail; t2 state int; t2 unlock h256; t2 load c0 0; \
t2 sleep asleep\n\
t3 load c0 0; t3 lock h256; t3 queue h256 front; t3 state unint; t3 unlock h256; t3 load c0 0; t3 sleep asleep\n\
t4 lock h256; t4 wake t3 yes; t4 unqueue t3; t4 wake t1 yes; t4 unqueue t1; t4 unlock h256 spent; \
t4 = woken 2 selected 1 holds 1 spent\n\
events 29; task 1 run none open; task 2 int none asleep; task 3 run none open; task 4 run none idle; head h256 t2; \
end\n",
        ),
        ..REPLAY
    },
];

/// Who is woken first, and what comes between a wake and its task.
pub(crate) const ORDERS: &[Case] = &[
    Case {
        name: "priority_first",
        input: Bytes::Folded(
            "\
waitq 1; call 1 wait c0 plain; step 1 99; call 2 add c0 woken prio; step 2 99; call 2 read c0; step 2 1; \
call 2 woken int; step 2 99; call 3 set c0 1; step 3 1; call 3 wake c0 normal 1; step 3 99; step 2 99\n",
        ),
        text: Bytes::Folded(
            "\
t1 load c0 0; t1 lock h256; t1 queue h256 front; t1 state unint; t1 unlock h256; t1 load c0 0; t1 sleep asleep\n\
t2 lock h256; t2 queue h256 prio; t2 unlock h256; t2 = 0; t2 load c0 0; t2 = 0; t2 state int; t2 flag no; \
t2 sleep asleep\n\
t3 set c0 1; t3 = 0; t3 lock h256; t3 woken t2; t3 wake t2 yes; t3 unlock h256 spent; \
t3 = woken 1 selected 1 holds 1 spent\n\
t2 state run; t2 unflag; t2 = 0\n\
events 21; task 1 unint none asleep; task 2 run none idle; task 3 run none idle; head h256 t2 t1; word c0 1; end\n",
        ),
        ..REPLAY
    },
    Case {
        name: "selected_then_signalled",
        input: Bytes::Folded(
            "\
waitq 1; call 1 wait c0 int-ex; step 1 99; call 2 set c0 1; step 2 1; call 2 wake c0 normal 1; step 2 99; \
call 3 signal 1 plain; step 3 99; step 1 99\n",
        ),
        text: Bytes::Folded(
            "\
t1 load c0 0; t1 lock h256; t1 look no; t1 queue h256 tail; t1 state int; t1 unlock h256; t1 load c0 0; \
t1 sleep asleep\n\
t2 set c0 1; t2 = 0; t2 lock h256; t2 wake t1 yes; t2 unqueue t1; t2 unlock h256 spent; \
t2 = woken 1 selected 1 holds 1 spent\n\
t3 signal t1 plain; t3 wake t1 no; t3 = 0\n\
t1 lock h256; t1 look yes; t1 unlock h256; t1 load c0 1; t1 state run; t1 queued no; t1 = 0\n\
events 21; task 1 run plain idle; task 2 run none idle; task 3 run none idle; word c0 1; end\n",
        ),
        ..REPLAY
    },
    Case {
        name: "selected_condition_taken",
        input: Bytes::Folded(
            "\
waitq 1; call 1 wait c0 int-ex; step 1 99; call 2 set c0 1; step 2 1; call 2 wake c0 normal 1; step 2 99; \
call 3 signal 1 plain; step 3 99; call 4 take c0; step 4 1; step 1 99\n",
        ),
        text: Bytes::Folded(
            "\
t1 load c0 0; t1 lock h256; t1 look no; t1 queue h256 tail; t1 state int; t1 unlock h256; t1 load c0 0; \
t1 sleep asleep\n\
t2 set c0 1; t2 = 0; t2 lock h256; t2 wake t1 yes; t2 unqueue t1; t2 unlock h256 spent; \
t2 = woken 1 selected 1 holds 1 spent\n\
t3 signal t1 plain; t3 wake t1 no; t3 = 0\n\
t4 take c0 1; t4 = 1\n\
t1 lock h256; t1 look yes; t1 unlock h256; t1 load c0 0; t1 = -512\n\
events 20; task 1 run plain idle; task 2 run none idle; task 3 run none idle; task 4 run none idle; end\n",
        ),
        ..REPLAY
    },
    Case {
        name: "woken_flag_before_state",
        input: Bytes::Folded(
            "\
waitq 1; call 1 add c0 woken front; step 1 9; call 1 read c0; step 1 1; call 2 wake c0 normal 0; step 2 9; \
call 1 woken int; step 1 9; call 1 remove; step 1 9\n",
        ),
        text: Bytes::Folded(
            "\
t1 lock h256; t1 queue h256 front; t1 unlock h256; t1 = 0; t1 load c0 0; t1 = 0\n\
t2 lock h256; t2 woken t1; t2 wake t1 no; t2 unlock h256; t2 = woken 0 selected 0 holds 1 end\n\
t1 state int; t1 flag yes; t1 state run; t1 unflag; t1 = 0; t1 lock h256; t1 unqueue t1; t1 unlock h256; t1 = 0\n\
events 15; task 1 run none idle; task 2 run none idle; end\n",
        ),
        ..REPLAY
    },
];

/// Waits for completions and for bits.
pub(crate) const OTHER_WAITS: &[Case] = &[
    Case {
        name: "completions",
        input: Bytes::Folded(
            "\
waitq 1; call 1 complete d0; step 1 9; call 1 complete d0; step 1 9; call 2 waitfor d0 plain; step 2 9; \
call 2 trywait d0; step 2 9; call 2 trywait d0; step 2 9; call 1 completeall d0; step 1 9; call 2 waitfor d0 int; \
step 2 9; call 2 isdone d0; step 2 9; call 1 reinit d0; step 1 9\n",
        ),
        text: Bytes::Folded(
            "\
t1 lock h320; t1 load d0 0; t1 set d0 1; t1 unlock h320; t1 = 0; t1 lock h320; t1 load d0 1; t1 set d0 2; \
t1 unlock h320; t1 = 0\n\
t2 lock h320; t2 load d0 2; t2 set d0 1; t2 unlock h320; t2 = 0; t2 load d0 1; t2 lock h320; t2 load d0 1; \
t2 set d0 0; t2 unlock h320; t2 = 1; t2 load d0 0; t2 = 0\n\
t1 lock h320; t1 set d0 4294967295; t1 unlock h320; t1 = 0\n\
t2 lock h320; t2 load d0 4294967295; t2 unlock h320; t2 = 0; t2 load d0 4294967295; t2 lock h320; t2 unlock h320; \
t2 = 1\n\
t1 lock h320; t1 set d0 0; t1 unlock h320; t1 = 0\n\
events 30; task 1 run none idle; task 2 run none idle; end\n",
        ),
        ..REPLAY
    },
    Case {
        name: "two_waiters_one_permit",
        input: Bytes::Folded(
            "waitq 1; call 1 waitfor d0 plain; step 1 9; call 2 waitfor d0 plain; step 2 9; call 3 complete d0; step 3 9\n",
        ),
        text: Bytes::Folded(
            "\
t1 lock h320; t1 load d0 0; t1 queue h320 tail; t1 state unint; t1 unlock h320; t1 sleep asleep\n\
t2 lock h320; t2 load d0 0; t2 queue h320 tail; t2 state unint; t2 unlock h320; t2 sleep asleep\n\
t3 lock h320; t3 load d0 0; t3 set d0 1; t3 wake t1 yes; t3 unqueue t1; t3 unlock h320 spent; t3 = 0\n\
events 18; task 1 run none open; task 2 unint none asleep; task 3 run none idle; head h320 t2; word d0 1; end\n",
        ),
        ..REPLAY
    },
    Case {
        name: "bit_lock_signalled",
        input: Bytes::Folded(
            "\
waitq 1; call 1 trybit b0.0; step 1 1; call 2 lockbit b0.0 int; step 2 99; call 3 signal 2 plain; step 3 99; \
call 1 clearbit b0.0; step 1 99; step 2 99\n",
        ),
        text: Bytes::Folded(
            "\
t1 tas b0.0 0; t1 = 1\n\
t2 tas b0.0 1; t2 lock h0; t2 queue h0 tail; t2 state int; t2 unlock h0; t2 load b0 1; t2 sleep asleep\n\
t3 signal t2 plain; t3 wake t2 yes; t3 = 0\n\
t1 clear b0.0; t1 active h0 yes; t1 lock h0; t1 load b0 0; t1 wake t2 no; t1 unlock h0; \
t1 = woken 0 selected 0 holds 1 end\n\
t2 look yes; t2 state run; t2 queued yes; t2 lock h0; t2 unqueue t2; t2 unlock h0; t2 tas b0.0 0; t2 = 0\n\
events 23; task 1 run none idle; task 2 run plain idle; task 3 run none idle; word b0 1; end\n",
        ),
        ..REPLAY
    },
];

/// Locks of pages.
pub(crate) const PAGES: &[Case] = &[
    Case {
        name: "page_handed_on",
        input: Bytes::Folded(
            "\
waitq 2; call 1 trybit b0.0; step 1 1; call 2 lockpage b0 int; step 2 99; call 3 signal 2 plain; step 3 99; \
call 1 clearbit b0.0; step 1 99; step 2 99\n",
        ),
        text: Bytes::Folded(
            "\
t1 tas b0.0 0; t1 = 1\n\
t2 tas b0.0 1; t2 unflag; t2 lock h0; t2 queue h0 tail; t2 tas b0.0 1; t2 unlock h0; t2 state int; t2 flag no; \
t2 look no; t2 sleep asleep\n\
t3 signal t2 plain; t3 wake t2 yes; t3 = 0\n\
t1 clear b0.0; t1 active h0 yes; t1 lock h0; t1 load b0 0; t1 tas b0.0 0 t2; t1 handed t2; t1 wake t2 no; \
t1 unqueue t2; t1 unlock h0 spent; t1 = woken 1 selected 1 holds 1 spent\n\
t2 state int; t2 flag yes; t2 state run; t2 queued no; t2 flag yes; t2 unflag; t2 = 0\n\
events 28; task 1 run none idle; task 2 run plain idle; task 3 run none idle; word b0 1; end\n",
        ),
        ..REPLAY
    },
    Case {
        name: "page_taken_by_stranger",
        input: Bytes::Folded(
            "\
waitq 2; call 1 trybit b0.0; step 1 1; call 2 lockpage b0 plain; step 2 99; call 1 clearbit b0.0; step 1 1; \
call 4 trybit b0.0; step 4 1; step 1 99\n",
        ),
        text: Bytes::Folded(
            "\
t1 tas b0.0 0; t1 = 1\n\
t2 tas b0.0 1; t2 unflag; t2 lock h0; t2 queue h0 tail; t2 tas b0.0 1; t2 unlock h0; t2 state unint; t2 flag no; \
t2 sleep asleep\n\
t1 clear b0.0\n\
t4 tas b0.0 0; t4 = 1\n\
t1 active h0 yes; t1 lock h0; t1 load b0 1; t1 unlock h0; t1 = woken 0 selected 0 holds 1 stopped\n\
events 16; task 1 run none idle; task 2 unint none asleep; task 4 run none idle; head h0 t2; word b0 1; end\n",
        ),
        ..REPLAY
    },
];
