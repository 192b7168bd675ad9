//! What C is told of a call: a code, and what the call answers.

ghost use Rattle.std.specs.Prelude.{◌≡◌};
ghost use Rattle.wq_head.specs.Roused.{tasks_in};
ghost use Rattle.sugwelan_c.specs.Told.{Lists, TellsReply, answer_code, bit_code, code_of, end_number, progress_code};
ghost use Rattle.wait_model.specs.Sentences.{taken_number};
ghost use Rattle.sugwelan_c.specs.Told.{head_number, lock_of, refusal_code, reply_value, roused_in_reply, truth, wait_code, walk_of};

use bit_wait::BitEnd;
use wait_event::wait_events::WaitEnd;
use wait_model::layout::{HEADS, MEMBERS};
use wait_model::queues::{End, Walked};
use wait_model::tasks::Taken;
use wq_checked::{Answer, Awaited, Progress, Refused};
use wq_head::{Rousing, no_walk};

/// The call is over.
pub const DONE: i32 = 0;
/// It goes on at once, by the next advance.
pub const AGAIN: i32 = 1;
/// It waits for a lock, and goes on once its ticket is served.
pub const LOCKED: i32 = 2;
/// The task was put asleep, and goes on once it was roused.
pub const PARK: i32 = 3;
/// The task does not keep the bit or page that it would give back, or to whose tally it would add.
pub const EPERM: i32 = -1;
/// No call is under way that could go on.
pub const ENOENT: i32 = -2;
/// A signal ended the wait.
pub const EINTR: i32 = -4;
/// No number is spare for a further task.
pub const EAGAIN: i32 = -11;
/// There is no memory.
pub const ENOMEM: i32 = -12;
/// Another call of the task is under way.
pub const EBUSY: i32 = -16;
/// A number is out of its range, or a kind is none.
pub const EINVAL: i32 = -22;
/// No place in the queue is left.
pub const ENOSPC: i32 = -28;
/// The task keeps the bit or page itself for which it would wait.
pub const EDEADLK: i32 = -35;
/// The task keeps a bit or a page, and would be given up.
pub const ENOTEMPTY: i32 = -39;
/// A wait in a simple queue would be killable.
pub const EOPNOTSUPP: i32 = -95;
/// The task left the wait: it is over, and what it waited for was not there.
pub const ECANCELED: i32 = -125;
/// The task makes no more calls.
pub const ENOTRECOVERABLE: i32 = -131;

/// How many tasks a call names to be roused at most.
pub const ROOM: usize = MEMBERS as usize;

/// What a call tells beside its code: its value; of one that waits for a lock, the ticket that it has drawn, the one that
/// was found served in its place, and the lock's head, which is `HEADS` of another; of a wake, how many it woke, how many
/// of them exclusively, in how many holds, and how it ended (0 at the end, 1 its count was spent, 2 a function stopped
/// it); the head whose lock it gave back, or `HEADS`; and the tasks that are to be roused.
#[repr(C)]
#[derive(Drop)]
pub struct Told {
    pub value: u64,
    pub ticket: u64,
    pub served: u64,
    pub woken: u32,
    pub selected: u32,
    pub holds: u32,
    pub end: u32,
    pub head: u32,
    pub passed: u32,
    pub rouse_count: u32,
    pub rouse: [u8; ROOM],
}

/// What was done with a call: it was refused; it goes on so, or is over with an answer; it asked for a number.
#[derive(Clone, Copy)]
pub enum Reply {
    Refused(Refused),
    On(Progress),
    Value(u64),
}

pub fn refusal_code(reason: Refused) -> i32
    ensures { result ≡ refusal_code reason }
{
    match reason {
        Refused::OutOfRange => EINVAL,
        Refused::NotListed => EOPNOTSUPP,
        Refused::Busy => EBUSY,
        Refused::Nothing => ENOENT,
        Refused::NotHeld => EPERM,
        Refused::Held => EDEADLK,
        Refused::Starved => ENOTRECOVERABLE,
    }
}

fn wait_code(end: WaitEnd) -> i32
    ensures { result ≡ wait_code end }
{
    match end {
        WaitEnd::Signal { .. } => EINTR,
        WaitEnd::Worn { .. } => ENOSPC,
    }
}

fn bit_code(end: BitEnd) -> i32
    ensures { result ≡ bit_code end }
{
    match end {
        BitEnd::Interrupted { .. } => EINTR,
        BitEnd::Worn { .. } => ENOSPC,
    }
}

fn answer_code(answer: Answer) -> i32
    ensures { result ≡ answer_code answer }
{
    match answer {
        Answer::Waited(Ok(())) => DONE,
        Answer::Waited(Err(end)) => wait_code(end),
        Answer::Changed(Ok(_)) => DONE,
        Answer::Changed(Err(end)) => wait_code(end),
        Answer::Bit(Ok(())) => DONE,
        Answer::Bit(Err(end)) => bit_code(end),
        Answer::Left { .. } => ECANCELED,
        _ => DONE,
    }
}

fn progress_code(told: Progress) -> i32
    ensures { result ≡ progress_code told }
{
    match told {
        Progress::Again => AGAIN,
        Progress::Locked(_) => LOCKED,
        Progress::Park => PARK,
        Progress::Done(answer) => answer_code(answer),
        Progress::Starved => ENOTRECOVERABLE,
    }
}

/// The code of a reply.
pub fn code_of(reply: Reply) -> i32
    ensures { result ≡ code_of reply }
{
    match reply {
        Reply::Refused(reason) => refusal_code(reason),
        Reply::On(told) => progress_code(told),
        Reply::Value(_) => DONE,
    }
}

fn truth(so: bool) -> u64
    ensures { result ≡ truth so }
{
    if so { 1 } else { 0 }
}

/// The number of the signals that a task took.
fn taken_number(taken: Taken) -> u64
    ensures { result ≡ taken_number taken }
{
    match taken {
        Taken::Nothing => 0,
        Taken::Plain => 1,
        Taken::Fatal => 2,
    }
}

/// The value of a call that is over: of a wait for a variable, what its last load found; of a wait that was left, what
/// its last look at the condition, the variable, the word of the bit or the count found; of a call about a completion,
/// whether it was done; of a try, whether it took the bit; of a kick, whether the task was in the state of a sleep; the
/// value, or the signals, that a call at once answers.
fn reply_value(reply: Reply) -> u64
    ensures { result ≡ reply_value reply }
{
    match reply {
        Reply::On(Progress::Done(Answer::Changed(Ok(seen)))) => seen,
        Reply::On(Progress::Done(Answer::Left { seen, .. })) => seen,
        Reply::On(Progress::Done(Answer::Cell(done))) => truth(done),
        Reply::On(Progress::Done(Answer::Tried(clear))) => truth(clear),
        Reply::On(Progress::Done(Answer::Value(value))) => value,
        Reply::On(Progress::Done(Answer::Kicked { woke, .. })) => truth(woke),
        Reply::On(Progress::Done(Answer::Accepted(taken))) => taken_number(taken),
        Reply::Value(value) => value,
        _ => 0,
    }
}

/// The walk of a wake that is over; of a wake of a simple queue, how many entries it took off.
fn walk_of(reply: Reply) -> Walked
    ensures { result ≡ walk_of reply }
{
    match reply {
        Reply::On(Progress::Done(Answer::Walked(walked))) => walked,
        Reply::On(Progress::Done(Answer::Selected(selected))) => Walked {
            selected,
            woken: 0,
            holds: 0,
            end: End::End,
        },
        _ => no_walk(),
    }
}

fn end_number(end: End) -> u32
    ensures { result ≡ end_number end }
{
    match end {
        End::End => 0,
        End::Spent => 1,
        End::Stopped => 2,
    }
}

/// The lock that a call waits for.
fn lock_of(reply: Reply) -> Awaited
    ensures { result ≡ lock_of reply }
{
    match reply {
        Reply::On(Progress::Locked(lock)) => lock,
        _ => Awaited {
            head: HEADS,
            ticket: 0,
            served: 0,
        },
    }
}

/// The number of a head, or `HEADS` for none.
fn head_number(head: Option<u16>) -> u32
    ensures { result ≡ head_number head }
{
    match head {
        Some(head) => u32::from(head),
        None => u32::from(HEADS),
    }
}

/// Writes the tasks, and answers how many they are.
fn list_tasks(tasks: &[u8], rouse: &mut [u8; ROOM]) -> u32
    ensures { Lists tasks.now result rouse.new }
{
    let count = if tasks.len() < ROOM {
        tasks.len()
    } else {
        ROOM
    };
    for i in 0..count {
        rouse[i] = tasks[i];
    }
    count as u32
}

/// Writes what is told of a reply, the head whose lock was given back, and the tasks that are to be roused.
fn tell_with(reply: Reply, passed: Option<u16>, tasks: &[u8], told: &mut Told)
    ensures { TellsReply reply passed tasks.now told.new }
{
    let lock = lock_of(reply);
    told.head = u32::from(lock.head);
    told.ticket = lock.ticket;
    told.served = lock.served;
    told.passed = head_number(passed);
    let walk = walk_of(reply);
    told.value = reply_value(reply);
    told.woken = walk.woken;
    told.selected = walk.selected;
    told.holds = walk.holds;
    told.end = end_number(walk.end);
    told.rouse_count = list_tasks(tasks, &mut told.rouse);
}

/// Writes what is told of a reply; `passed` has the head whose lock was given back, and `rousing` the tasks that an
/// advance is to rouse.
pub fn tell(reply: Reply, passed: Option<u16>, rousing: &Rousing, told: &mut Told)
    ensures { TellsReply reply passed (roused_in_reply reply (tasks_in rousing.now)) told.new }
{
    match reply {
        Reply::On(Progress::Done(Answer::Raised(Some(who)))) => {
            tell_with(reply, passed, &[who], told)
        }
        Reply::On(
            Progress::Done(
                Answer::Kicked {
                    rouse: Some(who),
                    ..
                },
            ),
        ) => tell_with(reply, passed, &[who], told),
        _ => tell_with(reply, passed, rousing.tasks(), told),
    }
}
