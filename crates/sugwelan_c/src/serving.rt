//! A task's calls, as C asks for them.

ghost use Rattle.std.specs.Prelude.{◌≡◌, true, Some, []};
ghost use Rattle.wq_head.specs.Roused.{tasks_in};
ghost use Rattle.sugwelan_c.specs.Served.{Further, GivesLock, Names, Replies, Serves, goes_by, is_leave};
ghost use Rattle.wq_checked.specs.declared.calls.Progress.TheVariants as progress;
ghost use Rattle.sugwelan_c.specs.declared.calls.Wanted.TheVariants as wanted;
ghost use Rattle.sugwelan_c.specs.declared.replies.Reply.TheVariants as answered;

use crate::calls::{Call, Wanted, wanted_of};
use crate::replies::{Reply, Told, code_of, tell};
use wq_checked::calls::Call as TaskCall;
use wq_checked::{CheckedTask, Progress, Refused};
use wq_head::Rousing;

/// How many stretches one call goes on beyond its first: more than a wait has before its task is asleep, and after it.
const FURTHER: u8 = 16;

/// One stretch of the call that is under way.
fn advance(task: &mut CheckedTask, rousing: &mut Rousing, passed: &mut Option<u16>) -> Reply
    ensures replies { Replies (Some wanted.Advance) task.old task.new result }
    ensures names { Names (Some wanted.Advance) task.old task.new result rousing.new }
    ensures gives { GivesLock (Some wanted.Advance) task.old result passed.old passed.new }
{
    match task.advance(rousing, passed) {
        Ok(told) => Reply::On(told),
        Err(reason) => Reply::Refused(reason),
    }
}

/// One stretch of the call that is under way, which is left where it is a wait.
fn leave(task: &mut CheckedTask, rousing: &mut Rousing, passed: &mut Option<u16>) -> Reply
    ensures replies { Replies (Some wanted.Leave) task.old task.new result }
    ensures names { Names (Some wanted.Leave) task.old task.new result rousing.new }
    ensures gives { GivesLock (Some wanted.Leave) task.old result passed.old passed.new }
{
    match task.leave(rousing, passed) {
        Ok(told) => Reply::On(told),
        Err(reason) => Reply::Refused(reason),
    }
}

/// One stretch of the call that is under way, which leaves it or does not.
fn go_on(
    task: &mut CheckedTask,
    leaves: bool,
    rousing: &mut Rousing,
    passed: &mut Option<u16>,
) -> Reply
    ensures replies { Replies (Some (goes_by leaves)) task.old task.new result }
    ensures names { Names (Some (goes_by leaves)) task.old task.new result rousing.new }
    ensures gives { GivesLock (Some (goes_by leaves)) task.old result passed.old passed.new }
{
    if leaves {
        leave(task, rousing, passed)
    } else {
        advance(task, rousing, passed)
    }
}

/// A call that begins.
fn begin(task: &mut CheckedTask, call: TaskCall) -> Reply
    ensures { Replies (Some (wanted.Begin call)) task.old task.new result }
{
    match task.begin(call) {
        Ok(told) => Reply::On(told),
        Err(reason) => Reply::Refused(reason),
    }
}

/// What is done with a call. One that goes on with the call under way names the tasks that
/// are to be roused, and tells the lock that it gave back.
fn reply_to(
    task: &mut CheckedTask,
    want: Option<Wanted>,
    rousing: &mut Rousing,
    passed: &mut Option<u16>,
) -> Reply
    ensures replies { Replies want task.old task.new result }
    ensures names { tasks_in rousing.old ≡ [] → Names want task.old task.new result rousing.new }
    ensures gives { GivesLock want task.old result passed.old passed.new }
{
    match want {
        None => Reply::Refused(Refused::OutOfRange),
        Some(Wanted::Advance) => advance(task, rousing, passed),
        Some(Wanted::Leave) => leave(task, rousing, passed),
        Some(Wanted::Number) => Reply::Value(u64::from(task.number())),
        Some(Wanted::Begin(call)) => begin(task, call),
    }
}

/// Whether a call goes on at once and has named nobody.
fn may_go_on(reply: Reply, rousing: &Rousing) -> bool
    ensures { result ≡ true → (reply ≡ answered.On progress.Again) × (tasks_in rousing.now ≡ []) }
{
    match reply {
        Reply::On(Progress::Again) => rousing.tasks().is_empty(),
        _ => false,
    }
}

/// Goes on with a call, so long as it does so at once and names nobody: by `FURTHER` stretches at most, each of which
/// leaves it or does not.
fn go_further(
    task: &mut CheckedTask,
    leaves: bool,
    first: Reply,
    rousing: &mut Rousing,
    passed: &mut Option<u16>,
) -> Reply
    ensures { Further (goes_by leaves) task.old first (tasks_in rousing.old) passed.old
        task.new result (tasks_in rousing.new) passed.new }
{
    let mut reply = first;
    for _stretch in 0..FURTHER {
        if !may_go_on(reply, rousing) {
            return reply;
        }
        reply = go_on(task, leaves, rousing, passed);
    }
    reply
}

/// Whether a call asks to leave.
fn is_leave(want: Option<Wanted>) -> bool
    ensures { result ≡ is_leave want }
{
    match want {
        Some(Wanted::Leave) => true,
        _ => false,
    }
}

/// Serves a call of a task: the answer is a code, and `told` says the rest.
pub fn serve(task: &mut CheckedTask, call: &Call, told: &mut Told) -> i32
    ensures { Serves task.old task.new call.now told.new result }
{
    let want = wanted_of(call);
    let mut rousing = Rousing::new();
    let mut passed = None;
    let first = reply_to(task, want, &mut rousing, &mut passed);
    let reply = go_further(task, is_leave(want), first, &mut rousing, &mut passed);
    tell(reply, passed, &rousing, told);
    // The caller rouses those that `told` names.
    rousing.hand_on();
    rousing.end();
    code_of(reply)
}
