//! The forms of the calls on plain conditions and tasks, and the calls by their names: for each name, what the
//! words after it say.

ghost use Rattle.std.specs.Prelude.{◌≡◌, map, codes};
ghost use Rattle.std.specs.Str.{bytes_eq};
ghost use Rattle.wait_script.specs.Forms as spec;
ghost use Rattle.wait_script.specs.Names.{form_of};

use crate::cells::{
    clear_bit, complete, complete_all, is_done, lock_bit, lock_page, reinit, set_var, simple_wait,
    simple_wake, try_bit, try_wait, wait_bit, wait_for, wait_var,
};
use crate::fields::{
    LAST_PRIORITY_TASK, condition, count, fatal, form, how, kind, mode, state, task, value,
};
use crate::names::{Name, name_of};
use crate::reason::Reason;
use crate::version::Version;
use crate::words::both;
use wait_model::calls::Call;
use wait_model::layout::{FIRST_SIMPLE, PLAIN_CONDITIONS};

/// The last condition of a full wait queue, and the last of all.
const LAST_FULL: u8 = FIRST_SIMPLE as u8 - 1;

const LAST_COND: u8 = PLAIN_CONDITIONS as u8 - 1;

/// `remove` and `accept`, which have no words after their names.
fn alone(words: &[&[u8]], call: Call) -> Result<Call, Reason>
    ensures { result ≡ spec.form0 call (map (λ w. w.now) words.now) }
{
    if words.is_empty() {
        Ok(call)
    } else {
        Err(Reason::WordCount)
    }
}

/// `wait CONDITION HOW`, by the words after the name.
fn wait(words: &[&[u8]]) -> Result<Call, Reason>
    ensures { result ≡ spec.wait_at (map (λ w. w.now) words.now) }
{
    let [cond, form] = words else {
        return Err(Reason::WordCount);
    };
    let (cond, how) = both(condition(cond, 0, LAST_FULL), how(form))?;
    Ok(Call::Wait { cond, how })
}

/// `set CONDITION VALUE`, by the words after the name.
fn set(words: &[&[u8]]) -> Result<Call, Reason>
    ensures { result ≡ spec.set_at (map (λ w. w.now) words.now) }
{
    let [cond, number] = words else {
        return Err(Reason::WordCount);
    };
    let (cond, value) = both(condition(cond, 0, LAST_COND), value(number))?;
    Ok(Call::Set { cond, value })
}

/// `take CONDITION`, by the words after the name.
fn take(words: &[&[u8]]) -> Result<Call, Reason>
    ensures { result ≡ spec.take_at (map (λ w. w.now) words.now) }
{
    let [cond] = words else {
        return Err(Reason::WordCount);
    };
    let cond = condition(cond, 0, LAST_COND)?;
    Ok(Call::Take { cond })
}

/// `read CONDITION`, by the words after the name.
fn read(words: &[&[u8]]) -> Result<Call, Reason>
    ensures { result ≡ spec.read_at (map (λ w. w.now) words.now) }
{
    let [cond] = words else {
        return Err(Reason::WordCount);
    };
    let cond = condition(cond, 0, LAST_COND)?;
    Ok(Call::Read { cond })
}

/// `wake CONDITION MODE COUNT`, by the words after the name.
fn wake(version: Version, words: &[&[u8]]) -> Result<Call, Reason>
    ensures { result ≡ spec.wake_at version (map (λ w. w.now) words.now) }
{
    let [cond, by, number] = words else {
        return Err(Reason::WordCount);
    };
    let (cond, (mode, count)) = both(
        condition(cond, 0, LAST_FULL),
        both(mode(by), count(number, 0, version.most_selected())),
    )?;
    Ok(Call::Wake { cond, mode, count })
}

/// `add CONDITION KIND FORM`, by the words after the name.
fn add(words: &[&[u8]]) -> Result<Call, Reason>
    ensures { result ≡ spec.add_at (map (λ w. w.now) words.now) }
{
    let [cond, of, place] = words else {
        return Err(Reason::WordCount);
    };
    let (cond, (kind, form)) = both(condition(cond, 0, LAST_FULL), both(kind(of), form(place)))?;
    Ok(Call::Add { cond, kind, form })
}

/// `woken STATE`, by the words after the name.
fn woken(words: &[&[u8]]) -> Result<Call, Reason>
    ensures { result ≡ spec.woken_at (map (λ w. w.now) words.now) }
{
    let [word] = words else {
        return Err(Reason::WordCount);
    };
    let state = state(word)?;
    Ok(Call::Woken { state })
}

/// `signal TASK FORM`, by the words after the name.
fn signal(version: Version, words: &[&[u8]]) -> Result<Call, Reason>
    ensures { result ≡ spec.signal_at version (map (λ w. w.now) words.now) }
{
    let [to, form] = words else {
        return Err(Reason::WordCount);
    };
    let (who, fatal) = both(task(to, version.last_task()), fatal(form))?;
    Ok(Call::Signal { who, fatal })
}

/// `kick TASK`, by the words after the name.
fn kick(version: Version, words: &[&[u8]]) -> Result<Call, Reason>
    ensures { result ≡ spec.kick_at version (map (λ w. w.now) words.now) }
{
    let [to] = words else {
        return Err(Reason::WordCount);
    };
    let who = task(to, version.last_task())?;
    Ok(Call::Kick { who })
}

/// A call that scripts of all versions have, by its name and what the words after it say.
fn by_name(version: Version, name: Name, rest: &[&[u8]]) -> Result<Call, Reason>
    ensures { result ≡ form_of version name (map (λ w. w.now) rest.now) }
{
    match name {
        Name::Wait => wait(rest),
        Name::Set => set(rest),
        Name::Take => take(rest),
        Name::Read => read(rest),
        Name::Wake => wake(version, rest),
        Name::Add => add(rest),
        Name::Remove => alone(rest, Call::Remove),
        Name::Woken => woken(rest),
        Name::Signal => signal(version, rest),
        Name::Accept => alone(rest, Call::Accept),
        Name::Kick => kick(version, rest),
        Name::SimpleWait => simple_wait(rest),
        Name::SimpleWake => simple_wake(rest),
        Name::Complete => complete(rest),
        Name::CompleteAll => complete_all(rest),
        Name::Reinit => reinit(rest),
        Name::WaitFor => wait_for(rest),
        Name::TryWait => try_wait(rest),
        Name::IsDone => is_done(rest),
        Name::TryBit => try_bit(rest),
        Name::WaitBit => wait_bit(rest),
        Name::LockBit => lock_bit(rest),
        Name::ClearBit => clear_bit(rest),
        Name::WaitVar => wait_var(rest),
        Name::SetVar => set_var(rest),
    }
}

/// A call that scripts of all versions have, by its name and the words after it.
fn shared(version: Version, word: &[u8], rest: &[&[u8]]) -> Result<Call, Reason>
    ensures { result ≡ spec.call_in (spec.shared_forms version) word.now (map (λ w. w.now) rest.now) }
{
    match name_of(word) {
        Some(name) => by_name(version, name, rest),
        None => Err(Reason::UnknownWord),
    }
}

/// Whether a call's name is `lockpage`.
fn is_lock_page(name: &[u8]) -> bool
    ensures { result ≡ bytes_eq name.now (codes "lockpage") }
{
    name == b"lockpage".as_slice()
}

/// A call of a script of version 2, by its name and the words after it.
fn second(name: &[u8], rest: &[&[u8]]) -> Result<Call, Reason>
    ensures { result ≡ spec.named_at Version.Two name.now (map (λ w. w.now) rest.now) }
{
    if is_lock_page(name) {
        lock_page(rest)
    } else {
        shared(Version::Two, name, rest)
    }
}

/// A call of a script of this version, by its name and the words after it.
pub fn named(version: Version, name: &[u8], rest: &[&[u8]]) -> Result<Call, Reason>
    ensures { result ≡ spec.named_at version name.now (map (λ w. w.now) rest.now) }
{
    match version {
        Version::One => shared(version, name, rest),
        Version::Two => second(name, rest),
    }
}

/// Whether a call's name is `add`.
fn is_add(name: &[u8]) -> bool
    ensures { result ≡ bytes_eq name.now (codes "add") }
{
    name == b"add".as_slice()
}

/// Whether a word is `prio`.
fn is_prio(word: &[u8]) -> bool
    ensures { result ≡ bytes_eq word.now (codes "prio") }
{
    word == b"prio".as_slice()
}

/// The last task that may make a call in a script of this version: an `add` with priority is for the first tasks alone.
pub fn last_of(version: Version, name: &[u8], rest: &[&[u8]]) -> u8
    ensures { result ≡ spec.last_of version name.now (map (λ w. w.now) rest.now) }
{
    match rest {
        [_, _, form, ..] if is_add(name) && is_prio(form) => LAST_PRIORITY_TASK,
        _ => version.last_task(),
    }
}
