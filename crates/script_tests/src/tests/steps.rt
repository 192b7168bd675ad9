//! Rows of steps on a core, and what plays them. A test plays a table of rows, since the proof of a test takes as long
//! as it has calls and branches, and that of a table as long as its text.

ghost use Rattle.std.specs.Prelude.{IsTrue};
ghost use Rattle.wait_model.specs.Admission.{IsListed};

use mem_io::MemSink;
use std::alloc::{AllocError, Global};
use std::process::Abort;
use std::test::Fail;
use wait_core::{Core, StartFault, Stepped};
use wait_model::calls::{Answer, Call, Event, Ran};
use wait_model::layout::WORDS;
use wait_model::queues::Form;
use wait_model::tasks::{Sleep, SleepState};
use wait_model::watches::Kind;
use wait_script::{write_refused, write_step};

/// What a task does, and what is to be seen of it. A task's number comes first.
#[derive(Clone, Copy)]
pub enum Step {
    /// It opens a call.
    Opens(u8, Call),
    /// It opens a call and makes its events until the call ends or sleeps: how many, and the number that it answers.
    Runs(u8, Call, u32, Option<i32>),
    /// It goes on with its open call to the end or to a sleep: how many events it makes, and the number that the call
    /// answers.
    Goes(u8, u32, Option<i32>),
    /// The same, and more than so many events are made.
    GoesOn(u8, u32, Option<i32>),
    /// It makes so many events of its open call, which goes on after them.
    Makes(u8, u32),
    /// It makes one event: its text, with that of what the call answers if it ends there.
    Writes(u8, &'static str),
    /// It makes an event for each of these, which `; ` parts: their texts, each behind the task and before a newline.
    Says(u8, &'static str),
    /// A call is not opened: the text of that.
    Refuses(u8, Call, &'static str),
    /// All tasks below the number add an entry at the front of condition 0, one after another.
    Adds(u8),
    /// What the word at a position is.
    Has(u32, u64),
    /// The word at a position is not 0.
    HasSome(u32),
    /// How many items the run has.
    Ran(usize),
    /// What the last look for members in the run found in its word, and what it answered.
    Looked(u64, bool),
}

/// Steps, in their order, on a new core.
#[derive(Clone, Copy)]
pub struct Row {
    pub name: &'static str,
    pub steps: &'static [Step],
}

/// Whether a call has one of the forms that there are.
fn is_listed(call: Call) -> bool
    ensures { IsTrue result → IsListed call }
{
    match call {
        Call::Wait { how, .. } => !how.exclusive || how.state.looks(),
        Call::Add { kind, .. } => matches!(kind, Kind::Default | Kind::Woken),
        Call::SimpleWait { state, .. } => !matches!(state, SleepState::Killable),
        _ => true,
    }
}

/// Opens a call, and answers whether it is open then.
fn opens(core: &mut Core, task: u8, call: Call) -> bool {
    is_listed(call) && core.start(task, call).is_ok()
}

/// Makes up to `most` events of a task, to the end of its call or a sleep: how many there were, and the number that the
/// call answered.
fn goes(core: &mut Core, task: u8, most: u32) -> (u32, Option<i32>) {
    for before in 0..most {
        match core.step(task) {
            Stepped::Made {
                ended: Some(Answer::Number(number)),
                ..
            } => return (before + 1, Some(number)),
            Stepped::Made { ended: Some(_), .. } => return (before + 1, None),
            Stepped::Made {
                event: Event::Sleep {
                    sleep: Sleep::Asleep,
                },
                ..
            } => return (before + 1, None),
            Stepped::Made { .. } => {}
            _ => return (before, None),
        }
    }
    (most, None)
}

/// Goes on with a call, and answers whether it made so many events and the call answered this number.
fn makes(core: &mut Core, task: u8, most: u32, wanted: u32, number: Option<i32>) -> bool {
    let (events, answer) = goes(core, task, most);
    events == wanted && is_answer(answer, number)
}

/// Whether a call answered this number, or none.
fn is_answer(answer: Option<i32>, wanted: Option<i32>) -> bool {
    match answer {
        Some(number) => wanted.is_some() && wanted.unwrap_or(0) == number,
        None => wanted.is_none(),
    }
}

/// Whether what a step of a task did has this text.
pub fn has_text(
    alloc: Global,
    task: u8,
    stepped: &Stepped,
    text: &str,
) -> Result<bool, AllocError> {
    let mut out = MemSink::new(alloc, &[])?;
    let is_written = write_step(&mut out, task, stepped).is_ok();
    Ok(is_written && is_text(&out, text))
}

/// Whether the next events of a task have these texts, which `; ` parts.
fn says(alloc: Global, core: &mut Core, task: u8, texts: &str) -> Result<bool, AllocError> {
    let mut have_all = true;
    for part in texts.split(';') {
        let text = format!(in alloc; "t{task} {}\n", part.trim_start())?;
        have_all = has_text(alloc, task, &core.step(task), text.as_str())? && have_all;
    }
    Ok(have_all)
}

/// Whether the refusal of a call of a task has this text.
pub fn has_refusal(
    alloc: Global,
    task: u8,
    fault: StartFault,
    text: &str,
) -> Result<bool, AllocError> {
    let mut out = MemSink::new(alloc, &[])?;
    let is_written = write_refused(&mut out, task, fault).is_ok();
    Ok(is_written && is_text(&out, text))
}

fn is_text(out: &MemSink, text: &str) -> bool {
    out.bytes() == text.as_bytes()
}

/// Whether a call is refused by this text.
fn refuses(
    alloc: Global,
    core: &mut Core,
    task: u8,
    call: Call,
    text: &str,
) -> Result<bool, AllocError> {
    if !is_listed(call) {
        return Ok(false);
    }
    match core.start(task, call) {
        Ok(()) => Ok(false),
        Err(fault) => has_refusal(alloc, task, fault, text),
    }
}

/// All tasks below a number add an entry at the front of condition 0. Whether each did.
fn adds(core: &mut Core, count: u8) -> bool {
    let call = Call::Add {
        cond: 0,
        kind: Kind::Default,
        form: Form::Front,
    };
    let mut have_all = true;
    for task in 0..count {
        have_all = have_all && opens(core, task, call) && makes(core, task, 99, 3, Some(0));
    }
    have_all
}

/// Whether the last look for members in a run found this in its word, and answered this.
fn has_looked(run: &[Ran], word: u64, answer: bool) -> bool {
    let mut is_so = false;
    for item in run {
        if let Ran::Made {
            event: Event::Active { yes, .. },
            found,
            ..
        } = *item
        {
            is_so = found == word && yes == answer;
        }
    }
    is_so
}

/// The word at a position, or 0 where there is none.
fn word(core: &Core, at: u32) -> u64 {
    if (at as usize) < WORDS {
        core.word_at(at)
    } else {
        0
    }
}

/// Plays a step that makes no text, and answers whether what is seen is what is to be seen.
fn is_made(core: &mut Core, step: Step) -> bool {
    match step {
        Step::Opens(task, call) => opens(core, task, call),
        Step::Runs(task, call, events, answer) => {
            opens(core, task, call) && makes(core, task, 99, events, answer)
        }
        Step::Goes(task, events, answer) => makes(core, task, 999, events, answer),
        Step::GoesOn(task, least, wanted) => {
            let (events, answer) = goes(core, task, 99);
            events > least && is_answer(answer, wanted)
        }
        Step::Makes(task, events) => makes(core, task, events, events, None),
        Step::Adds(count) => adds(core, count),
        Step::Has(at, wanted) => (at as usize) < WORDS && word(core, at) == wanted,
        Step::HasSome(at) => word(core, at) != 0,
        Step::Ran(items) => core.ran().len() == items,
        Step::Looked(found, yes) => has_looked(core.ran(), found, yes),
        _ => false,
    }
}

/// Plays a step, and answers whether what is seen is what is to be seen.
fn is_so(alloc: Global, core: &mut Core, step: Step) -> Result<bool, AllocError> {
    match step {
        Step::Writes(task, text) => has_text(alloc, task, &core.step(task), text),
        Step::Says(task, texts) => says(alloc, core, task, texts),
        Step::Refuses(task, call, text) => refuses(alloc, core, task, call, text),
        _ => Ok(is_made(core, step)),
    }
}

/// Wants a step of a row to be so. Steps are counted from 1.
pub fn wants(rt: &impl Abort, name: &str, step: u64, is_so: bool) {
    assert!(rt; is_so, "{name}: step {step}");
}

/// Plays a row on a new core.
fn plays(rt: &impl Abort, alloc: Global, row: &Row) -> Result<(), Fail> {
    let mut core = Core::new(alloc)?;
    let mut at: u64 = 0;
    for step in row.steps {
        at = at.saturating_add(1);
        wants(rt, row.name, at, is_so(alloc, &mut core, *step)?);
    }
    Ok(())
}

/// Plays each row of a table.
pub fn plays_all(rt: &impl Abort, alloc: Global, rows: &[Row]) -> Result<(), Fail> {
    for row in rows {
        plays(rt, alloc, row)?;
    }
    Ok(())
}
