//! The fields of a line: what a word says in its place, or why it says nothing there.

ghost use Rattle.std.specs.Prelude.{◌≡◌, map, position};
ghost use Rattle.wait_script.specs.Fields as spec;
ghost use Rattle.wait_script.specs.{Fields.number_within, Number.numeral_value};
ghost use Rattle.wait_script.specs.declared.reason.Reason.TheVariants.{BadCondition};

use crate::names::value_in;
use crate::number::number;
use crate::reason::Reason;
use crate::words::both;
use wait_model::layout::{BIT_WORDS, COMPLETIONS, PRIORITY_TASKS, VARIABLES, WORD_BITS};
use wait_model::queues::Form;
use wait_model::tasks::{How, SleepState};
use wait_model::watches::{Kind, Mode};

/// The last task that adds an entry with priority.
pub const LAST_PRIORITY_TASK: u8 = PRIORITY_TASKS as u8 - 1;

/// A task, 0 to `most`.
pub fn task(word: &[u8], most: u8) -> Result<u8, Reason>
    ensures { result ≡ spec.number_at 0 most word.now }
{
    match number(word) {
        Some(n) if n <= u64::from(most) => Ok(n as u8),
        _ => Err(Reason::BadNumber),
    }
}

/// A number from `low` to `most`.
pub fn count(word: &[u8], low: u32, most: u32) -> Result<u32, Reason>
    ensures { result ≡ spec.number_at low most word.now }
{
    match number(word) {
        Some(n) if u64::from(low) <= n && n <= u64::from(most) => Ok(n as u32),
        _ => Err(Reason::BadNumber),
    }
}

/// A value of a condition word: any number of 64 bits.
pub fn value(word: &[u8]) -> Result<u64, Reason>
    ensures { result ≡ spec.value_at word.now }
{
    number(word).ok_or(Reason::BadNumber)
}

/// The number of a condition, from `low` to `most`.
fn number_of_condition(digits: &[u8], low: u8, most: u8) -> Result<u8, Reason>
    ensures { result ≡ number_within BadCondition low most (numeral_value digits.now) }
{
    match number(digits) {
        Some(n) if u64::from(low) <= n && n <= u64::from(most) => Ok(n as u8),
        _ => Err(Reason::BadCondition),
    }
}

/// A letter and a number from `low` to `most` after it.
fn numbered(word: &[u8], letter: u8, low: u8, most: u8) -> Result<u8, Reason>
    ensures { result ≡ spec.numbered_at letter low most word.now }
{
    match word {
        [first, digits @ ..] if *first == letter => number_of_condition(digits, low, most),
        _ => Err(Reason::BadCondition),
    }
}

/// A plain condition, `c` and a number from `low` to `most`.
pub fn condition(word: &[u8], low: u8, most: u8) -> Result<u8, Reason>
    ensures { result ≡ spec.cond_field low most word.now }
{
    numbered(word, b'c', low, most)
}

/// A completion, `d` and its number, below `COMPLETIONS`.
pub fn cell(word: &[u8]) -> Result<u8, Reason>
    ensures { result ≡ spec.cell_at word.now }
{
    numbered(word, b'd', 0, COMPLETIONS as u8 - 1)
}

/// A variable, `v` and its number, below `VARIABLES`.
pub fn variable(word: &[u8]) -> Result<u8, Reason>
    ensures { result ≡ spec.var_at word.now }
{
    numbered(word, b'v', 0, VARIABLES as u8 - 1)
}

/// A page, which is bit 0 of a bit word: `b` and the word's number, below `BIT_WORDS`.
pub fn page(word: &[u8]) -> Result<u8, Reason>
    ensures { result ≡ spec.page_at word.now }
{
    numbered(word, b'b', 0, BIT_WORDS as u8 - 1)
}

/// Where the first dot of a word stands, if it has one.
fn first_dot(text: &[u8]) -> Option<usize>
    ensures { result ≡ position spec.is_dot text.now }
{
    text.iter().position(|b| *b == b'.')
}

/// A bit of a bit word, as `b127.63`: the word's number, below `BIT_WORDS`, and the bit's, below `WORD_BITS`.
pub fn bit(text: &[u8]) -> Result<(u8, u8), Reason>
    ensures { result ≡ spec.bit_at text.now }
{
    let Some(dot) = first_dot(text) else {
        return Err(Reason::BadCondition);
    };
    both(
        numbered(&text[..dot], b'b', 0, BIT_WORDS as u8 - 1),
        number_of_condition(&text[dot + 1..], 0, WORD_BITS as u8 - 1),
    )
}

/// The value that a table of keywords has at a word.
fn keyword<T: Copy>(table: &[(&[u8], T)], word: &[u8]) -> Result<T, Reason>
    ensures { result ≡ spec.keyword_at (map (λ entry. (entry.0.now, entry.1)) table.now) word.now }
{
    value_in(table, word).ok_or(Reason::BadForm)
}

/// How a wait sleeps: `plain`, `int`, `kill`, and exclusive as `int-ex`, `kill-ex`.
pub fn how(word: &[u8]) -> Result<How, Reason>
    ensures { result ≡ spec.how_at word.now }
{
    let (state, exclusive) = keyword(
        &[
            (b"plain", (SleepState::Uninterruptible, false)),
            (b"int", (SleepState::Interruptible, false)),
            (b"kill", (SleepState::Killable, false)),
            (b"int-ex", (SleepState::Interruptible, true)),
            (b"kill-ex", (SleepState::Killable, true)),
        ],
        word,
    )?;
    Ok(How { state, exclusive })
}

/// The state in which a task sleeps: `plain`, `int` or `kill`.
pub fn state(word: &[u8]) -> Result<SleepState, Reason>
    ensures { result ≡ spec.state_at word.now }
{
    keyword(
        &[
            (b"plain", SleepState::Uninterruptible),
            (b"int", SleepState::Interruptible),
            (b"kill", SleepState::Killable),
        ],
        word,
    )
}

/// The state in which a task sleeps on a simple queue: `plain` or `int`.
pub fn simple_state(word: &[u8]) -> Result<SleepState, Reason>
    ensures { result ≡ spec.simple_state_at word.now }
{
    keyword(
        &[
            (b"plain", SleepState::Uninterruptible),
            (b"int", SleepState::Interruptible),
        ],
        word,
    )
}

/// Which states a wake meets: `normal` or `int`.
pub fn mode(word: &[u8]) -> Result<Mode, Reason>
    ensures { result ≡ spec.mode_at word.now }
{
    keyword(
        &[(b"normal", Mode::Normal), (b"int", Mode::Interruptible)],
        word,
    )
}

/// The kind of an entry that is added: `default` or `woken`.
pub fn kind(word: &[u8]) -> Result<Kind, Reason>
    ensures { result ≡ spec.kind_field word.now }
{
    keyword(
        &[(b"default", Kind::Default), (b"woken", Kind::Woken)],
        word,
    )
}

/// Where an entry is added: `front`, `tail` or `prio`.
pub fn form(word: &[u8]) -> Result<Form, Reason>
    ensures { result ≡ spec.form_at word.now }
{
    keyword(
        &[
            (b"front", Form::Front),
            (b"tail", Form::Tail),
            (b"prio", Form::Priority),
        ],
        word,
    )
}

/// Whether a signal is fatal: `plain` or `fatal`.
pub fn fatal(word: &[u8]) -> Result<bool, Reason>
    ensures { result ≡ spec.fatal_at word.now }
{
    keyword(&[(b"plain", false), (b"fatal", true)], word)
}

/// Whether a wake of a simple queue wakes all: `one` or `all`.
pub fn all(word: &[u8]) -> Result<bool, Reason>
    ensures { result ≡ spec.all_at word.now }
{
    keyword(&[(b"one", false), (b"all", true)], word)
}
