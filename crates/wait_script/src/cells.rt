//! The forms of the calls on simple queues, completions, bits, pages and variables: for each name, what the words after
//! it say.

ghost use Rattle.std.specs.Prelude.{◌≡◌, map};
ghost use Rattle.wait_script.specs.Forms as spec;

use crate::fields::{all, bit, cell, condition, page, simple_state, state, value, variable};
use crate::reason::Reason;
use crate::words::both;
use wait_model::calls::Call;
use wait_model::layout;

/// The first condition of a simple queue, and the last.
const FIRST_SIMPLE: u8 = layout::FIRST_SIMPLE as u8;

const LAST_SIMPLE: u8 = layout::PLAIN_CONDITIONS as u8 - 1;

/// `swait CONDITION STATE`, by the words after the name.
pub fn simple_wait(words: &[&[u8]]) -> Result<Call, Reason>
    ensures { result ≡ spec.simple_wait_at (map (λ w. w.now) words.now) }
{
    let [cond, word] = words else {
        return Err(Reason::WordCount);
    };
    let (cond, state) = both(
        condition(cond, FIRST_SIMPLE, LAST_SIMPLE),
        simple_state(word),
    )?;
    Ok(Call::SimpleWait { cond, state })
}

/// `swake CONDITION one|all`, by the words after the name.
pub fn simple_wake(words: &[&[u8]]) -> Result<Call, Reason>
    ensures { result ≡ spec.simple_wake_at (map (λ w. w.now) words.now) }
{
    let [cond, word] = words else {
        return Err(Reason::WordCount);
    };
    let (cond, all) = both(condition(cond, FIRST_SIMPLE, LAST_SIMPLE), all(word))?;
    Ok(Call::SimpleWake { cond, all })
}

/// `complete COMPLETION`, by the words after the name.
pub fn complete(words: &[&[u8]]) -> Result<Call, Reason>
    ensures { result ≡ spec.complete_at (map (λ w. w.now) words.now) }
{
    let [word] = words else {
        return Err(Reason::WordCount);
    };
    let cell = cell(word)?;
    Ok(Call::Complete { cell })
}

/// `completeall COMPLETION`, by the words after the name.
pub fn complete_all(words: &[&[u8]]) -> Result<Call, Reason>
    ensures { result ≡ spec.complete_all_at (map (λ w. w.now) words.now) }
{
    let [word] = words else {
        return Err(Reason::WordCount);
    };
    let cell = cell(word)?;
    Ok(Call::CompleteAll { cell })
}

/// `reinit COMPLETION`, by the words after the name.
pub fn reinit(words: &[&[u8]]) -> Result<Call, Reason>
    ensures { result ≡ spec.reinit_at (map (λ w. w.now) words.now) }
{
    let [word] = words else {
        return Err(Reason::WordCount);
    };
    let cell = cell(word)?;
    Ok(Call::Reinit { cell })
}

/// `waitfor COMPLETION STATE`, by the words after the name.
pub fn wait_for(words: &[&[u8]]) -> Result<Call, Reason>
    ensures { result ≡ spec.wait_for_at (map (λ w. w.now) words.now) }
{
    let [of, word] = words else {
        return Err(Reason::WordCount);
    };
    let (cell, state) = both(cell(of), state(word))?;
    Ok(Call::WaitFor { cell, state })
}

/// `trywait COMPLETION`, by the words after the name.
pub fn try_wait(words: &[&[u8]]) -> Result<Call, Reason>
    ensures { result ≡ spec.try_wait_at (map (λ w. w.now) words.now) }
{
    let [word] = words else {
        return Err(Reason::WordCount);
    };
    let cell = cell(word)?;
    Ok(Call::TryWait { cell })
}

/// `isdone COMPLETION`, by the words after the name.
pub fn is_done(words: &[&[u8]]) -> Result<Call, Reason>
    ensures { result ≡ spec.is_done_at (map (λ w. w.now) words.now) }
{
    let [word] = words else {
        return Err(Reason::WordCount);
    };
    let cell = cell(word)?;
    Ok(Call::IsDone { cell })
}

/// `trybit BIT`, by the words after the name.
pub fn try_bit(words: &[&[u8]]) -> Result<Call, Reason>
    ensures { result ≡ spec.try_bit_at (map (λ w. w.now) words.now) }
{
    let [text] = words else {
        return Err(Reason::WordCount);
    };
    let (word, bit) = bit(text)?;
    Ok(Call::TryBit { word, bit })
}

/// `waitbit BIT STATE`, by the words after the name.
pub fn wait_bit(words: &[&[u8]]) -> Result<Call, Reason>
    ensures { result ≡ spec.wait_bit_at (map (λ w. w.now) words.now) }
{
    let [text, how] = words else {
        return Err(Reason::WordCount);
    };
    let ((word, bit), state) = both(bit(text), state(how))?;
    Ok(Call::WaitBit { word, bit, state })
}

/// `lockbit BIT STATE`, by the words after the name.
pub fn lock_bit(words: &[&[u8]]) -> Result<Call, Reason>
    ensures { result ≡ spec.lock_bit_at (map (λ w. w.now) words.now) }
{
    let [text, how] = words else {
        return Err(Reason::WordCount);
    };
    let ((word, bit), state) = both(bit(text), state(how))?;
    Ok(Call::LockBit { word, bit, state })
}

/// `lockpage PAGE STATE`, by the words after the name.
pub fn lock_page(words: &[&[u8]]) -> Result<Call, Reason>
    ensures { result ≡ spec.lock_page_at (map (λ w. w.now) words.now) }
{
    let [text, how] = words else {
        return Err(Reason::WordCount);
    };
    let (word, state) = both(page(text), state(how))?;
    Ok(Call::LockPage { word, state })
}

/// `clearbit BIT`, by the words after the name.
pub fn clear_bit(words: &[&[u8]]) -> Result<Call, Reason>
    ensures { result ≡ spec.clear_bit_at (map (λ w. w.now) words.now) }
{
    let [text] = words else {
        return Err(Reason::WordCount);
    };
    let (word, bit) = bit(text)?;
    Ok(Call::ClearBit { word, bit })
}

/// `waitvar VARIABLE OLD STATE`, by the words after the name.
pub fn wait_var(words: &[&[u8]]) -> Result<Call, Reason>
    ensures { result ≡ spec.wait_var_at (map (λ w. w.now) words.now) }
{
    let [text, number, how] = words else {
        return Err(Reason::WordCount);
    };
    let (var, (old, state)) = both(variable(text), both(value(number), state(how)))?;
    Ok(Call::WaitVar { var, old, state })
}

/// `setvar VARIABLE VALUE`, by the words after the name.
pub fn set_var(words: &[&[u8]]) -> Result<Call, Reason>
    ensures { result ≡ spec.set_var_at (map (λ w. w.now) words.now) }
{
    let [text, number] = words else {
        return Err(Reason::WordCount);
    };
    let (var, value) = both(variable(text), value(number))?;
    Ok(Call::SetVar { var, value })
}
