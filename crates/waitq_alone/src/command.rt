//! The commands, by the words after the program's name.

ghost use Rattle.std.specs.Prelude.{◌≡◌, ◌≢◌, ◌≤◌, ◌⊎◌, [], Ok, Some, None, false, map, option_map, string_bytes};
ghost use Rattle.std.specs.Prelude.{IfErr, IfOk, IfSome};
ghost use Rattle.std.specs.List.{list_all};
ghost use Rattle.clap.specs.Words.{App, app_of, fault_of, found_of, kind_of, rows_of, rule_of, subcommand_of};
ghost use Rattle.clap.specs.Words.{with_rule, with_subcommand};
ghost use Rattle.clap.specs.declared.builder.command.Command.TheViews.{out-Command};
ghost use Rattle.wait_script.specs.Number.{numeral_value};
ghost use Rattle.waitq_alone.specs.Commands.{drill_at, copy_at, is_name, command_of, asked_by, merge_at, IsFitRequest};
ghost use Rattle.waitq_alone.specs.Parsed.{asked_of, asks_help, bare_app, copy_app, copy_in, drill_app, drill_in};
ghost use Rattle.waitq_alone.specs.Parsed.{entry_of, events_rule, found_text, found_texts, merge_app, merge_in, needed, waitq_app};

use crate::events::{Plan, read_plan};
use crate::fault::Fault;
use clap::error::ErrorKind;
use clap::{Arg, ArgMatches};
use copy_plan::SIGNALS;
use drill_gen::MOST_CALLS;
use std::alloc::{AllocError, Global};
use wait_script::read_number;

/// What the program is to do.
#[derive(Drop)]
pub enum Command<'a> {
    /// `replay`: a script of the input is played, and its text is written.
    Replay,
    /// `drill SEED COUNT`: the script of a seed, of at most 20,000 calls, is played, and its summary is written.
    Drill {
        seed: u64,
        count: u32,
    },
    /// `copy SRC DST [EVENT]...`: one file is copied to another, and the planned signals are sent meanwhile.
    Copy {
        src: &'a str,
        dst: &'a str,
        plan: Plan,
    },
    /// `merge A B DST`: two files are merged into a third, piece by piece, whichever has bytes first.
    Merge {
        first: &'a str,
        second: &'a str,
        dst: &'a str,
    },
}

/// `drill SEED COUNT`, by the words after the first.
fn read_drill<'a>(seed: &[u8], count: &[u8]) -> Option<Command<'a>>
    ensures command { option_map asked_by result ≡ drill_at (numeral_value seed.now) (numeral_value count.now) }
    ensures fits { IfSome result (λ c. IsFitRequest (asked_by c)) }
{
    match (read_number(seed), read_number(count)) {
        (Some(seed), Some(count)) if count <= u64::from(MOST_CALLS) => {
            let count = count as u32;
            Some(Command::Drill { seed, count })
        }
        _ => None,
    }
}

/// Whether a word may name a file: it is not empty and does not begin with `-`.
fn is_name(word: &[u8]) -> bool
    ensures { result ≡ is_name word.now }
{
    match word {
        [] => false,
        [first, ..] => *first != b'-',
    }
}

/// `copy SRC DST [EVENT]...`, by the words after the first.
fn read_copy<'a>(src: &'a str, dst: &'a str, events: &[&'a str]) -> Option<Command<'a>>
    ensures command { option_map asked_by result
        ≡ copy_at src.entry.now dst.entry.now (map (λ s. s.now) events.now) }
    ensures fits { IfSome result (λ c. IsFitRequest (asked_by c)) }
{
    if !is_name(src.as_bytes()) || !is_name(dst.as_bytes()) || src == dst {
        return None;
    }
    let plan = read_plan(events)?;
    Some(Command::Copy { src, dst, plan })
}

/// `merge A B DST`, by the words after the first.
fn read_merge<'a>(first: &'a str, second: &'a str, dst: &'a str) -> Option<Command<'a>>
    ensures command { option_map asked_by result ≡ merge_at first.entry.now second.entry.now dst.entry.now }
    ensures fits { IfSome result (λ c. IsFitRequest (asked_by c)) }
{
    if !is_name(first.as_bytes()) || !is_name(second.as_bytes()) || !is_name(dst.as_bytes()) {
        return None;
    }
    if first == second || first == dst || second == dst {
        return None;
    }
    Some(Command::Merge { first, second, dst })
}

/// Two values, where both could be had.
fn both<A: Drop, B: Drop>(
    first: Result<A, AllocError>,
    second: Result<B, AllocError>,
) -> Result<(A, B), AllocError>
    ensures { IfOk result (λ p. (first ≡ Ok p.0) × (second ≡ Ok p.1)) }
{
    Ok((first?, second?))
}

/// A command with one more word that it needs.
fn with_word<'a>(
    alloc: Global,
    command: Result<clap::Command<'a>, AllocError>,
    id: &'a str,
) -> Result<clap::Command<'a>, AllocError>
    ensures app { (a : App) → IfOk command.entry (λ c. app_of c ≡ a)
        → IfOk result (λ c. app_of c ≡ with_rule a (needed id.entry.now)) }
    ensures local { IfOk command.entry (λ c. (out-Command c).has_globals ≡ false)
        → IfOk result (λ c. (out-Command c).has_globals ≡ false) }
{
    command?.arg(Arg::new(alloc, id).required(true))
}

/// The words of `drill`.
fn drill_words<'a>(alloc: Global) -> Result<clap::Command<'a>, AllocError>
    ensures app { IfOk result (λ c. app_of c ≡ drill_app) }
    ensures local { IfOk result (λ c. (out-Command c).has_globals ≡ false) }
{
    let drill = Ok(clap::Command::new(alloc, "drill"));
    let seeded = with_word(alloc, drill, "seed");
    with_word(alloc, seeded, "count")
}

/// The signals of `copy`.
fn event_words<'a>(alloc: Global) -> Arg<'a>
    ensures rule { rule_of result ≡ events_rule }
    ensures local { result.global ≡ false }
{
    Arg::new(alloc, "event").num_args(1..=SIGNALS)
}

/// The words of `copy`.
fn copy_words<'a>(alloc: Global) -> Result<clap::Command<'a>, AllocError>
    ensures app { IfOk result (λ c. app_of c ≡ copy_app) }
    ensures local { IfOk result (λ c. (out-Command c).has_globals ≡ false) }
{
    let copy = Ok(clap::Command::new(alloc, "copy"));
    let from = with_word(alloc, copy, "src");
    let named = with_word(alloc, from, "dst");
    named?.arg(event_words(alloc))
}

/// The words of `merge`.
fn merge_words<'a>(alloc: Global) -> Result<clap::Command<'a>, AllocError>
    ensures app { IfOk result (λ c. app_of c ≡ merge_app) }
    ensures local { IfOk result (λ c. (out-Command c).has_globals ≡ false) }
{
    let merge = Ok(clap::Command::new(alloc, "merge"));
    let first = with_word(alloc, merge, "a");
    let second = with_word(alloc, first, "b");
    with_word(alloc, second, "dst")
}

/// The program without its subcommands, where nobody is helped and the first word is no name of the program.
fn bare_words<'a>(alloc: Global) -> clap::Command<'a>
    ensures { app_of result ≡ bare_app }
{
    clap::Command::new(alloc, "waitq")
        .no_binary_name(true)
        .disable_help_flag(true)
        .disable_help_subcommand(true)
}

/// A program with one more subcommand.
fn with_command<'a>(
    program: Result<clap::Command<'a>, AllocError>,
    command: Result<clap::Command<'a>, AllocError>,
) -> Result<clap::Command<'a>, AllocError>
    ensures { (a b : App) → IfOk program.entry (λ c. app_of c ≡ a)
        → IfOk command.entry (λ c. app_of c ≡ b) → IfOk command.entry (λ c. (out-Command c).has_globals ≡ false)
        → IfOk result (λ c. app_of c ≡ with_subcommand a b.top) }
{
    let (program, command) = both(program, command)?;
    program.subcommand(command)
}

/// The words that the program takes: one of four subcommands, with its own.
fn all_words<'a>(alloc: Global) -> Result<clap::Command<'a>, AllocError>
    ensures { IfOk result (λ c. app_of c ≡ waitq_app) }
{
    let bare = Ok(bare_words(alloc));
    let one = with_command(bare, Ok(clap::Command::new(alloc, "replay")));
    let two = with_command(one, drill_words(alloc));
    let three = with_command(two, copy_words(alloc));
    with_command(three, merge_words(alloc))
}

/// The fault that an error of a parse is: every one is `Usage` but want of memory.
fn refusal(error: &clap::Error) -> Fault<'static>
    ensures { (result ≡ Fault.Memory)
        ⊎ ((result ≡ Fault.Usage) × (kind_of error.now ≢ ErrorKind.OutOfMemory)) }
{
    match error.kind() {
        ErrorKind::OutOfMemory => Fault::Memory,
        _ => Fault::Usage,
    }
}

/// What is found in the words.
fn parse<'a>(alloc: Global, words: &'a [String]) -> Result<ArgMatches<'a>, Fault<'static>>
    ensures found { IfOk result (λ given. entry_of given
        ≡ subcommand_of waitq_app (map string_bytes words.entry.now)) }
    ensures passes { IfOk result (λ _. fault_of waitq_app (map string_bytes words.entry.now) ≡ []) }
    ensures refused { IfErr result (λ fault. (fault ≡ Fault.Memory)
        ⊎ ((fault ≡ Fault.Usage) × (fault_of waitq_app (map string_bytes words.entry.now) ≢ []))) }
{
    let all = all_words(alloc)?;
    match all.try_get_matches_from(words) {
        Ok(given) => Ok(given),
        Err(error) => Err(refusal(&error)),
    }
}

/// The first text that was found for an id.
fn text_of<'a>(given: &ArgMatches<'a>, id: &str) -> Option<&'a str>
    ensures { option_map (λ s. s.now) result ≡ found_text id.now (rows_of (found_of given.now)) }
{
    given.get_str(id)
}

/// All texts that were found for an id.
fn texts_of<'b, 'a>(given: &'b ArgMatches<'a>, id: &str) -> Option<&'b [&'a str]>
    ensures { option_map (λ s. map (λ v. v.now) s.now) result
        ≡ found_texts id.now (rows_of (found_of given.entry.now)) }
{
    given.get_strs(id)
}

/// The subcommand that was found, by its name and its matches.
fn entry<'b, 'a>(given: &'b ArgMatches<'a>) -> Option<(&'a str, &'b ArgMatches<'a>)>
    ensures { option_map (λ p. (p.0.now, rows_of (found_of p.1.now))) result ≡ entry_of given.entry.now }
{
    given.subcommand()
}

/// `drill`, by what was found.
fn drill_of<'a>(given: &ArgMatches<'a>) -> Option<Command<'a>>
    ensures command { option_map asked_by result ≡ drill_in (rows_of (found_of given.now)) }
    ensures fits { IfSome result (λ c. IsFitRequest (asked_by c)) }
{
    match (text_of(given, "seed"), text_of(given, "count")) {
        (Some(seed), Some(count)) => read_drill(seed.as_bytes(), count.as_bytes()),
        _ => None,
    }
}

/// `copy`, by what was found.
fn copy_of<'a>(given: &ArgMatches<'a>) -> Option<Command<'a>>
    ensures command { option_map asked_by result ≡ copy_in (rows_of (found_of given.now)) }
    ensures fits { IfSome result (λ c. IsFitRequest (asked_by c)) }
{
    match (
        text_of(given, "src"),
        text_of(given, "dst"),
        texts_of(given, "event"),
    ) {
        (Some(src), Some(dst), Some(events)) => read_copy(src, dst, events),
        (Some(src), Some(dst), None) => read_copy(src, dst, &[]),
        _ => None,
    }
}

/// `merge`, by what was found.
fn merge_of<'a>(given: &ArgMatches<'a>) -> Option<Command<'a>>
    ensures command { option_map asked_by result ≡ merge_in (rows_of (found_of given.now)) }
    ensures fits { IfSome result (λ c. IsFitRequest (asked_by c)) }
{
    match (
        text_of(given, "a"),
        text_of(given, "b"),
        text_of(given, "dst"),
    ) {
        (Some(first), Some(second), Some(dst)) => read_merge(first, second, dst),
        _ => None,
    }
}

/// The command, by what was found.
fn asked<'a>(given: &ArgMatches<'a>) -> Option<Command<'a>>
    ensures command { option_map asked_by result ≡ asked_of (entry_of given.now) }
    ensures fits { IfSome result (λ c. IsFitRequest (asked_by c)) }
{
    let (name, found) = entry(given)?;
    if name == "replay" {
        return Some(Command::Replay);
    }
    if name == "drill" {
        return drill_of(found);
    }
    if name == "copy" {
        return copy_of(found);
    }
    if name == "merge" {
        return merge_of(found);
    }
    None
}

/// Whether each word may name a file.
fn are_names(words: &[String]) -> bool
    ensures { result ≡ list_all (λ word. is_name (string_bytes word)) words.now }
{
    words.iter().all(|word| is_name(word.as_str().as_bytes()))
}

/// Whether the words ask for help.
fn asks_help(words: &[String]) -> bool
    ensures { result ≡ asks_help (map string_bytes words.now) }
{
    match words {
        [first, ..] => first.as_str() == "help",
        [] => false,
    }
}

/// The command that words are, or `Usage` where they are none, and `Memory` where there is none to tell. Numbers are
/// decimal digits without a sign, and without a leading zero but `0` itself.
pub fn read_command<'a>(alloc: Global, words: &'a [String]) -> Result<Command<'a>, Fault<'static>>
    ensures command { IfOk result (λ c. Some (asked_by c) ≡ command_of (map string_bytes words.entry.now)) }
    ensures fits { IfOk result (λ c. IsFitRequest (asked_by c)) }
    ensures refused { IfErr result (λ fault. (fault ≡ Fault.Memory)
        ⊎ ((fault ≡ Fault.Usage) × (command_of (map string_bytes words.entry.now) ≡ None))) }
{
    if !are_names(words) {
        return Err(Fault::Usage);
    }
    if asks_help(words) {
        return Err(Fault::Usage);
    }
    match parse(alloc, words) {
        Ok(given) => match asked(&given) {
            Some(command) => Ok(command),
            None => Err(Fault::Usage),
        },
        Err(fault) => Err(fault),
    }
}
