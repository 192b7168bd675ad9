//! What a public call takes when nothing meets it: each is made again and again by a task whose thread is the only one,
//! so that its instructions and its calls of the system can be counted (`.ci/counts.sh`). Without words it makes each
//! call a few times and writes the names, as `NAME went as it should` or `went another way`; with a name and a number
//! it makes this call so many times and writes that line alone.
#![tactic(auto)]

mod calls;
mod cells;
mod names;
mod parts;
mod pieces;

use crate::calls::repeat;
use crate::names::{ALL, Call};
use std::alloc::Global;
use std::sync::Wait;
use std::{env, io};

/// How often each call is made where no number is given.
const FEW: u64 = 3;

/// Makes a call so many times, and writes whether it went the way that its name says.
fn report<R: Print + Wait>(rt: &R, alloc: Global, call: Call, n: u64) -> io::Result<()> {
    let how = if repeat(rt, alloc, call, n)? {
        "as it should"
    } else {
        "another way"
    };
    println!(rt; "{} went {how}", call.name())
}

fn main(rt: HostRuntime) -> io::Result<()> {
    let words: Vec<String> = env::args(&rt)?.skip(1).collect(rt.alloc())?;
    let n = match words.get(1) {
        None => FEW,
        Some(word) => word.parse::<u64>().unwrap_or(FEW),
    };
    for call in ALL {
        let asked = match words.first() {
            None => true,
            Some(word) => word.as_str() == call.name(),
        };
        if asked {
            report(&rt, rt.alloc(), call, n)?;
        }
    }
    Ok(())
}
