//! Scripts of drawn calls.

ghost use Rattle.std.specs.Prelude.{◌≡◌, ◌*◌, ◌≤◌, ◌++◌, IfOk, OnOk, All, sum_by};
ghost use Rattle.rand_xoshiro.specs.SplitMix64.{mix_u64};
ghost use Rattle.wait_script.specs.{Lines.events_asked, Spelling.IsFitScript, Spelling.IsPlayable};
ghost use Rattle.drill_gen.specs.Drill.{drawn_lines, drill_of};

use crate::draw::{call_drawn, task_drawn};
use rand_core::SeedableRng;
use rand_core::utils::NextWord;
use rand_xoshiro::SplitMix64;
use std::alloc::{AllocError, Global};
use wait_script::{Line, Script, Version};

/// The most calls of a script.
pub const MOST_CALLS: u32 = 20_000;

/// Up to how many steps a task makes after its call was opened.
const STEPS: u32 = 40;

/// Puts the lines that a word draws after the others.
fn push_drawn(lines: &mut Vec<Line>, word: u64) -> Result<(), AllocError>
    ensures { OnOk result (lines.new.items ≡ lines.old.items ++ drawn_lines word) }
{
    let task = task_drawn(word);
    lines.push(Line::Call {
        task,
        call: call_drawn(word),
    })?;
    lines.push(Line::Step { task, count: STEPS })?;
    Ok(())
}

/// The script of a seed, of version 1: `count` calls of tasks 0 to 15 on conditions 0 to 3, of at most 20,000, each
/// with up to 40 steps of its task after it. The calls are drawn by a SplitMix64 generator whose seed is the eight
/// bytes of `seed`, the lowest first. AllocError: there is no memory for the lines.
///
/// It soon has all sixteen tasks asleep, so it loads a core lightly.
pub fn drill(alloc: Global, seed: u64, count: u32) -> Result<Script, AllocError>
    requires { count ≤ MOST_CALLS }
    ensures version { IfOk result (λ script. script.version ≡ Version.One) }
    ensures lines { IfOk result (λ script. script.lines ≡ drill_of seed count) }
    ensures fits { IfOk result IsFitScript }
    ensures plays { IfOk result (λ script. All IsPlayable script.lines) }
    ensures asked { IfOk result (λ script. sum_by events_asked script.lines ≡ STEPS * count) }
{
    let mut lines = Vec::with_capacity(alloc, 2 * count as usize)?;
    let mut generator = SplitMix64::seed_from_u64(seed);
    for _call in 0..count {
        let word = generator.next_word();
        push_drawn(&mut lines, word)?;
    }
    Ok(Script {
        version: Version::One,
        lines,
    })
}
