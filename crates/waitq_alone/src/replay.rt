//! The command `replay`: from the bytes of the input to the text of the output.

ghost use Rattle.std.specs.Prelude.{◌≡◌, ◌≤◌, [], IfSome, IsErrOf, OnOk, length, Ok, All};
ghost use Rattle.edge_io.specs.Faults.{HasRisen};
ghost use Rattle.wait_script.specs.Spelling.{IsPlayable};
ghost use Rattle.waitq_alone.specs.Outcome.{script_verdict, verdict_of, Answers, IsNoCopyEnd, LeavesUnwritten};

use crate::fault::Fault;
use crate::play::play;
use edge_io::{Buffer, Sink, Source, read_all};
use std::alloc::Global;
use wait_core::Core;
use wait_model::layout::{EVENTS, INPUT_BYTES};
use wait_script::{Script, asked, read_script};

/// Runs a script in a fresh core.
fn replay_script<O: Sink>(alloc: Global, script: &Script, out: &mut O) -> Result<(), Fault<'static>>
    requires { All IsPlayable script.now.lines }
    ensures outcome { Answers (script_verdict (Ok script.now)) (O.held out.old) (O.held out.new) result }
    ensures unwritten { LeavesUnwritten (O.held out.old) (O.held out.new) result }
    ensures no_read { IsErrOf result Fault.Read → ⊥ }
    ensures no_usage { IsErrOf result Fault.Usage → ⊥ }
    ensures no_copy { IsNoCopyEnd result }
    ensures write { IsErrOf result Fault.Write → HasRisen (O.faults out.old) (O.faults out.new) }
    ensures later { O.faults out.old ≤ O.faults out.new }
{
    if asked(script) > u128::from(EVENTS) {
        return Err(Fault::Long);
    }
    let mut core = Core::new(alloc)?;
    let mut buffer = Buffer::new(alloc)?;
    play(&mut core, out, &mut buffer, &script.lines)?;
    Ok(())
}

/// Runs the script that the bytes are.
fn replay_bytes<O: Sink>(alloc: Global, bytes: &[u8], out: &mut O) -> Result<(), Fault<'static>>
    requires { length bytes.now ≤ INPUT_BYTES }
    ensures outcome { Answers (verdict_of bytes.now) (O.held out.old) (O.held out.new) result }
    ensures unwritten { LeavesUnwritten (O.held out.old) (O.held out.new) result }
    ensures no_read { IsErrOf result Fault.Read → ⊥ }
    ensures no_usage { IsErrOf result Fault.Usage → ⊥ }
    ensures no_copy { IsNoCopyEnd result }
    ensures write { IsErrOf result Fault.Write → HasRisen (O.faults out.old) (O.faults out.new) }
    ensures later { O.faults out.old ≤ O.faults out.new }
{
    let script = read_script(alloc, bytes)?;
    replay_script(alloc, &script, out)
}

/// Runs the script of the input, and writes its text.
pub fn replay<I: Source, O: Sink>(
    alloc: Global,
    input: &mut I,
    out: &mut O,
) -> Result<(), Fault<'static>>
    ensures drained { OnOk result (IfSome (I.left input.new) (λ bytes. bytes ≡ [])) }
    ensures outcome { IfSome (I.left input.old)
        (λ bytes. Answers (verdict_of bytes) (O.held out.old) (O.held out.new) result) }
    ensures unwritten { LeavesUnwritten (O.held out.old) (O.held out.new) result }
    ensures no_usage { IsErrOf result Fault.Usage → ⊥ }
    ensures no_copy { IsNoCopyEnd result }
    ensures read { IsErrOf result Fault.Read → HasRisen (I.faults input.old) (I.faults input.new) }
    ensures write { IsErrOf result Fault.Write → HasRisen (O.faults out.old) (O.faults out.new) }
{
    let bytes = read_all(alloc, input, INPUT_BYTES)?;
    replay_bytes(alloc, &bytes, out)
}
