//! Single steps on bounded pipes. A pipe has a write end and a read end, which tasks claim, and `PIPE_CELLS` cells in a
//! ring. The word of each end, a variable of its pipe, counts the cells that the end has passed on: written ones at the
//! write end, and those that are free again at the read end. A task stores a cell, or loads one, before it passes it
//! on, so each cell belongs to one end at a time.

ghost use Rattle.std.specs.Prelude.{◌≡◌, ◌+◌, ◌*◌, ◌<◌, ◌==◌, ◌%◌, if◌then◌else◌, true, length};
ghost use Rattle.wait_model.specs.declared.layout.TheConstants.{PIPES, PIPE_ENDS, PIPE_CELLS};
ghost use Rattle.wait_model.specs.declared.steps.Step.TheVariants as step;
ghost use Rattle.wait_model.specs.declared.watches.Watch.TheVariants as watch;
ghost use Rattle.wait_rule.specs.declared.journal.EndAct.TheVariants as act;
ghost use Rattle.wait_rule.specs.declared.journal.Item.TheVariants as item;
ghost use Rattle.wait_rule.specs.{LookCounts.Looked, Queues.IsIdle};
ghost use Rattle.wait_rule.specs.Pipes.{IsCell, closed, end_word, new_end, with_all_passed, read_end, with_cell};
ghost use Rattle.wait_rule.specs.Pipes.{word_counts, write_end};
ghost use Rattle.wait_rule.specs.PipePlays.{cell_loaded_play, cell_stored_play, claimed_play, end_load_play};
ghost use Rattle.wait_rule.specs.PipePlays.{end_published_play};
ghost use Rattle.wait_rule.specs.PipeSays.{EndBecomes, IsOpen, IsSoundEnd, end_at, reading, writing};
ghost use Rattle.wait_rule.specs.Says.{IsUp, added, told_of};
ghost use Rattle.wait_rule.specs.Stays.{Carries, claim_change, close_change, publish_change, unchanged};

use crate::domain::{Domain, Task};
use crate::journal::{Ask, Journal};
use atomic_table::Play;
use wait_model::layout::PIPE_ENDS;
use wait_model::positions::{cell_at, claim_at, cond_at};
use wait_model::watches::Watch;

/// A claim of an end.
pub struct ClaimEnd;

impl Play<Ask, Journal> for ClaimEnd {
    ghost then = { claimed_play };
}

/// A store of a cell.
pub struct StoreCell;

impl Play<Ask, Journal> for StoreCell {
    ghost then = { cell_stored_play };
}

/// A load of a cell.
pub struct LoadCell;

impl Play<Ask, Journal> for LoadCell {
    ghost then = { cell_loaded_play };
}

/// A store of the own word of an end.
pub struct PublishEnd;

impl Play<Ask, Journal> for PublishEnd {
    ghost then = { end_published_play };
}

/// A load of the own word of an end.
pub struct LoadEnd;

impl Play<Ask, Journal> for LoadEnd {
    ghost then = { end_load_play };
}

/// Claims an end of pipe `pipe`, below `PIPES`: `end` 0 is the write end, and 1 the read end. Answers whether the task
/// has the end now: false where it was claimed before, by whomever. An end is never given back; who has one owes that
/// it is closed.
pub fn claim(domain: &Domain, task: &mut Task, pipe: u8, end: u8) -> bool
    requires of { task.old.domain ≡ domain.now }
    requires up { IsUp task.old }
    requires pipe { pipe < PIPES }
    requires end { end < PIPE_ENDS }
    ensures step { (found : _) × ((task.new ≡ added task.old (item.Piped (PIPE_ENDS * pipe + end) act.Claim found))
        × (result ≡ (found == 0))) }
    ensures becomes { EndBecomes (PIPE_ENDS * pipe + end) task.old task.new
        (if result then new_end else end_at (PIPE_ENDS * pipe + end) task.old) }
    ensures told { told_of task.new ≡ told_of task.old }
    ensures carries { Carries (claim_change (PIPE_ENDS * pipe + end) result) task.old task.new }
    ensures looked { Looked 0 task.old task.new }
{
    let at = claim_at(pipe, end) as usize;
    domain.table.shared.swap::<ClaimEnd>(&mut task.seat, at, 1) == 0
}

/// Stores `word` in the next cell of the write end of pipe `pipe`, below `PIPES`: a cell is one byte that says how many
/// bytes follow, 1 to 7, these, and bytes that are 0 behind them. `at` is the cell's place in the ring: the number of
/// cells that the task has stored, modulo `PIPE_CELLS`. That the cell is free the task has seen by a load of the
/// reader's word. The cell is passed on by an advance.
pub fn cell_store(domain: &Domain, task: &mut Task, pipe: u8, at: u16, word: u64)
    requires of { task.old.domain ≡ domain.now }
    requires up { IsUp task.old }
    requires pipe { pipe < PIPES }
    requires still { IsOpen (writing pipe task.old) }
    requires free { length (writing pipe task.old).cells < (writing pipe task.old).seen + PIPE_CELLS }
    requires place { at ≡ length (writing pipe task.old).cells % PIPE_CELLS }
    requires cell { IsCell word }
    ensures step { task.new ≡ added task.old (item.Piped (write_end pipe) act.Cell word) }
    ensures becomes { EndBecomes (write_end pipe) task.old task.new (with_cell word (writing pipe task.old)) }
    ensures told { told_of task.new ≡ told_of task.old }
    ensures carries { Carries unchanged task.old task.new }
    ensures looked { Looked 0 task.old task.new }
{
    let at = cell_at(pipe, at) as usize;
    domain
        .table
        .shared
        .store::<StoreCell>(&mut task.seat, at, word);
}

/// Loads the next cell of the read end of pipe `pipe`, below `PIPES`, and answers its word. `at` is the cell's place in
/// the ring: the number of cells that the task has loaded, modulo `PIPE_CELLS`. That it was passed on the task has seen
/// by a load of the writer's word. It is free again after an advance.
pub fn cell_load(domain: &Domain, task: &mut Task, pipe: u8, at: u16) -> u64
    requires of { task.old.domain ≡ domain.now }
    requires up { IsUp task.old }
    requires pipe { pipe < PIPES }
    requires still { IsOpen (reading pipe task.old) }
    requires there { length (reading pipe task.old).cells < (reading pipe task.old).seen }
    requires place { at ≡ length (reading pipe task.old).cells % PIPE_CELLS }
    ensures step { task.new ≡ added task.old (item.Piped (read_end pipe) act.Cell result) }
    ensures becomes { EndBecomes (read_end pipe) task.old task.new (with_cell result (reading pipe task.old)) }
    ensures cell { IsCell result }
    ensures told { told_of task.new ≡ told_of task.old }
    ensures carries { Carries unchanged task.old task.new }
    ensures looked { Looked 0 task.old task.new }
{
    let at = cell_at(pipe, at) as usize;
    domain.table.shared.load::<LoadCell>(&mut task.seat, at)
}

/// The own word of an end that the task has, 0 write and 1 read, of pipe `pipe`, below `PIPES`: two times the count of
/// the cells that it passed on, modulo `word_counts`, and one more where it closed the end. The load adds nothing to
/// what the task did. It tells the task that its counts are in order.
pub fn own_load(domain: &Domain, task: &mut Task, pipe: u8, end: u8) -> u64
    requires of { task.old.domain ≡ domain.now }
    requires up { IsUp task.old }
    requires pipe { pipe < PIPES }
    requires end { end < PIPE_ENDS }
    requires mine { (end_at (PIPE_ENDS * pipe + end) task.old).mine ≡ true }
    ensures same { task.new ≡ task.old }
    ensures word { result ≡ end_word (end_at (PIPE_ENDS * pipe + end) task.old).count
        (end_at (PIPE_ENDS * pipe + end) task.old).shut }
    ensures sound { IsSoundEnd (PIPE_ENDS * pipe + end) (end_at (PIPE_ENDS * pipe + end) task.old) }
{
    let var = PIPE_ENDS as u8 * pipe + end;
    let at = cond_at(Watch::Var { var, old: 0 }) as usize;
    domain.table.shared.load::<LoadEnd>(&mut task.seat, at)
}

/// Passes on all cells that the task stored at the write end of pipe `pipe`, below `PIPES`, or loaded at its read end:
/// stores their count as the end's word. `end` is 0 for the write end and 1 for the read end; `count` is the number of
/// all cells that were ever stored or loaded there, modulo `word_counts`. This publishes the end's variable, so the
/// task owes a wake of those who wait for it. It is idle.
pub fn advance(domain: &Domain, task: &mut Task, pipe: u8, end: u8, count: u16)
    requires of { task.old.domain ≡ domain.now }
    requires up { IsUp task.old }
    requires idle { IsIdle task.old }
    requires pipe { pipe < PIPES }
    requires end { end < PIPE_ENDS }
    requires still { IsOpen (end_at (PIPE_ENDS * pipe + end) task.old) }
    requires count { count ≡ length (end_at (PIPE_ENDS * pipe + end) task.old).cells % word_counts }
    ensures step { (found : _) × (task.new ≡ added task.old
        (item.Made (step.Publish (watch.Var (PIPE_ENDS * pipe + end) 0) (2 * count) found))) }
    ensures becomes { EndBecomes (PIPE_ENDS * pipe + end) task.old task.new
        (with_all_passed (end_at (PIPE_ENDS * pipe + end) task.old)) }
    ensures carries { Carries (publish_change (watch.Var (PIPE_ENDS * pipe + end) 0)) task.old task.new }
{
    let var = PIPE_ENDS as u8 * pipe + end;
    let at = cond_at(Watch::Var { var, old: 0 }) as usize;
    domain
        .table
        .shared
        .store::<PublishEnd>(&mut task.seat, at, 2 * u64::from(count));
}

/// Stores the closed word of an end.
fn shut(domain: &Domain, task: &mut Task, pipe: u8, end: u8, word: u64)
    requires of { task.old.domain ≡ domain.now }
    requires idle { IsIdle task.old }
    requires pipe { pipe < PIPES }
    requires end { end < PIPE_ENDS }
    requires still { IsOpen (end_at (PIPE_ENDS * pipe + end) task.old) }
    requires word { word ≡ end_word (end_at (PIPE_ENDS * pipe + end) task.old).count true }
    ensures step { (found : _) × (task.new ≡ added task.old
        (item.Made (step.Publish (watch.Var (PIPE_ENDS * pipe + end) 0) word found))) }
    ensures becomes { EndBecomes (PIPE_ENDS * pipe + end) task.old task.new
        (closed (end_at (PIPE_ENDS * pipe + end) task.old)) }
    ensures carries { Carries (close_change (PIPE_ENDS * pipe + end)) task.old task.new }
{
    let var = PIPE_ENDS as u8 * pipe + end;
    let at = cond_at(Watch::Var { var, old: 0 }) as usize;
    domain
        .table
        .shared
        .store::<PublishEnd>(&mut task.seat, at, word);
}

/// Closes an end that the task has, 0 write and 1 read, of pipe `pipe`, below `PIPES`: nothing is passed on by it any
/// more. It loads the own word and stores it with its lowest bit set. This publishes the end's variable, so the task
/// owes a wake of those who wait for it. It is idle.
pub fn close(domain: &Domain, task: &mut Task, pipe: u8, end: u8)
    requires of { task.old.domain ≡ domain.now }
    requires up { IsUp task.old }
    requires idle { IsIdle task.old }
    requires pipe { pipe < PIPES }
    requires end { end < PIPE_ENDS }
    requires still { IsOpen (end_at (PIPE_ENDS * pipe + end) task.old) }
    ensures step { (found : _) × (task.new ≡ added task.old
        (item.Made (step.Publish (watch.Var (PIPE_ENDS * pipe + end) 0)
        (end_word (end_at (PIPE_ENDS * pipe + end) task.old).count true) found))) }
    ensures becomes { EndBecomes (PIPE_ENDS * pipe + end) task.old task.new
        (closed (end_at (PIPE_ENDS * pipe + end) task.old)) }
    ensures carries { Carries (close_change (PIPE_ENDS * pipe + end)) task.old task.new }
{
    let word = own_load(domain, task, pipe, end);
    shut(domain, task, pipe, end, word + 1);
}
