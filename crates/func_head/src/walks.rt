ghost use Rattle.std.specs.Prelude.{◌≡◌, ◌<◌, ◌≤◌};
ghost use Rattle.func_head.specs.Walks.{Meaning, answer_of, after_call, told_by, entry, seen_by, called};
ghost use Rattle.func_head.specs.Walks.{is_above, is_below, after_answer, ends_by, walked_to, walk, Stay};

use wait_model::{End, Walked};

/// A function that a walk calls, and what it keeps from one call to the next.
///
/// Each implementation states what it means by numbers: `meaning` has the state that it keeps, what a call answers in
/// a state and which one it leaves, and what is told in a state.
pub trait WakeFn: Drop {
    ghost meaning: { Self → Meaning };

    /// Calls the function with the mode of a wake and its key.
    ///
    /// An answer above 0 says that it woke somebody, 0 that it did not, and one below 0 ends the walk.
    fn call(&mut self, mode: u32, key: &[u8]) -> i32
        ensures answer { result ≡ answer_of (meaning self.old) mode key.now }
        ensures state { meaning self.new ≡ after_call (meaning self.old) mode key.now };

    /// The number that the function tells of its calls so far.
    fn tell(&self) -> u64
        ensures { result ≡ told_by (meaning self.now) };
}

/// An entry of a head: its number, whether it is exclusive and whether it has priority, and its function.
#[derive(Drop)]
pub(crate) struct FuncEntry {
    pub(crate) id: u64,
    pub(crate) exclusive: bool,
    pub(crate) priority: bool,
    pub(crate) func: Box<dyn WakeFn + Send>,
}

impl FuncEntry {
    // Calls the function, and counts what it answers. Some where that ends the walk.
    fn call(&mut self, turn: &mut Turn, mode: u32, key: &[u8]) -> Option<End>
        ensures end { result ≡ ends_by (answer_of (meaning self.old.func) mode key.now)
            self.old.exclusive turn.old.left }
        ensures turn { turn.new ≡ after_answer (answer_of (meaning self.old.func) mode key.now)
            self.old.exclusive turn.old }
        ensures called { entry self.new.id self.new.exclusive self.new.priority (meaning self.new.func)
            ≡ called mode key.now
            (entry self.old.id self.old.exclusive self.old.priority (meaning self.old.func)) }
    {
        let answer = self.func.call(mode, key);
        note(turn, answer, self.exclusive)
    }

    pub(crate) fn tell(&self) -> u64
        ensures { result ≡ told_by (meaning self.now.func) }
    {
        self.func.tell()
    }
}

// What a walk has left of its count, and how many functions answered above 0 to it: all, and those of exclusive
// entries.
#[derive(Clone, Copy)]
pub(crate) struct Turn {
    pub(crate) left: u32,
    pub(crate) woken: u32,
    pub(crate) selected: u32,
}

fn is_above(answer: i32) -> bool
    ensures { result ≡ is_above answer }
{
    answer > 0
}

fn is_below(answer: i32) -> bool
    ensures { result ≡ is_below answer }
{
    answer < 0
}

// Counts an answer. Some where it ends the walk.
fn note(turn: &mut Turn, answer: i32, exclusive: bool) -> Option<End>
    ensures end { result ≡ ends_by answer exclusive turn.old.left }
    ensures turn { turn.new ≡ after_answer answer exclusive turn.old }
{
    if !is_above(answer) {
        return if is_below(answer) {
            Some(End::Stopped)
        } else {
            None
        };
    }
    turn.woken = turn.woken.saturating_add(1);
    if !exclusive {
        return None;
    }
    turn.selected = turn.selected.saturating_add(1);
    let spent = turn.left == 1;
    turn.left = turn.left.saturating_sub(1);
    if spent { Some(End::Spent) } else { None }
}

fn walked(turn: Turn, end: End) -> Walked
    ensures { result ≡ walked_to turn end }
{
    Walked {
        selected: turn.selected,
        woken: turn.woken,
        holds: 1,
        end,
    }
}

// Calls the functions in the order of the entries, until one ends the walk or behind the last.
pub(crate) fn walk_over(entries: &mut [FuncEntry], mode: u32, count: u32, key: &[u8]) -> Walked
    ensures walk { walk mode count key.now
        (seen_by entries.old (λ e. entry e.id e.exclusive e.priority (meaning e.func))) ≡ record {
          entries = seen_by entries.new (λ e. entry e.id e.exclusive e.priority (meaning e.func));
          walked = result;
        } }
    ensures few { 0 < count → result.selected ≤ count }
    ensures stay { Stay
        (seen_by entries.old (λ e. entry e.id e.exclusive e.priority (meaning e.func)))
        (seen_by entries.new (λ e. entry e.id e.exclusive e.priority (meaning e.func))) }
{
    let mut turn = Turn {
        left: count,
        woken: 0,
        selected: 0,
    };
    let mut at = 0;
    'calls: while at < entries.len() {
        match entries[at].call(&mut turn, mode, key) {
            Some(end) => return walked(turn, end),
            None => at += 1,
        }
    }
    walked(turn, End::End)
}
