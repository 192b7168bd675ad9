//! What a task knows. No value of it is made: it exists in proofs alone.

use std::collections::LinkedList;
use wait_model::steps::Step;

/// What a task does at an end of a pipe beside loads and publishes of the words of ends, which are steps.
#[derive(Clone, Copy)]
pub enum EndAct {
    /// It claims the end.
    Claim,
    /// It stores a cell of the pipe, at a write end, or loads one.
    Cell,
}

/// One thing that a task did or saw on one word, as its list keeps it.
#[derive(Clone, Copy)]
pub enum Item {
    /// A step, which stands in the task's history.
    Made { step: Step },
    /// The own word, which a task that sleeps loaded to see whether it was woken. It is no step.
    Awake { found: u64 },
    /// The bookmark word of a task, which was loaded. It is no step.
    Bookmark { who: u8, found: u64 },
    /// The member bit of the entry or bookmark whose word the task stored last, which it set or cleared. It is no step.
    Member,
    /// A member word of the head that the task holds, which was loaded in one: the looks before it for which its bits
    /// stand, set and clear ones, were no loads of their own. It is no step.
    Word { found: u64 },
    /// A ticket of a head, which the task drew: its number is the one that was found. It is no step.
    Drawn { head: u16, found: u64 },
    /// The number of a head that is served, which was loaded. It is no step.
    Serving { head: u16, found: u64 },
    /// The serve of the next ticket, after the lock that the own one took was given back. It is no step.
    Served,
    /// An amount that the task added to the tally of a page, with the number that was found. It is no step.
    Tally { page: u8, amount: u64, found: u64 },
    /// A claim of an end of a pipe, with the word that was found, or a cell that was stored or loaded there, with its
    /// word. The end goes by its number: `PIPE_ENDS` times that of its pipe for the write end, and one more for the
    /// read end. It is no step.
    Piped { end: u8, act: EndAct, word: u64 },
}

/// The list of a task that was joined, with its number and the numbers that it gave up. They stay taken.
pub struct Part {
    pub number: u64,
    pub next: u64,
    pub spare: u64,
    pub items: LinkedList<Item>,
}

/// A task's number, the numbers that it may give out (`spare` from `next` on), its list, oldest item first, and
/// those of the tasks that it joined. `lives` is false once it was joined itself.
pub struct Journal {
    pub lives: bool,
    pub number: u64,
    pub next: u64,
    pub spare: u64,
    pub items: LinkedList<Item>,
    pub joined: LinkedList<Part>,
}

/// A number that a call was given, which a step tells to the proof.
#[derive(Clone, Copy, Drop)]
pub struct Ask {
    pub number: u64,
}
