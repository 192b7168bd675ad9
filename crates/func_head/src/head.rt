ghost use Rattle.std.specs.Prelude.{◌≡◌, ◌<◌, ◌≤◌, ◌+◌, ◌-◌, ◌^◌, ◌++◌, ◌∷◌, ◌==◌, [], length, true, false};
ghost use Rattle.std.specs.Prelude.{IfOk, IfErr, OnErr, HoldsAt, insert, remove, option_map};
ghost use Rattle.std.specs.List.{find, prefix_len, position_or_len};
ghost use Rattle.func_head.specs.Walks.{told_by, entry, seen_by, walk, Stay};

use crate::WakeFn;
use crate::walks::{FuncEntry, walk_over};
use std::alloc::Global;
use wait_model::Walked;

/// A head whose entries have functions of the caller.
///
/// `entries` are its entries in their order, and `added` is how many were added so far. To drop it is to drop the
/// functions.
#[derive(Drop)]
pub struct FuncHead {
    entries: Vec<FuncEntry>,
    added: u64,
}

// The place of the entry with that number, or the number of entries.
fn place(entries: &[FuncEntry], id: u64) -> usize
    ensures { result ≡ position_or_len (λ e. e.id == id) entries.now }
{
    let mut at = 0;
    'looks: while at < entries.len() {
        if entries[at].id == id {
            return at;
        }
        at += 1;
    }
    at
}

// How many entries of priority stand before all others.
fn leaders(entries: &[FuncEntry]) -> usize
    ensures leaders { result ≡ prefix_len (λ e. e.priority) entries.now }
    ensures fits { result ≤ length entries.now }
{
    let mut at = 0;
    'looks: while at < entries.len() {
        if !entries[at].priority {
            return at;
        }
        at += 1;
    }
    at
}

impl FuncHead {
    /// A head without entries. It takes no memory.
    pub fn new(alloc: Global) -> FuncHead
        ensures entries { result.entries.items ≡ [] }
        ensures added { result.added ≡ 0 }
    {
        FuncHead {
            entries: Vec::new(alloc),
            added: 0,
        }
    }

    // Puts an entry at that place. Its number is the number of additions before.
    fn put(
        &mut self,
        at: usize,
        exclusive: bool,
        priority: bool,
        func: Box<dyn WakeFn + Send>,
    ) -> Result<u64, Box<dyn WakeFn + Send>>
        requires room { self.old.added < 2 ^ 64 - 1 }
        requires at { at ≤ length self.old.entries.items }
        ensures put { IfOk result (λ id. self.new.entries.items ≡ insert self.old.entries.items at
            (record { id = id; exclusive = exclusive; priority = priority; func = func })) }
        ensures numbered { IfOk result (λ id. (id ≡ self.old.added) × (self.new.added ≡ id + 1)) }
        ensures back { IfErr result (λ b. b ≡ func) }
        ensures same { OnErr result ((self.new.entries.items ≡ self.old.entries.items)
            × (self.new.added ≡ self.old.added)) }
    {
        let id = self.added;
        let entry = FuncEntry {
            id,
            exclusive,
            priority,
            func,
        };
        match self.entries.insert(at, entry) {
            Ok(()) => {
                self.added += 1;
                Ok(id)
            }
            Err(refused) => Err(refused.value.func),
        }
    }

    /// Adds an entry at the front, behind the leading entries of priority (`add_wait_queue`).
    ///
    /// Ok has the entry's number: how many were added before. Err hands the box back where there is no memory for the
    /// entry, and then nothing is changed.
    pub fn add(&mut self, func: Box<dyn WakeFn + Send>) -> Result<u64, Box<dyn WakeFn + Send>>
        requires { self.old.added < 2 ^ 64 - 1 }
        ensures put { IfOk result (λ id. self.new.entries.items ≡ insert self.old.entries.items
            (prefix_len (λ e. e.priority) self.old.entries.items)
            (record { id = id; exclusive = false; priority = false; func = func })) }
        ensures numbered { IfOk result (λ id. (id ≡ self.old.added) × (self.new.added ≡ id + 1)) }
        ensures back { IfErr result (λ b. b ≡ func) }
        ensures same { OnErr result ((self.new.entries.items ≡ self.old.entries.items)
            × (self.new.added ≡ self.old.added)) }
    {
        let at = leaders(&self.entries);
        self.put(at, false, false, func)
    }

    /// Adds an exclusive entry at the tail (`add_wait_queue_exclusive`). What it answers is as for `add`.
    pub fn add_exclusive(
        &mut self,
        func: Box<dyn WakeFn + Send>,
    ) -> Result<u64, Box<dyn WakeFn + Send>>
        requires { self.old.added < 2 ^ 64 - 1 }
        ensures put { IfOk result (λ id. self.new.entries.items ≡ insert self.old.entries.items
            (length self.old.entries.items)
            (record { id = id; exclusive = true; priority = false; func = func })) }
        ensures numbered { IfOk result (λ id. (id ≡ self.old.added) × (self.new.added ≡ id + 1)) }
        ensures back { IfErr result (λ b. b ≡ func) }
        ensures same { OnErr result ((self.new.entries.items ≡ self.old.entries.items)
            × (self.new.added ≡ self.old.added)) }
    {
        let at = self.entries.len();
        self.put(at, true, false, func)
    }

    /// Adds an exclusive entry of priority behind the leading ones (`add_wait_queue_priority`). What it answers is as
    /// for `add`.
    pub fn add_priority(
        &mut self,
        func: Box<dyn WakeFn + Send>,
    ) -> Result<u64, Box<dyn WakeFn + Send>>
        requires { self.old.added < 2 ^ 64 - 1 }
        ensures put { IfOk result (λ id. self.new.entries.items ≡ insert self.old.entries.items
            (prefix_len (λ e. e.priority) self.old.entries.items)
            (record { id = id; exclusive = true; priority = true; func = func })) }
        ensures numbered { IfOk result (λ id. (id ≡ self.old.added) × (self.new.added ≡ id + 1)) }
        ensures back { IfErr result (λ b. b ≡ func) }
        ensures same { OnErr result ((self.new.entries.items ≡ self.old.entries.items)
            × (self.new.added ≡ self.old.added)) }
    {
        let at = leaders(&self.entries);
        self.put(at, true, true, func)
    }

    /// Takes the entry with that number off and hands its function back, or None where no entry has the number.
    pub fn remove(&mut self, id: u64) -> Option<Box<dyn WakeFn + Send>>
        ensures found { result ≡ option_map (λ e. e.func) (find (λ e. e.id == id) self.old.entries.items) }
        ensures others { self.new.entries.items
            ≡ remove self.old.entries.items (position_or_len (λ e. e.id == id) self.old.entries.items) }
        ensures added { self.new.added ≡ self.old.added }
    {
        let at = place(&self.entries, id);
        if at < self.entries.len() {
            return Some(self.entries.remove(at).func);
        }
        None
    }

    /// Walks over the entries in their order, and calls the function of each with the mode and the key, until one ends
    /// the walk (`__wake_up_common`, without bookmarks).
    ///
    /// An answer below 0 ends it as Stopped. An answer above 0 is counted in `woken`, and one of an exclusive entry
    /// also in `selected`; the latter takes one off a count that is not 0, and where that makes it 0 the walk ends as
    /// Spent. Else it ends as End, behind the last entry. A count of 0 never ends it. `holds` is 1. Every entry stays,
    /// and the function of each that was called is as its call left it. It takes no memory.
    pub fn wake(&mut self, mode: u32, count: u32, key: &[u8]) -> Walked
        ensures walk { walk mode count key.now (seen_by self.old.entries.items
            (λ e. entry e.id e.exclusive e.priority (meaning e.func))) ≡ record {
              entries = seen_by self.new.entries.items
                  (λ e. entry e.id e.exclusive e.priority (meaning e.func));
              walked = result;
            } }
        ensures few { 0 < count → result.selected ≤ count }
        ensures stay { Stay
            (seen_by self.old.entries.items (λ e. entry e.id e.exclusive e.priority (meaning e.func)))
            (seen_by self.new.entries.items (λ e. entry e.id e.exclusive e.priority (meaning e.func))) }
        ensures added { self.new.added ≡ self.old.added }
    {
        walk_over(&mut self.entries, mode, count, key)
    }

    /// How many entries there are.
    pub fn len(&self) -> usize
        ensures { result ≡ length self.now.entries.items }
    {
        self.entries.len()
    }

    /// What the function of the entry at that place tells.
    pub fn tell_at(&self, index: usize) -> u64
        requires { index < length self.now.entries.items }
        ensures { HoldsAt (λ e. result ≡ told_by (meaning e.func)) self.now.entries.items index }
    {
        self.entries[index].tell()
    }

    /// How many entries were added so far, those among them that were taken off.
    pub fn added(&self) -> u64
        ensures { result ≡ self.now.added }
    {
        self.added
    }
}
