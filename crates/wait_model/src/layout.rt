//! The numbers of a Domain: how many there are of each thing, where the words of each class stand, and what stands in
//! a task's word. Every other file cites these names.

// Tasks and what belongs to them.

/// How many tasks there are.
pub const TASKS: u16 = 256;

/// How many entries a task has.
pub const SLOTS: u16 = 2;

/// How many entries there are. The one of slot `s` of task `t` has the index `SLOTS * t + s`.
pub const ENTRIES: u16 = SLOTS * TASKS;

/// How many entries and bookmarks there are: the members that heads can have. The bookmark of task `t` has the index
/// `ENTRIES + t`.
pub const MEMBERS: u16 = ENTRIES + TASKS;

// What tasks wait for.

/// How many plain conditions there are, full and simple ones.
pub const PLAIN_CONDITIONS: u16 = 64;

/// The first plain condition whose head is a simple one.
pub const FIRST_SIMPLE: u16 = 48;

/// How many completions there are.
pub const COMPLETIONS: u16 = 64;

/// How many bit words there are.
pub const BIT_WORDS: u16 = 128;

/// How many bits a bit word has.
pub const WORD_BITS: u16 = 64;

/// How many bits there are in all bit words.
pub const BITS: u16 = BIT_WORDS * WORD_BITS;

/// How many variables there are.
pub const VARIABLES: u16 = 128;

/// How many pages have a tally.
pub const PAGES: u16 = 128;

/// How many pipes there are.
pub const PIPES: u16 = 8;

/// How many ends a pipe has.
pub const PIPE_ENDS: u16 = 2;

/// How many cells a pipe has.
pub const PIPE_CELLS: u16 = 1_024;

/// How many cells there are in all pipes.
pub const CELLS: u16 = PIPES * PIPE_CELLS;

/// How many ends of pipes can be claimed. So many of the first variables belong to pipes.
pub const CLAIMS: u16 = PIPES * PIPE_ENDS;

// The numbers of condition words: plain conditions, done counts, bit words, variables.

/// The number of the first done count among the condition words.
pub const FIRST_DONE: u16 = PLAIN_CONDITIONS;

/// The number of the first bit word among the condition words.
pub const FIRST_BIT_WORD: u16 = FIRST_DONE + COMPLETIONS;

/// The number of the first variable among the condition words.
pub const FIRST_VARIABLE: u16 = FIRST_BIT_WORD + BIT_WORDS;

/// How many condition words there are.
pub const CONDITIONS: u16 = FIRST_VARIABLE + VARIABLES;

// Heads.

/// How many heads bits and variables share.
pub const HASHED_HEADS: u16 = 256;

/// The head of the first plain condition.
pub const FIRST_PLAIN_HEAD: u16 = HASHED_HEADS;

/// The first simple head, which is the head of the first simple condition.
pub const FIRST_SIMPLE_HEAD: u16 = FIRST_PLAIN_HEAD + FIRST_SIMPLE;

/// The head of the first completion.
pub const FIRST_DONE_HEAD: u16 = FIRST_PLAIN_HEAD + PLAIN_CONDITIONS;

/// How many heads there are.
pub const HEADS: u16 = FIRST_DONE_HEAD + COMPLETIONS;

/// How many words a head has for its members: a bit for each index.
pub const MEMBER_WORDS: u16 = MEMBERS / WORD_BITS;

// Positions: each class of words begins where the one before it ends. Word 0 is the base word.

/// The position of the first task's word.
pub const TASK_AT: u32 = 1;

/// The position of the first entry word.
pub const ENTRY_AT: u32 = TASK_AT + TASKS as u32;

/// The position of the first flag word.
pub const FLAG_AT: u32 = ENTRY_AT + ENTRIES as u32;

/// The position of the first bookmark word.
pub const BOOKMARK_AT: u32 = FLAG_AT + ENTRIES as u32;

/// The position of the first head's word.
pub const HEAD_AT: u32 = BOOKMARK_AT + TASKS as u32;

/// The position of the first condition word.
pub const CONDITION_AT: u32 = HEAD_AT + HEADS as u32;

/// The position of the first tally.
pub const TALLY_AT: u32 = CONDITION_AT + CONDITIONS as u32;

/// The position of the first cell.
pub const CELL_AT: u32 = TALLY_AT + PAGES as u32;

/// The position of the first claim.
pub const CLAIM_AT: u32 = CELL_AT + CELLS as u32;

/// The position of the first head's first member word.
pub const MEMBER_AT: u32 = CLAIM_AT + CLAIMS as u32;

/// The position of the word of the next ticket of the first head.
pub const NEXT_AT: u32 = MEMBER_AT + MEMBER_WORDS as u32 * HEADS as u32;

/// The position of the word of the served ticket of the first head.
pub const SERVING_AT: u32 = NEXT_AT + HEADS as u32;

/// How many words a Domain has.
pub const WORDS: usize = SERVING_AT as usize + HEADS as usize;

const _: () = prove!(WORDS == 16_017);

// Places in a queue, and walks.

/// Places are below this one.
pub const PLACES: u64 = 0x100_0000_0000;

/// Entries with priority stand below this place, all others from it on.
pub const MIDDLE: u64 = PLACES / 2;

/// The place of a first entry with priority.
pub const FIRST_PRIORITY: u64 = MIDDLE / 2;

/// The place of a first entry without priority.
pub const FIRST_PLACE: u64 = MIDDLE + FIRST_PRIORITY;

/// How many indexes a place has room for in the order of members: `INDEXES * place + index` is the rank of a member.
pub const INDEXES: u64 = 1_024;

/// A hold that has called so many entries breaks before a further member (`WAITQUEUE_WALK_BREAK_CNT`).
pub const BREAK: u32 = 64;

// The word of a task: its state in the low 16 bits, and three flags above it.

/// Running (`TASK_RUNNING`).
pub const RUNNING: u32 = 0;

/// Asleep until any wake or signal (`TASK_INTERRUPTIBLE`).
pub const INTERRUPTIBLE: u32 = 1;

/// Asleep until a wake (`TASK_UNINTERRUPTIBLE`).
pub const UNINTERRUPTIBLE: u32 = 2;

/// Woken by a fatal signal (`TASK_WAKEKILL`).
pub const WAKEKILL: u32 = 0x100;

/// Asleep until a wake or a fatal signal (`TASK_KILLABLE`).
pub const KILLABLE: u32 = WAKEKILL + UNINTERRUPTIBLE;

/// The mask of an ordinary wake (`TASK_NORMAL`).
pub const NORMAL: u32 = INTERRUPTIBLE + UNINTERRUPTIBLE;

/// States and masks are below this number.
pub const STATES: u32 = 0x1_0000;

/// The flag of a task that is on the run queue.
pub const RUNNABLE: u64 = 0x1_0000;

/// The flag of a pending signal.
pub const SIGNAL: u64 = 0x2_0000;

/// The flag of a pending fatal signal.
pub const FATAL: u64 = 0x4_0000;

// The flag word of an entry.

/// The flag by which a waker tells the owner of an entry that it was woken (`WQ_FLAG_WOKEN`).
pub const WOKEN: u64 = 0x02;

/// WOKEN and DONE: a walk took the page for the owner of the entry (`WQ_FLAG_WOKEN` and `WQ_FLAG_DONE`).
pub const HANDED: u64 = 0x12;

// The count of a completion.

/// The done count that says that all are done: it is neither raised nor lowered (`UINT_MAX`).
pub const ALL_DONE: u64 = 0xFFFF_FFFF;

// What a call answers where a signal ended it.

/// The answer of a wait that a signal ended (`ERESTARTSYS`).
pub const RESTART: i32 = -512;

/// The answer of a wait for a bit that a signal ended (`EINTR`).
pub const INTERRUPTED: i32 = -4;

// Limits of a run and of a script.

/// How many events a run makes at most.
pub const EVENTS: u32 = 1_000_000;

/// How many items a run has at most: an opening for each event, and one for each task besides.
pub const RUN_ITEMS: usize = 2 * EVENTS as usize + TASKS as usize;

/// How many bytes an input has at most.
pub const INPUT_BYTES: usize = 0x10_0000;

/// How many bytes a line of a script has at most.
pub const LINE_BYTES: usize = 200;

/// How many bytes a line of a text has at most.
pub const TEXT_BYTES: usize = 160;

/// How many tasks a script of version 1 has.
pub const SCRIPT_TASKS: u16 = 128;

/// How many of a script's tasks may add an entry with priority.
pub const PRIORITY_TASKS: u16 = 64;

/// How many exclusive entries a script of version 1 may tell a wake to select, at most.
pub const SCRIPT_SELECTED: u32 = 127;
