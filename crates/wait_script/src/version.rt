//! The versions of the grammar of scripts.

ghost use Rattle.std.specs.Prelude.{◌≡◌};
ghost use Rattle.wait_script.specs.Versions as spec;

use wait_model::layout::{SCRIPT_SELECTED, SCRIPT_TASKS, TASKS};

/// A version of the grammar, which a script's first line names: `waitq 1` or `waitq 2`.
#[derive(Clone, Copy, Debug, PartialEq, Eq)]
pub enum Version {
    /// Tasks 0 to 127, and wakes of at most 127 exclusive entries.
    One,
    /// All tasks of a core, 0 to 255, wakes of at most 255 exclusive entries, and the call `lockpage`.
    Two,
}

impl Version {
    /// The last task of a script; the first is 0.
    pub fn last_task(self) -> u8
        ensures { result ≡ spec.last_task self }
    {
        match self {
            Version::One => SCRIPT_TASKS as u8 - 1,
            Version::Two => (TASKS - 1) as u8,
        }
    }

    /// How many exclusive entries a wake may be told to select, at most.
    pub fn most_selected(self) -> u32
        ensures { result ≡ spec.most_selected self }
    {
        match self {
            Version::One => SCRIPT_SELECTED,
            Version::Two => (TASKS - 1) as u32,
        }
    }
}
