//! Scripts, and why bytes are none.

ghost use Rattle.std.specs.Prelude.{◌≡◌};

use crate::line::Line;
use crate::reason::Reason;
use crate::version::Version;
use std::alloc::{AllocError, AllocFailed, Global};
use std::marker::Model;
use thiserror::Error;

/// A script: the version that its header names, and the lines after it.
#[derive(Drop)]
pub struct Script {
    pub version: Version,
    pub lines: Vec<Line>,
}

impl Model for Script {
    ghost use Rattle.wait_script.specs.Lines.{VersionedLines};

    ghost Value = { VersionedLines };

    ghost view = { λ s. record { version = s.version; lines = s.lines.items } };
}

/// Why there is no script.
#[derive(Clone, Copy, Debug, PartialEq, Eq, Error)]
pub enum ReadScript {
    /// The bytes are none: the first bad line, from 1, and the first reason that stands there.
    #[error("line {line} is bad, for reason {why}")]
    Bad { line: u32, why: Reason },
    /// The list of lines, or of a line's words, can't be had.
    #[error("there is no memory for the lines of a script")]
    OutOfMemory,
}

impl From<AllocError> for ReadScript {
    ghost use Rattle.wait_script.specs.declared.script.ReadScript.TheVariants.{OutOfMemory};

    ghost from_gives = { λ _ e. e ≡ OutOfMemory };

    fn from(_error: AllocError) -> ReadScript {
        ReadScript::OutOfMemory
    }
}

impl<T: Drop> From<AllocFailed<T>> for ReadScript {
    ghost use Rattle.wait_script.specs.declared.script.ReadScript.TheVariants.{OutOfMemory};

    ghost from_gives = { λ _ e. e ≡ OutOfMemory };

    fn from(_error: AllocFailed<T>) -> ReadScript {
        ReadScript::OutOfMemory
    }
}
