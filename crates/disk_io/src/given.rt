//! The words that the system gives a program.

use std::alloc::AllocError;
use std::{env, io};

/// The words after the program's name, as the system has them.
fn all_words(rt: &HostRuntime) -> io::Result<Vec<String>> {
    let words = env::args(rt)?.skip(1).collect(rt.alloc())?;
    Ok(words)
}

/// The words after the program's name, or none where one of them is no text, since such a word is in no command. An
/// error says that memory ran out.
pub fn words(rt: &HostRuntime) -> Result<Vec<String>, AllocError> {
    match all_words(rt) {
        Ok(words) => Ok(words),
        Err(error) if error.kind() == io::ErrorKind::InvalidData => Ok(Vec::new(rt.alloc())),
        Err(_) => Err(AllocError),
    }
}
