//! Rows of steps of a core, texts that are read and written, and drills.

mod bit_tests;
mod completion_tests;
mod core_tests;
mod drill_tests;
mod lines;
mod page_tests;
mod steps;
mod text_tests;
