// The bench's dialogue, line by line: which call a line asks for, and the bytes that answer it.
// What is kept of the line being read is bounded, however long the line is.
#![tactic(auto)]

pub mod answer;
pub mod buffer;
mod console;
pub mod desk;
pub mod request;

pub use text::answer::question_line;
