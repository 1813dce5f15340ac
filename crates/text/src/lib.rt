// The lines of the bench program, as bytes: what a line says, and how an answer is written.
// Reading takes any bytes; what is not a letter and numbers in the one form there is says nothing.
#![tactic(auto)]

pub mod answer;
pub mod line;
