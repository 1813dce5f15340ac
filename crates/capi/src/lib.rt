// The calls on words for programs in C and other languages, for each field: encode, test and correct.
// Every number, length and content is taken: a call that does not fit answers the number of its refusal and changes nothing.
// include/softballbay.h declares them.
// C has no type parameters, so each field has functions of its own name; each of them is one call of the generic function in words.rt.
#![tactic(auto)]

pub mod control;
pub mod label;
pub mod reel;
mod words;
