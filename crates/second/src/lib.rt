// A second implementation, for tests alone: plain arithmetic, linear algebra, and the rules of a bay written out again.
// It is slow and simple, and shares nothing with what it is held against. It is proved to be safe and to end; what it answers
// is proved of the sizes, the step, sums, opposites, differences, the rules, and reading and writing at a place. For the rest
// it is what the library is compared with.
#![tactic(auto)]

pub mod arithmetic;
pub mod correction;
mod equations;
pub mod pairs;
pub mod places;
pub mod rules;
pub mod words;
