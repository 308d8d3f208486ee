// What the test programs share: sums that wrap and a choice, sets of small numbers, the records of a trace by plain numbers, traces put together, numbers
// that look random, and words and numbers on a line. With the code that they try they share its accessors, its writer of records
// (`draft`) and `slices`.
#![tactic(auto)]

pub mod chance;
pub mod draft;
pub mod line;
pub mod numbers;
pub mod recs;
pub mod sets;
