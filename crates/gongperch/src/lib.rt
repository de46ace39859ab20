// The library for C and Rust: exported calls, thin over the proved ones. A slice comes as a pointer and a length, an answer goes out
// as 01's number. Assumes nothing.
#![tactic(auto)]

pub mod planning;
pub mod running;
