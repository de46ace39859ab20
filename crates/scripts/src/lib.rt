// Scripts for the programs of the gate: commands written as hexadecimal digits, read where they stand, and what the programs print.
#![tactic(auto)]

pub mod filling;
pub mod reading;
pub mod showing;
