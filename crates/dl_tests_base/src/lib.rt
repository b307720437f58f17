// What the tests of several crates build: axioms as rows of constants, and files and sinks in memory.
#![tactic(auto)]

pub mod axioms;
pub mod files;
