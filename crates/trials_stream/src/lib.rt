// What a program of trials reads and prints: a stream of calls in, the evaluator's text out. docs/TRIALS.md has the form of both.
#![tactic(auto)]

pub mod input;
pub mod print;
pub mod rooms;
