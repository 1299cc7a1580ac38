// A whole hall: its state in lent words, and what a script does to it.
#![tactic(auto)]

mod carrying;
pub mod commands;
mod doings;
mod draws;
mod edits;
mod fields;
mod filling;
pub mod laws;
mod lent;
mod order;
pub mod refusals;
mod slots;
pub mod state;
mod words;
