// What a lamp's program is told: by its lines, and by its arguments.
#![tactic(auto)]

pub mod answers;
pub mod arguments;
pub mod orders;
