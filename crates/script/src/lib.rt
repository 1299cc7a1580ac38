// What the lines of hall files and scripts say, and the text of what is shown of a hall.
#![tactic(auto)]

pub mod answers;
pub mod halls;
pub mod lines;
pub mod orders;
pub mod performing;
