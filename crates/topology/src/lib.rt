// Which lamps a hall has and how they are wired, from the lines of a hall file.
#![tactic(auto)]

mod checks;
pub mod fault;
pub mod hall;
pub mod lines;
mod plan;
mod reach;
pub mod reading;
#[cfg(test)]
mod tests;
