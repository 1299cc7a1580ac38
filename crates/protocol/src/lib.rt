// A lamp: what it knows of itself, what it remembers of its neighbours, what it works out from that and tells them.
#![tactic(auto)]

mod conversions;
pub mod facts;
pub mod recall;
pub mod sites;
pub mod state;
pub mod talk;
#[cfg(test)]
mod tests;
pub mod work;
