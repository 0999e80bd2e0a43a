// The three resources: a store of files, a counter, and a board of plots.
#![tactic(auto)]

pub mod board;
pub mod counter;
mod decimal;
mod front;
pub mod store;
