// Layers over any resource: a cache before it, a segment put before its paths, and a choice between two.
#![tactic(auto)]

pub mod cache;
mod entry;
pub mod offset;
pub mod switch;
