// The server: deduplication records, arrivals and tallies over any resource.
#![tactic(auto)]

mod record;
mod reply;
mod serve;
pub mod session;
pub mod state;
