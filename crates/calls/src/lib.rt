// What a host calls the server with, and what it is told.
#![tactic(auto)]

pub mod answer;
pub mod call;
pub mod exchange;
pub mod report;
