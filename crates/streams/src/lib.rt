// What every program of Olivastrum does with its streams and its words: reading, answering, ending, and saying how it is used.
#![tactic(auto)]

pub mod complaints;
pub mod ending;
pub mod failing;
pub mod hearing;
pub mod loading;
pub mod program;
pub mod reading;
pub mod reasons;
pub mod usage;
pub mod version;
pub mod words;
