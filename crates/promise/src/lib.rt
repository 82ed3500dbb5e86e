// The acts on a park, with what every run of them keeps.
#![tactic(auto)]

pub mod act;
pub mod open;
pub mod perform;
