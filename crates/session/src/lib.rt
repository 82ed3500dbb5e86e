// A script's session: one park, opened by the script and acted on by it, and the loop from input to output.
#![tactic(auto)]

pub mod act;
pub mod run;
pub mod session;
