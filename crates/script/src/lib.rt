// The script: reading its records, byte by byte, and writing the lines of its output.
#![tactic(auto)]

pub mod record;
pub mod report;
pub mod split;
