// Channels: what the park sends and fetches through, and two channels behind that interface.
#![tactic(auto)]

pub mod bag;
pub mod channel;
pub mod line;
mod ring;
