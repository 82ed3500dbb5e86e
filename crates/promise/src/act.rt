// The acts that need no permit, and what they do.
pub use terms::act::Act;
use terms::answer::Progress;

// What an accepted act did: a call or a step opened a phase or gave the answer, a delivery reached this receiver.
#[derive(Clone, Copy, Debug, PartialEq, Eq)]
pub enum Outcome {
    Advanced(Progress),
    Crashed,
    Delivered(u8),
}
