// The acts that need no permit.

#[derive(Clone, Copy, Debug, PartialEq, Eq)]
pub enum Act {
    Call(u32),
    Step(u32),
    Crash(u32),
    Deliver(u32),
}
