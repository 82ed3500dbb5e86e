// The permit for a vehicle, from its giving until it is dispatched or handed back, and the desk that keeps its stage.
// Neither kind of permit can be let go: it is moved on until it is dispatched or handed back.
#![tactic(auto)]

pub mod acts;
pub mod desk;
pub mod permit;
