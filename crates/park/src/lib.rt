// The park: one vehicle, its controllers, their cells, a channel and coins, with all acts on them.
#![tactic(auto)]

mod broadcast;
pub mod call;
mod cells;
pub mod collect;
pub mod collected;
pub mod controller;
mod controllers;
pub mod crash;
pub mod deliver;
pub mod head;
pub mod host;
mod names;
pub mod open;
pub mod park;
mod phase;
pub mod roster;
pub mod step;
mod within;
