// A park with all that it works on.
use super::head::Head;
use super::roster::Roster;
use channel::channel::Channel;
use coins::Coins;
use permit::desk::Desk;
use std::marker::Model;
use terms::refusal::Refusal;
use terms::word::Cell;

// The cells, the channel and the coins that the host handed over are the park's until it is closed.
#[derive(Drop)]
pub struct Park<C, K> {
    pub(crate) head: Head,
    pub(crate) desk: Desk,
    pub(crate) roster: Roster,
    pub(crate) cells: Vec<Cell>,
    pub(crate) channel: C,
    pub(crate) coins: K,
}

// A clause sees a park as its numbers, its records, its cells and their memory, its channel and its coins. There are enough cells.
impl<C, K> Model for Park<C, K> {
    ghost use Rattle.std.specs.Prelude.{◌*◌, ◌≤◌, vec_items, vec_len};
    ghost use Rattle.park.specs.States.{State, block_of};

    ghost Value = { State C K };

    ghost view = { λ a. record { n = a.head.n; majority = a.head.majority; desk = a.desk; controllers = a.roster.list; cells = vec_items a.cells; block = block_of a.cells; channel = a.channel; coins = a.coins } };

    ghost invariant = { λ a. 1024 * a.head.n ≤ vec_len a.cells };
}

// What a host hands over for a park, and gets back.
#[derive(Drop)]
pub struct Supplies<C, K> {
    pub cells: Vec<Cell>,
    pub channel: C,
    pub coins: K,
}

// A refused opening, with all that was handed over.
// kept: beside permit's Returned, which has the same shape: the field says what comes back.
#[derive(Drop)]
pub struct NotOpened<C, K> {
    pub refusal: Refusal,
    pub supplies: Supplies<C, K>,
}
