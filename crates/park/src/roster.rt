// The records of all controllers.
ghost use Rattle.std.specs.Prelude.{◌≡◌, true};
ghost use Rattle.park.specs.Placed.{all_placed};

use super::controller::Controller;

// kept: an array beside the park's n, and not a Vec, since the park allocates nothing.
// Controller p's record is number p - 1. Whoever asks does so at a place within the limits.
#[derive(Clone, Copy)]
pub struct Roster {
    pub(crate) list: [Controller; 15],
    ghost placed: { all_placed list ≡ true },
}
