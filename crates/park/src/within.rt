// Places within the limits, and progress that opens a phase only there.
ghost use Rattle.std.specs.Prelude.{◌≡◌, ◌<◌, true};
ghost use Rattle.terms.specs.Places.{within};
ghost use Rattle.park.specs.Cells.{cell_of};
ghost use Rattle.park.specs.Stays.{opened_within};

use terms::answer::Progress;
use terms::word::Place;

// A place within the limits.
#[derive(Clone, Copy, Debug)]
pub(crate) struct PlaceWithin {
    pub(crate) place: Place,
    ghost within: { within place ≡ true },
}

impl PlaceWithin {
    // The number of its cell on a page.
    pub(crate) fn index(self) -> usize
        ensures value { result ≡ cell_of self.place }
        ensures small { result < 512 }
    {
        self.place.index()
    }
}

// The answer, or a phase that is opened at a place within the limits.
#[derive(Clone, Copy, Debug)]
pub(crate) struct ProgressWithin {
    pub(crate) progress: Progress,
    ghost within: { opened_within progress ≡ true },
}
