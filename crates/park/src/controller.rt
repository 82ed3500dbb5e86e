// What a park keeps of each controller besides its pages.
use terms::answer::Answer;
use terms::word::{Place, Word};

// kept: a plain place, since the definitions of the promise speak of the place of a stage, and that it lies within the limits is the records' invariant.
// On the way of a call. A caller that asks is waiting until its heard set is a majority, and ready from then on.
#[derive(Clone, Copy, Debug, PartialEq, Eq)]
pub enum Stage {
    Uncalled,
    Asking(Place),
    Answered(Answer),
}

// kept: an array with the set of those heard, and not a map, since the park allocates nothing.
// The word heard from controller q is words[q - 1], where bit q - 1 of the heard set is one.
#[derive(Clone, Copy, Debug, PartialEq, Eq)]
pub struct Controller {
    pub up: bool,
    pub stage: Stage,
    pub heard: u16,
    pub words: [Word; 15],
}
