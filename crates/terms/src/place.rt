// Where a place's cell lies in a page, and which places and messages are well formed.
ghost use Rattle.std.specs.Prelude.{◌≡◌};
ghost use Rattle.terms.specs.Places.{index_of, within, name_fits, is_phase, well_formed};

use super::message::{Kind, Message};
use super::word::Place;

impl Place {
    // The limits: selector 1 to 16, round 1 to 16, phase 1 to 2.
    pub fn is_within(self) -> bool
        ensures { result ≡ within self }
    {
        (1..=16).contains(&self.selector)
            && (1..=16).contains(&self.round)
            && (1..=2).contains(&self.phase)
    }

    // The index of the place's cell in a page.
    pub fn index(self) -> usize
        ensures value { result ≡ index_of self.selector self.round self.phase }
    {
        let selector = self.selector.saturating_sub(1) as usize;
        let round = self.round.saturating_sub(1) as usize;
        let phase = self.phase.saturating_sub(1) as usize;
        (selector * 16 + round) * 2 + phase
    }
}

impl Message {
    pub fn is_phase(self) -> bool
        ensures { result ≡ is_phase self.kind }
    {
        self.kind == Kind::Phase
    }

    // Whether a park of n controllers can take the message: sender and receiver are two of them, the place is within its limits, and a name is one of them.
    pub fn is_well_formed(self, n: u8) -> bool
        ensures { result ≡ well_formed n self }
    {
        let sender = (1..=n).contains(&self.sender);
        let receiver = (1..=n).contains(&self.receiver) && self.receiver != self.sender;
        sender && receiver && self.place.is_within() && is_name(self.word.name, n)
    }
}

// A name is blank or one of 1 to n.
fn is_name(name: Option<u8>, n: u8) -> bool
    ensures { result ≡ name_fits n name }
{
    name.is_none_or(|p| (1..=n).contains(&p))
}
