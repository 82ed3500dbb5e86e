// What happens to one controller's record. Each function but `get` writes one record, in place.
// kept: each function indexes the list by itself: whoever was lent a record could leave it asking outside the limits, which the list's invariant forbids.
ghost use Rattle.std.specs.Prelude.{◌≡◌, ℕ, ◌-◌, ◌≤◌, true};
ghost use Rattle.park.specs.Placed.{placed};
ghost use Rattle.park.specs.Controllers.{record_of, with_record, taken_down, answered, asking, after_echo};

use super::controller::{Controller, Stage};
use super::names::Name;
use super::roster::Roster;
use super::within::PlaceWithin;
use terms::answer::Answer;
use terms::heard::{has_heard, heard_alone, heard_also, is_majority};
use terms::message::Message;
use terms::word::{Place, Word};

impl Roster {
    #[tactic(auto, using(crate::proofs::Records::record_placed))]
    pub(crate) fn get(&self, p: Name) -> &Controller
        ensures value { result.now ≡ record_of self.now.list p.number }
        ensures placed { placed result.now.stage ≡ true }
    {
        &self.list[p.index()]
    }

    #[tactic(auto, using(crate::proofs::Records::record_placed, crate::proofs::Records::write_placed))]
    pub(crate) fn take_down(&mut self, p: Name)
        ensures { self.new.list ≡ with_record self.old.list p.number (taken_down (record_of self.old.list p.number)) }
    {
        self.list[p.index()].up = false;
    }

    #[tactic(auto, using(crate::proofs::Records::write_placed))]
    pub(crate) fn answer(&mut self, p: Name, answer: Answer)
        ensures { self.new.list ≡ with_record self.old.list p.number (answered (record_of self.old.list p.number) answer) }
    {
        self.list[p.index()].stage = Stage::Answered(answer);
    }

    #[tactic(auto, using(crate::proofs::Records::write_placed))]
    pub(crate) fn ask(&mut self, p: Name, at: PlaceWithin, kept: Word)
        ensures { self.new.list ≡ with_record self.old.list p.number (asking (record_of self.old.list p.number) p.number at.place kept) }
    {
        let own = p.index();
        let c = &mut self.list[own];
        c.stage = Stage::Asking(at.place);
        c.heard = heard_alone(p.number);
        c.words[own] = kept;
    }

    // An ECHO to a caller that asks at this place counts only if the caller waits, the ECHO is of that place, and its sender was not heard.
    #[tactic(auto, using(crate::proofs::Records::record_placed, crate::proofs::Records::write_placed))]
    pub(crate) fn hear(&mut self, majority: u8, place: Place, m: Message)
        requires receiver { (1 ≤ m.receiver) × (m.receiver ≤ 15) }
        requires sender { (1 ≤ m.sender) × (m.sender ≤ 15) }
        ensures { self.new.list ≡ after_echo majority self.old.list m (Stage.Asking place) }
    {
        let c = &mut self.list[m.receiver as usize - 1];
        if place == m.place && !is_majority(c.heard, majority) && !has_heard(c.heard, m.sender) {
            c.heard = heard_also(c.heard, m.sender);
            c.words[m.sender as usize - 1] = m.word;
        }
    }
}
