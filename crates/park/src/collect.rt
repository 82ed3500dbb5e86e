// Collecting an answer, and the acts on permits.
ghost use Rattle.std.specs.Prelude.{◌≡◌};
ghost use Rattle.permit.specs.Acts.{Loads, Dispatches, HandsBack};
ghost use Rattle.park.specs.Permits.{Collects, AtDesk};
ghost use Rattle.park.specs.Sound.{StaysSound};

use super::collected::Collected;
use super::controller::Stage;
use super::park::Park;
use channel::channel::Channel;
use coins::Coins;
use permit::acts::Returned;
use permit::permit::{HeldPermit, LoadedPermit};
use terms::answer::Answer;
use terms::refusal::Refusal;

impl<C: Channel, K: Coins> Park<C, K> {
    // Tells the answer of controller p; the first collecting of a yes gives the permit.
    pub fn collect(&mut self, p: u32) -> Result<Collected, Refusal>
        ensures collects { Collects self.old p result self.new }
        ensures sound { StaysSound self.old self.new }
    {
        let p = self.find_up(p)?;
        let Stage::Answered(answer) = self.roster.get(p).stage else {
            return Err(Refusal::NoAnswer);
        };
        match answer {
            Answer::Yes => self.desk.give().map(Collected::Yes).ok_or(Refusal::Taken),
            Answer::No => Ok(Collected::No),
            Answer::Undecided => Ok(Collected::Undecided),
        }
    }

    pub fn load(&mut self, permit: HeldPermit) -> Result<LoadedPermit, Returned<HeldPermit>>
        ensures loads { AtDesk (λ desk. Loads desk permit) self.old result self.new }
        ensures sound { StaysSound self.old self.new }
    {
        self.desk.load(permit)
    }

    pub fn dispatch(&mut self, permit: LoadedPermit) -> Result<(), Returned<LoadedPermit>>
        ensures dispatches { AtDesk (λ desk. Dispatches desk permit) self.old result self.new }
        ensures sound { StaysSound self.old self.new }
    {
        self.desk.dispatch(permit)
    }

    pub fn hand_back(&mut self, permit: HeldPermit) -> Result<(), Returned<HeldPermit>>
        ensures hands_back { AtDesk (λ desk. HandsBack desk permit) self.old result self.new }
        ensures sound { StaysSound self.old self.new }
    {
        self.desk.hand_back(permit)
    }
}
