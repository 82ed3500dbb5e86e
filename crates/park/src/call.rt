// A call.
ghost use Rattle.park.specs.Asks.{Calls};
ghost use Rattle.park.specs.Sound.{StaysSound};

use super::controller::Stage;
use super::park::Park;
use channel::channel::Channel;
use coins::Coins;
use terms::answer::Progress;
use terms::refusal::Refusal;

impl<C: Channel, K: Coins> Park<C, K> {
    // Controller p calls: it opens selector 1 with its own draw and its own name.
    pub fn call(&mut self, p: u32) -> Result<Progress, Refusal>
        ensures calls { Calls C.Channel K.Coins self.old p result self.new }
        ensures sound { StaysSound self.old self.new }
    {
        let p = self.find_up(p)?;
        let Stage::Uncalled = self.roster.get(p).stage else {
            return Err(Refusal::Called);
        };
        let progress = self.opens_selector(p, 1);
        self.advance(p, progress)
    }
}
