// A crash.
ghost use Rattle.std.specs.Prelude.{◌≡◌};
ghost use Rattle.park.specs.Messages.{Crashes};
ghost use Rattle.park.specs.Sound.{StaysSound};

use super::park::Park;
use channel::channel::Channel;
use coins::Coins;
use terms::refusal::Refusal;

impl<C: Channel, K: Coins> Park<C, K> {
    // Controller p does nothing more.
    pub fn crash(&mut self, p: u32) -> Result<(), Refusal>
        ensures crashes { Crashes self.old p result self.new }
        ensures sound { StaysSound self.old self.new }
    {
        let p = self.find_up(p)?;
        self.roster.take_down(p);
        Ok(())
    }
}
