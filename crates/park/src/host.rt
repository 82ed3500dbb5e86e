// What a host can ask of a park, and what it sends and fetches itself.
ghost use Rattle.std.specs.Prelude.{◌≡◌, ℕ, ◌<◌, ◌≤◌, length};
ghost use Rattle.park.specs.Host.{answer_of, Posts, Fetches};
ghost use Rattle.park.specs.Sound.{Sound, StaysSound};

use super::controller::Stage;
use super::park::Park;
use channel::channel::{Channel, Full};
use coins::Coins;
use permit::desk::PermitStage;
use terms::answer::Answer;
use terms::message::{Mark, Message};
use terms::word::Cell;

impl<C: Channel, K: Coins> Park<C, K> {
    // How many controllers the park has. Told with it, as with everything else that a host asks or does: what every open park has.
    pub fn count_controllers(&self) -> u8
        ensures count { result ≡ self.now.n }
        ensures sound { Sound self.now }
    {
        self.head.n
    }

    // The answer that controller p holds, also when it has crashed since; none before, and for a name that is none of the park's.
    pub fn answer(&self, p: u32) -> Option<Answer>
        ensures answer { result ≡ answer_of self.now p }
        ensures sound { Sound self.now }
    {
        let p = self.find(p)?;
        match self.roster.get(p).stage {
            Stage::Answered(answer) => Some(answer),
            Stage::Uncalled | Stage::Asking(_) => None,
        }
    }

    pub fn permit_stage(&self) -> PermitStage
        ensures stage { result ≡ self.now.desk.stage }
        ensures sound { Sound self.now }
    {
        self.desk.stage()
    }

    // All cells, for reading.
    pub fn cells(&self) -> &[Cell]
        ensures cells { result.now ≡ self.now.cells }
        ensures sound { Sound self.now }
    {
        self.cells.as_slice()
    }

    // For a host that carries messages itself: puts one into the channel; refused if all places are taken.
    pub fn post(&mut self, m: Message) -> Result<(), Full>
        ensures posts { Posts C.Channel self.old m result self.new }
        ensures sound { StaysSound self.old self.new }
    {
        self.channel.send(m)
    }

    // For a host that carries messages itself: takes one out of the channel, if any waits.
    pub fn fetch(&mut self, pick: u32) -> Option<(Message, Mark)>
        ensures fetches { Fetches C.Channel self.old pick result self.new }
        ensures sound { StaysSound self.old self.new }
    {
        self.channel.fetch(pick)
    }
}
