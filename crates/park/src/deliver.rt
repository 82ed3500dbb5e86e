// A delivery, and a message that is handed to one controller.
ghost use Rattle.std.specs.Prelude.{◌≡◌, ℕ, ◌<◌, true, length};
ghost use Rattle.terms.specs.Places.{well_formed};
ghost use Rattle.park.specs.Messages.{Accepts, Delivers, Receives, Takes};
ghost use Rattle.park.specs.Sound.{StaysSound};

use super::cells::keep;
use super::controller::Stage;
use super::names::Name;
use super::park::Park;
use super::within::PlaceWithin;
use channel::channel::Channel;
use coins::Coins;
use terms::message::{Kind, Message};
use terms::refusal::Refusal;

impl<C: Channel, K: Coins> Park<C, K> {
    // Fetches a message with this pick and hands it to its receiver, whose name is told. A receiver that is down drops it.
    pub fn deliver(&mut self, pick: u32) -> Result<u8, Refusal>
        ensures delivers { Delivers C.Channel self.old pick result self.new }
        ensures sound { StaysSound self.old self.new }
    {
        let Some((m, _)) = self.channel.fetch(pick) else {
            return Err(Refusal::Nothing);
        };
        if !m.is_well_formed(self.head.n) {
            return Err(Refusal::Message);
        }
        self.accept(m);
        Ok(m.receiver)
    }

    // For a host that runs a single controller: hands it a message that arrived.
    pub fn receive(&mut self, p: u32, m: Message) -> Result<(), Refusal>
        ensures receives { Receives C.Channel self.old p m result self.new }
        ensures sound { StaysSound self.old self.new }
    {
        let p = self.find_up(p)?;
        if m.is_phase() && self.channel.count_free() == 0 {
            return Err(Refusal::NoPlace);
        }
        if !m.is_well_formed(self.head.n) || m.receiver != p.number {
            return Err(Refusal::Message);
        }
        self.accept(m);
        Ok(())
    }

    // What a well formed message does to its receiver.
    fn accept(&mut self, m: Message)
        requires formed { well_formed self.old.n m ≡ true }
        requires free { m.kind ≡ Kind.Phase → length (C.Channel.bag self.old.channel) < C.Channel.places self.old.channel }
        ensures accepts { Accepts C.Channel self.old m self.new }
        ensures sound { StaysSound self.old self.new }
    {
        let receiver = self.roster.get(Name { number: m.receiver });
        if !receiver.up {
            return;
        }
        match (receiver.stage, m.kind) {
            (_, Kind::Phase) => self.keep_and_echo(m),
            (Stage::Asking(place), Kind::Echo) => self.roster.hear(self.head.majority, place, m),
            (Stage::Uncalled | Stage::Answered(_), Kind::Echo) => {}
        }
    }

    // Keeps the word of a PHASE, if its cell is empty, and sends ECHO with the kept word to its sender.
    fn keep_and_echo(&mut self, m: Message)
        requires formed { well_formed self.old.n m ≡ true }
        requires free { length (C.Channel.bag self.old.channel) < C.Channel.places self.old.channel }
        ensures { Takes C.Channel Kind.Phase self.old m self.new }
    {
        let receiver = Name { number: m.receiver };
        let at = PlaceWithin { place: m.place };
        let kept = keep(&mut self.cells, receiver, at, m.word);
        let echo = Message {
            kind: Kind::Echo,
            sender: m.receiver,
            receiver: m.sender,
            place: m.place,
            word: kept,
        };
        self.channel.send(echo).unwrap();
    }
}
