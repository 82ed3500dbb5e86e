// What a channel is: a bag of waiting messages with a fixed number of places.
ghost use Rattle.std.specs.Prelude.{◌≡◌, ℕ, ◌+◌, ◌<◌, ◌≤◌, List, ◌∷◌, length, Option, IsOk, IsErr};
ghost use Rattle.terms.specs.declared.message.Message.{Message};
ghost use Rattle.terms.specs.declared.message.Mark.{Mark};
ghost use Rattle.channel.specs.Counts.{BagsAreCounts};
ghost use Rattle.channel.specs.Meaning.{SameBag, Gives};

use std::error::Error;
use std::fmt;
use terms::message::{Mark, Message};

// Why a message was refused: all places are taken.
#[derive(Clone, Copy, Debug, PartialEq, Eq)]
pub struct Full;

impl fmt::Display for Full {
    ghost use Rattle.std.specs.Prelude.{Some, codes};

    ghost output = { λ _. Some (codes "all places are taken") };

    fn fmt<W: fmt::Write>(&self, f: &mut fmt::Formatter<W>) -> fmt::Result {
        f.write_str("all places are taken")
    }
}

impl Error for Full {}

// What is promised of every channel. Whoever supplies one gives the ghost members and shows the laws.
pub trait Channel {
    // Some arrangement of what waits: only how many of each message counts.
    ghost bag: { Self → List Message };

    // How many messages can wait.
    ghost places: { Self → ℕ };

    // This message was accepted, and this is the channel after.
    ghost sends: { Self → Message → Self → Type 0 };

    // A fetch with this pick gave this, and this is the channel after.
    ghost fetches: { Self → ℕ → Option (Message × Mark) → Self → Type 0 };

    // Refused exactly when all places are taken, and then nothing changes; otherwise the bag gains the message.
    fn send(&mut self, m: Message) -> Result<(), Full>
        ensures refused { places self.old ≤ length (bag self.old) → IsErr result × (self.new ≡ self.old) }
        ensures accepted { length (bag self.old) < places self.old → IsOk result × sends self.old m self.new };

    // None exactly when nothing waits; otherwise a waiting message, gone or copied.
    fn fetch(&mut self, pick: u32) -> Option<(Message, Mark)>
        ensures { fetches self.old pick result self.new };

    // How many messages wait.
    fn count_waiting(&self) -> usize
        ensures { result ≡ length (bag self.now) };

    // How many places are free: all places less the messages waiting.
    fn count_free(&self) -> usize
        ensures { result + length (bag self.now) ≡ places self.now }
    {
        self.count_places() - self.count_waiting()
    }

    // How many places there are in all.
    fn count_places(&self) -> usize
        ensures { result ≡ places self.now };

    // No more messages wait than there are places.
    ghost bounded: { (c : Self) → length (bag c) ≤ places c };

    // A message that was sent is one more in the bag.
    ghost gains: { (c : Self) (m : Message) (d : Self) → sends c m d → SameBag (m ∷ bag c) (bag d) × (places d ≡ places c) };

    // What a fetch gave, and what it left, fit the bag.
    ghost gives: { (c : Self) (pick : ℕ) (got : Option (Message × Mark)) (d : Self) → fetches c pick got d → Gives bag places c got d };
}

// States that a bag is how many of each message it holds, and nothing else.
pub fn bags_are_counts()
    ensures { BagsAreCounts }
{}
