// Opening a phase, or giving the answer.
ghost use Rattle.std.specs.Prelude.{◌≡◌, ℕ, ◌+◌, ◌≤◌, length};
ghost use Rattle.park.specs.Asks.{Opens, Advances};
ghost use Rattle.park.specs.Sound.{StaysSound};

use super::broadcast::send_to_others;
use super::cells::say;
use super::names::Name;
use super::park::Park;
use super::within::{PlaceWithin, ProgressWithin};
use channel::channel::Channel;
use coins::Coins;
use terms::answer::Progress;
use terms::refusal::Refusal;
use terms::word::Word;

impl<C: Channel, K: Coins> Park<C, K> {
    // Opens a phase, if enough places are free, or gives the answer.
    pub(crate) fn advance(&mut self, p: Name, next: ProgressWithin) -> Result<Progress, Refusal>
        requires name { p.number ≤ self.old.n }
        ensures advances { Advances C.Channel K.Coins self.old p.number next.progress result self.new }
        ensures sound { StaysSound self.old self.new }
    {
        match next.progress {
            Progress::Opened(place, word) => {
                if self.channel.count_free() < self.head.n as usize - 1 {
                    return Err(Refusal::NoPlace);
                }
                self.open_phase(p, PlaceWithin { place }, word);
            }
            Progress::Answered(answer) => self.roster.answer(p, answer),
        }
        Ok(next.progress)
    }

    // Says the word, hears itself alone, and sends PHASE to the others.
    fn open_phase(&mut self, p: Name, at: PlaceWithin, word: Word)
        requires name { p.number ≤ self.old.n }
        requires free { self.old.n + length (C.Channel.bag self.old.channel) ≤ C.Channel.places self.old.channel + 1 }
        ensures opens { Opens C.Channel K.Coins self.old p.number at.place word self.new }
        ensures sound { StaysSound self.old self.new }
    {
        let kept = say(&mut self.cells, p, at, word);
        self.roster.ask(p, at, kept);
        send_to_others(&mut self.channel, self.head.n, p, at.place, word);
    }
}
