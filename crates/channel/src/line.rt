// The line: gives the oldest message, which is then gone.
ghost use Rattle.std.specs.Prelude.{◌≡◌, []};
ghost use Rattle.channel.specs.Memory.{places_in};

use super::channel::{Channel, Full};
use super::ring::Ring;
use terms::message::{Mark, Message};

// The messages that wait, the oldest first.
#[derive(Debug, Drop)]
pub struct Line {
    ring: Ring,
}

impl Line {
    ghost use Rattle.channel.specs.LineOrder.{waiting, places_of};

    // Nothing waits in a new line; its places are those of the memory.
    pub fn new(memory: Vec<Message>) -> Line
        ensures empty { waiting result ≡ [] }
        ensures places { places_of result ≡ places_in memory }
        ensures memory { result.ring.memory ≡ memory }
    {
        Line {
            ring: Ring::new(memory),
        }
    }

    // Gives the memory back.
    pub fn into_memory(self) -> Vec<Message>
        ensures { result ≡ self.ring.memory }
    {
        let Line { ring } = self;
        ring.into_memory()
    }
}

impl Channel for Line {
    ghost use Rattle.std.specs.Prelude.{min, ◌∷◌, length, Some, None};
    ghost use Rattle.std.proofs.Common.{ap, sym, subst, arith};
    ghost use Rattle.channel.specs.LineOrder.{waiting, places_of, GivesOldest};
    ghost use Rattle.channel.specs.Meaning.{Leaves};
    ghost use Rattle.channel.specs.MeaningLemmas.{same_bag};
    ghost use Rattle.channel.specs.Order.{Joins};
    ghost use Rattle.channel.specs.OrderLemmas.{fits, joins_bag};
    ghost use Rattle.terms.specs.declared.message.Mark.{Mark};

    ghost bag = { waiting };

    ghost places = { places_of };

    ghost sends = { λ c m d. Joins c.ring m d.ring };

    ghost fetches = { GivesOldest };

    ghost bounded = { λ c. fits c.ring };

    ghost gains = { λ c m d s. joins_bag c.ring m d.ring s };

    ghost gives = { λ c pick.
        elim [
          | None ↦ λ d s. s
          | Some (m, mark) ↦
              λ d s.
              let l : length (waiting c) ≡ length (m ∷ waiting d) = ap length s.0 in (
                omega arith,
                subst (λ (k : Mark). Leaves (waiting c) (places_of c) m k (waiting d)) (sym s.1) (same_bag _ _ (sym s.0)),
                ap (min 65535) s.2.0,
              )
        ] };

    fn send(&mut self, m: Message) -> Result<(), Full> {
        self.ring.push_back(m)
    }

    fn fetch(&mut self, pick: u32) -> Option<(Message, Mark)> {
        let m = self.ring.pop_front()?;
        Some((m, Mark::Gone))
    }

    fn count_waiting(&self) -> usize {
        self.ring.len()
    }

    fn count_places(&self) -> usize {
        self.ring.places()
    }
}
