// The bag: the pick decides which message is given, and whether it stays.
ghost use Rattle.std.specs.Prelude.{◌≡◌, ◌<◌, [], length, take, vec_items, MatchOption};
ghost use Rattle.channel.specs.Memory.{places_in};

use super::channel::{Channel, Full};
use super::ring::Ring;
use terms::message::{Mark, Message};

// The messages that wait, by their positions: the first of the memory.
// kept: two channels under one trait by their bags, as the project wants them; one type with its order as a parameter would have the same two impls.
#[derive(Debug, Drop)]
pub struct Bag {
    ring: Ring,
    ghost begins: { ring.first ≡ 0 },
}

impl Bag {
    ghost use Rattle.channel.specs.BagExamples.{BagsHold};
    ghost use Rattle.channel.specs.BagOrder.{waiting, places_of, position, mark_of};

    // Nothing waits in a new bag; its places are those of the memory.
    pub fn new(memory: Vec<Message>) -> Bag
        ensures empty { waiting result ≡ [] }
        ensures places { places_of result ≡ places_in memory }
        ensures memory { result.ring.memory ≡ memory }
        ensures examples { BagsHold }
    {
        Bag {
            ring: Ring::new(memory),
        }
    }

    // Gives the memory back. The messages that wait are its first, by their positions.
    #[tactic(auto, using(crate::specs::BagOrderLemmas::first_of_memory))]
    pub fn into_memory(self) -> Vec<Message>
        ensures memory { result ≡ self.ring.memory }
        ensures first { take (length (waiting self)) (vec_items result) ≡ waiting self }
    {
        let Bag { ring } = self;
        ring.into_memory()
    }

    // The position of the message that the pick gives, if any waits.
    fn position_of(&self, pick: u32) -> Option<usize>
        ensures { MatchOption result
            (waiting self.now ≡ [])
            (λ i. (i ≡ position self.now pick) × (i < length (waiting self.now))) }
    {
        (pick as usize).checked_rem(self.ring.len())
    }

    // What is said of the message that the pick gives.
    fn mark_of(&self, pick: u32) -> Mark
        ensures { result ≡ mark_of self.now pick }
    {
        if pick >= 0x8000_0000 && self.ring.len() < self.ring.places() {
            Mark::Copied
        } else {
            Mark::Gone
        }
    }
}

impl Channel for Bag {
    ghost use Rattle.std.specs.Prelude.{min, ◌∷◌, Some, None};
    ghost use Rattle.std.proofs.Common.{ap, sym, subst};
    ghost use Rattle.std.proofs.lemmas.Nat.{mod_below};
    ghost use Rattle.terms.specs.declared.message.Mark.TheVariants.{Gone, Copied};
    ghost use Rattle.channel.specs.BagOrder.{waiting, places_of, position, GivesAtPick};
    ghost use Rattle.channel.specs.BagOrderLemmas.{copied_if_free};
    ghost use Rattle.channel.specs.Meaning.{SameBag};
    ghost use Rattle.channel.specs.MeaningLemmas.{same_bag, one_less, has_standing};
    ghost use Rattle.channel.specs.Order.{Joins};
    ghost use Rattle.channel.specs.OrderLemmas.{fits, joins_bag};

    ghost bag = { waiting };

    ghost places = { places_of };

    ghost sends = { λ c m d. Joins c.ring m d.ring };

    ghost fetches = { GivesAtPick };

    ghost bounded = { λ c. fits c.ring };

    ghost gains = { λ c m d s. joins_bag c.ring m d.ring s };

    ghost gives = { λ c pick.
        elim [
          | None ↦ λ d s. s
          | Some (m, Copied) ↦ λ d s. (s.0, (same_bag _ _ (ap waiting s.3), has_standing (waiting c) (position c pick) m s.1, copied_if_free c pick s.2), ap places_of s.3)
          | Some (m, Gone) ↦
              λ d s.
              let l = one_less (waiting c) (position c pick) m (mod_below pick _ s.0) s.1 in
              (s.0, subst (λ w. SameBag (waiting c) (m ∷ w)) (sym s.3.0) l, ap (min 65535) s.3.1.0)
        ] };

    fn send(&mut self, m: Message) -> Result<(), Full> {
        self.ring.push_back(m)
    }

    fn fetch(&mut self, pick: u32) -> Option<(Message, Mark)> {
        let i = self.position_of(pick)?;
        match self.mark_of(pick) {
            Mark::Copied => Some((self.ring.message_at(i), Mark::Copied)),
            Mark::Gone => Some((self.ring.swap_remove(i), Mark::Gone)),
        }
    }

    fn count_waiting(&self) -> usize {
        self.ring.len()
    }

    fn count_places(&self) -> usize {
        self.ring.places()
    }
}
