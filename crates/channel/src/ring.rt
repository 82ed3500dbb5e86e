// The messages that wait in the memory of a host, one behind the other.
ghost use Rattle.std.specs.Prelude.{◌≡◌, ◌+◌, ◌-◌, ◌<◌, ◌≤◌, [], ◌∷◌, length, take, drop, slice_set, IsOk, IsErr, MatchOption};
ghost use Rattle.std.specs.List.{swap_remove};
ghost use Rattle.channel.specs.Memory.{places_in, Kept};
ghost use Rattle.channel.specs.Positions.{StandsAt};

use super::channel::Full;
use terms::message::Message;

// A ring in the places of the memory: count messages wait, the first at place first, or at 0 if first is past the places.
// kept: a Vec with a count beside it, and no VecDeque, since a channel allocates nothing and hands its host's memory back as long as it was.
// kept: a ghost field and no model, since the laws of both channels say of every ring that no more messages wait than there are places, and a model's value does not carry that.
#[derive(Debug, Drop)]
pub(crate) struct Ring {
    memory: Vec<Message>,
    first: usize,
    count: usize,
    ghost within: { (count ≤ places_in memory) × (first ≤ places_in memory) },
}

impl Ring {
    ghost use Rattle.channel.specs.Order.{IsPlace, in_order, Becomes, Joins};

    // Nothing waits in a new ring; its places are those of the memory.
    pub(crate) fn new(memory: Vec<Message>) -> Ring
        ensures empty { in_order result ≡ [] }
        ensures begins { result.first ≡ 0 }
        ensures memory { result.memory ≡ memory }
    {
        Ring {
            memory,
            first: 0,
            count: 0,
        }
    }

    // Gives the memory back.
    pub(crate) fn into_memory(self) -> Vec<Message>
        ensures { result ≡ self.memory }
    {
        let Ring {
            memory,
            first: _,
            count: _,
        } = self;
        memory
    }

    // How many messages wait.
    #[tactic(auto, using(crate::specs::OrderLemmas::length_in_order))]
    pub(crate) fn len(&self) -> usize
        ensures waiting { result ≡ length (in_order self.now) }
        ensures count { result ≡ self.now.count }
    {
        self.count
    }

    // How many places there are: one message a place, at most the first 65,535 of the memory.
    pub(crate) fn places(&self) -> usize
        ensures { result ≡ places_in self.now.memory }
    {
        self.memory.len().min(65535)
    }

    // The place that is i places after that of the first message.
    fn place_of(&self, i: usize) -> usize
        requires { i < places_in self.now.memory }
        ensures place { IsPlace (places_in self.now.memory) self.now.first i result }
        ensures within { result < places_in self.now.memory }
    {
        let places = self.places();
        let place = self.first + i;
        if place < places {
            place
        } else {
            place - places
        }
    }

    // The first message, where one waits.
    fn first_message(&self) -> Message
        requires { 0 < self.now.count }
        ensures { StandsAt (in_order self.now) 0 result }
    {
        self.memory[self.place_of(0)]
    }

    // The message before which i others wait, in a ring that begins at place 0: it lies at place i.
    // kept: the bound on i stands in each contract that takes it, since a position is good only until the ring changes.
    pub(crate) fn message_at(&self, i: usize) -> Message
        requires position { i < length (in_order self.now) }
        requires begins { self.now.first ≡ 0 }
        ensures { StandsAt (in_order self.now) i result }
    {
        self.memory[i]
    }

    // Refused exactly when all places are taken, and then nothing changes; otherwise the message waits after all others.
    pub(crate) fn push_back(&mut self, m: Message) -> Result<(), Full>
        ensures refused { places_in self.old.memory ≤ length (in_order self.old) → IsErr result × (self.new ≡ self.old) }
        ensures accepted { length (in_order self.old) < places_in self.old.memory → IsOk result × Joins self.old m self.new }
        ensures begins { self.new.first ≡ self.old.first }
    {
        if self.len() == self.places() {
            return Err(Full);
        }
        self.put_last(m);
        Ok(())
    }

    // The message waits after all others.
    fn put_last(&mut self, m: Message)
        requires { self.old.count < places_in self.old.memory }
        ensures joins { Joins self.old m self.new }
        ensures begins { self.new.first ≡ self.old.first }
    {
        let place = self.place_of(self.count);
        self.memory[place] = m;
        self.count += 1;
    }

    // The first message leaves, if any waits.
    pub(crate) fn pop_front(&mut self) -> Option<Message>
        ensures { MatchOption result
            ((in_order self.old ≡ []) × (self.new ≡ self.old))
            (λ m. (in_order self.old ≡ m ∷ in_order self.new) × Kept self.old.memory self.new.memory) }
    {
        if self.len() == 0 {
            return None;
        }
        let m = self.first_message();
        self.drop_first();
        Some(m)
    }

    // The first message leaves.
    fn drop_first(&mut self)
        requires { 0 < self.old.count }
        ensures { Becomes self.old (drop 1 (in_order self.old)) self.new }
    {
        self.first = self.place_of(0) + 1;
        self.count -= 1;
    }

    // The message before which i others wait leaves a ring that begins at place 0: the last moves there, and the end is cut off.
    pub(crate) fn swap_remove(&mut self, i: usize) -> Message
        requires position { i < length (in_order self.old) }
        requires begins { self.old.first ≡ 0 }
        ensures message { StandsAt (in_order self.old) i result }
        ensures left { Becomes self.old (swap_remove (in_order self.old) i result) self.new }
        ensures begins { self.new.first ≡ self.old.first }
    {
        let m = self.message_at(i);
        let last = self.message_at(self.count - 1);
        self.put_at(i, last);
        self.drop_last();
        m
    }

    // Writes m over the message before which i others wait, in a ring that begins at place 0.
    fn put_at(&mut self, i: usize, m: Message)
        requires position { i < self.old.count }
        requires begins { self.old.first ≡ 0 }
        ensures written { Becomes self.old (slice_set (in_order self.old) i m) self.new }
        ensures begins { self.new.first ≡ self.old.first }
    {
        self.memory[i] = m;
    }

    // The last message leaves.
    fn drop_last(&mut self)
        requires { 0 < self.old.count }
        ensures left { Becomes self.old (take (length (in_order self.old) - 1) (in_order self.old)) self.new }
        ensures begins { self.new.first ≡ self.old.first }
    {
        self.count -= 1;
    }
}
