// The park of the story, its acts told one by one, and what they come to.
use super::acts::{ACTS, STAYS};
use super::crossing::{Crossing, cross};
use super::words::{
    answer_word, group_word, name_word, number_in, refusal_word, stage_word, station,
};
use anyhow::anyhow;
use channel::bag::Bag;
use coins::seeded::Seeded;
use park::park::{Park, Supplies};
use promise::act::{Act, Outcome};
use promise::open::open;
use promise::perform::perform;
use std::io;
use terms::answer::{Answer, Progress};
use terms::message::Message;
use terms::word::{Cell, Place, Word};

const BOAT: u32 = 7;

// Where the story is written, the park, the station that crashed last, and how often things happened.
#[derive(Drop)]
pub struct Tale<'a> {
    rt: &'a HostRuntime,
    park: Park<Bag, Seeded>,
    crashed: Option<u32>,
    delivered: u32,
    stayed: u32,
    yes: u32,
    permits: u32,
}

impl<'a> Tale<'a> {
    // Opens the park for three stations. At most 14 messages wait at once, so that of 20 places some are always free.
    pub fn open(rt: &'a HostRuntime) -> anyhow::Result<Tale<'a>> {
        let heap = rt.alloc();
        let cells = vec![in heap; Cell::Empty; 3072]?;
        let places = vec![in heap; Message::default(); 20]?;
        let supplies = Supplies {
            cells,
            channel: Bag::new(places),
            coins: Seeded { seed: 43 },
        };
        let park = open(3, BOAT, supplies).map_err(|_| anyhow!("the park did not open"))?;
        Ok(Tale {
            rt,
            park,
            crashed: None,
            delivered: 0,
            stayed: 0,
            yes: 0,
            permits: 0,
        })
    }

    // Tells the whole story: the acts, then who collects what, then the sum.
    pub fn tell(&mut self) -> io::Result<()> {
        println!(self.rt; "The stations North, West and South share boat {BOAT}.")?;
        for act in ACTS {
            self.tell_act(act)?;
        }
        for p in [1, 2, 3, 2] {
            self.tell_crossing(p)?;
        }
        self.tell_sum()
    }

    // Performs an act, and tells what it did.
    fn tell_act(&mut self, act: Act) -> io::Result<()> {
        let number = number_in(act);
        if let Act::Call(p) = act {
            println!(self.rt; "{} calls for boat {BOAT}.", station(p))?;
        }
        match perform(&mut self.park, act) {
            Ok(Outcome::Advanced(Progress::Opened(place, word))) => self.tell_opening(
                number, place, word,
            ),
            Ok(Outcome::Advanced(Progress::Answered(answer))) => self.tell_answer(number, answer),
            Ok(Outcome::Crashed) => self.tell_crash(number),
            Ok(Outcome::Delivered(receiver)) => self.tell_delivery(number, u32::from(receiver)),
            Err(refusal) => println!(self.rt;
                "The park refuses this, with number {}.",
                u8::from(refusal)
            ),
        }
    }

    fn tell_answer(&mut self, p: u32, answer: Answer) -> io::Result<()> {
        if let Answer::Yes = answer {
            self.yes = self.yes.saturating_add(1);
        }
        println!(self.rt; "{} is told {}.", station(p), answer_word(answer))
    }

    fn tell_crash(&mut self, p: u32) -> io::Result<()> {
        self.crashed = Some(p);
        match self.park.answer(p) {
            Some(answer) => println!(self.rt;
                "{} crashes after it was told {}.",
                station(p),
                answer_word(answer)
            ),
            None => println!(self.rt; "{} crashes, and has no answer.", station(p)),
        }
    }

    fn tell_delivery(&mut self, pick: u32, receiver: u32) -> io::Result<()> {
        self.delivered = self.delivered.saturating_add(1);
        let name = station(receiver);
        print!(self.rt; "A message reaches {name}")?;
        if self.crashed == Some(receiver) {
            print!(self.rt; ", which is down and drops it")?;
        }
        if pick >= STAYS {
            self.stayed = self.stayed.saturating_add(1);
            print!(self.rt; ", and stays in the channel to come again")?;
        }
        println!(self.rt; ".")
    }

    // A station collects its answer and, given the permit, loads and dispatches the boat.
    fn tell_crossing(&mut self, p: u32) -> io::Result<()> {
        let name = station(p);
        match cross(&mut self.park, p) {
            Ok(Crossing::Dispatched) => {
                self.permits = self.permits.saturating_add(1);
                println!(self.rt;
                    "{name} collects its permit, loads boat {BOAT} and dispatches it."
                )
            }
            Ok(Crossing::No) => println!(self.rt; "{name} collects its answer, which is no."),
            Ok(Crossing::Undecided) => println!(self.rt;
                "{name} collects its answer, which is undecided."
            ),
            Err(refusal) => println!(self.rt;
                "{name} collects nothing: {}.",
                refusal_word(refusal)
            ),
        }
    }

    fn tell_sum(&self) -> io::Result<()> {
        println!(self.rt;
            "{} messages were delivered, and {} of them stayed in the channel to come again.",
            self.delivered, self.stayed
        )?;
        let stage = stage_word(self.park.permit_stage());
        println!(self.rt;
            "In all: {} yes, {} permit, and boat {BOAT} is {stage}.",
            self.yes, self.permits
        )
    }

    fn tell_opening(&self, p: u32, place: Place, word: Word) -> io::Result<()> {
        let Place {
            selector,
            round,
            phase,
        } = place;
        let name = station(p);
        let group = group_word(word.group);
        let said = name_word(word.name);
        println!(self.rt;
            "{name} opens selector {selector}, round {round}, phase {phase}, saying {group} and {said}."
        )
    }
}
