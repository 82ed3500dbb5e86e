// A host with its park. Each thing that it does to the park is written as a line, with what came of it.
use super::words::{FILLING, Shown, is_filling, mark_word, message};
use anyhow::anyhow;
use channel::channel::Channel;
use coins::seeded::Seeded;
use park::park::{Park, Supplies};
use promise::act::{Act, Outcome};
use promise::open::open;
use promise::perform::perform;
use std::alloc::AllocError;
use std::io;
use terms::answer::Progress;
use terms::message::{Kind, Message};
use terms::word::Cell;

// The vehicle of each park that is opened.
pub(crate) const VEHICLE: u32 = 7;

// Supplies whose cells all hold the filling.
pub(crate) fn supplies<C: Drop>(
    rt: &HostRuntime,
    cells: usize,
    channel: C,
) -> Result<Supplies<C, Seeded>, AllocError> {
    Ok(Supplies {
        cells: vec![in rt.alloc(); Cell::Holds(FILLING); cells]?,
        channel,
        coins: Seeded { seed: 43 },
    })
}

// Writes which of the first cells hold a word, and how many of all cells hold the filling.
pub(crate) fn write_cells(rt: &HostRuntime, cells: &[Cell], first: usize) -> io::Result<()> {
    print!(rt; "cells that hold a word:")?;
    for (i, cell) in cells.iter().take(first).enumerate() {
        if let Cell::Holds(_) = cell {
            print!(rt; " {i}")?;
        }
    }
    let filled = cells.iter().filter(|cell| is_filling(cell)).count();
    println!(rt; "; {filled} of {} as filled", cells.len())
}

#[derive(Drop)]
pub(crate) struct Host<'a, C> {
    pub(crate) rt: &'a HostRuntime,
    pub(crate) park: Park<C, Seeded>,
}

impl<'a, C: Channel + Drop> Host<'a, C> {
    // Opens a park for n controllers.
    pub(crate) fn open(
        rt: &'a HostRuntime,
        n: u32,
        cells: usize,
        channel: C,
    ) -> anyhow::Result<Host<'a, C>> {
        let park = open(n, VEHICLE, supplies(rt, cells, channel)?).map_err(|_| anyhow!(
            "the park did not open"
        ))?;
        Ok(Host { rt, park })
    }

    // Performs an act, and writes what came of it.
    pub(crate) fn act(&mut self, act: Act) -> io::Result<()> {
        match act {
            Act::Call(p) => print!(self.rt; "call {p}: ")?,
            Act::Step(p) => print!(self.rt; "step {p}: ")?,
            Act::Crash(p) => print!(self.rt; "crash {p}: ")?,
            Act::Deliver(pick) => print!(self.rt; "deliver with pick {pick}: ")?,
        }
        match perform(&mut self.park, act) {
            Ok(Outcome::Advanced(Progress::Opened(_, _))) => {
                println!(self.rt; "accepted, no answer")
            }
            Ok(Outcome::Advanced(Progress::Answered(answer))) => {
                println!(self.rt; "accepted, answer {}", char::from(answer))
            }
            Ok(Outcome::Crashed) => println!(self.rt; "accepted"),
            Ok(Outcome::Delivered(receiver)) => {
                println!(self.rt; "accepted, delivered to {receiver}")
            }
            Err(refusal) => println!(self.rt; "refused {}", u8::from(refusal)),
        }
    }

    pub(crate) fn post(&mut self, m: Message) -> io::Result<()> {
        let shown = Shown(m);
        if self.park.post(m).is_ok() {
            println!(self.rt; "post {shown}: accepted")
        } else {
            println!(self.rt; "post {shown}: refused")
        }
    }

    pub(crate) fn fetch(&mut self, pick: u32) -> io::Result<()> {
        match self.park.fetch(pick) {
            Some((m, mark)) => {
                let shown = Shown(m);
                println!(self.rt; "fetch with pick {pick}: {shown}, {}", mark_word(mark))
            }
            None => println!(self.rt; "fetch with pick {pick}: nothing waits"),
        }
    }

    // Hands a message to controller p.
    pub(crate) fn receive(&mut self, p: u32, kind: Kind, fields: [u8; 6]) -> io::Result<()> {
        let m = message(kind, fields);
        let shown = Shown(m);
        match self.park.receive(p, m) {
            Ok(()) => println!(self.rt; "receive at {p} {shown}: accepted"),
            Err(refusal) => {
                println!(self.rt; "receive at {p} {shown}: refused {}", u8::from(refusal))
            }
        }
    }

    // Writes which cells of a park of three hold a word, and how many of all cells hold the filling.
    pub(crate) fn write_cells(&self) -> io::Result<()> {
        write_cells(self.rt, self.park.cells(), 3072)
    }
}
