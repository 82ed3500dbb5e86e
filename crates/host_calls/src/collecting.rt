// Answers that are collected.
ghost use Rattle.permit.specs.Acts.{HeldAt};

use super::host::Host;
use super::spending::{Spent, give_up, load_and_dispatch};
use super::words::places;
use channel::line::Line;
use coins::seeded::Seeded;
use park::collected::Collected;
use park::park::Park;
use permit::permit::HeldPermit;
use promise::act::Act;
use promise::perform::collect;
use std::io;

// Controller 1 calls first and is told yes; controller 2 calls then and is told no.
const ACTS: [Act; 14] = [
    Act::Call(1),
    Act::Deliver(0),
    Act::Deliver(0),
    Act::Step(1),
    Act::Deliver(0),
    Act::Deliver(0),
    Act::Step(1),
    Act::Call(2),
    Act::Deliver(0),
    Act::Deliver(0),
    Act::Step(2),
    Act::Deliver(0),
    Act::Deliver(0),
    Act::Step(2),
];

pub fn collect_answers(rt: &HostRuntime) -> anyhow::Result<()> {
    let mut host = Host::open(rt, 2, 2048, Line::new(places(rt, 4)?))?;
    for p in [0, 3, 4294967295, 1, 2] {
        collect_and_spend(&mut host, p, load_and_dispatch)?;
    }
    for next in ACTS {
        host.act(next)?;
        collect_and_spend(&mut host, 2, load_and_dispatch)?;
    }
    for p in [2, 1, 1, 2] {
        collect_and_spend(&mut host, p, load_and_dispatch)?;
    }
    host.act(Act::Crash(1))?;
    host.act(Act::Crash(2))?;
    for p in [1, 2, 3] {
        collect_and_spend(&mut host, p, load_and_dispatch)?;
    }
    hand_one_back(rt)
}

// A park of one whose controller hands its permit back.
fn hand_one_back(rt: &HostRuntime) -> anyhow::Result<()> {
    let mut host = Host::open(rt, 1, 1024, Line::new(places(rt, 0)?))?;
    for next in [Act::Call(1), Act::Step(1), Act::Step(1)] {
        collect_and_spend(&mut host, 1, give_up)?;
        host.act(next)?;
    }
    for _ in 0..3 {
        collect_and_spend(&mut host, 1, give_up)?;
    }
    host.act(Act::Crash(1))?;
    collect_and_spend(&mut host, 1, give_up)?;
    Ok(())
}

// Controller p collects, and a permit that it may be given is spent at once.
fn collect_and_spend<F: FnOnce(&mut Park<Line, Seeded>, HeldPermit) -> Spent>(
    host: &mut Host<Line>,
    p: u32,
    spend: F,
) -> io::Result<()>
    requires { (at : _) (permit : _) → HeldAt at.now.desk permit → F.pre spend at permit }
{
    let rt = host.rt;
    print!(rt; "collect {p}: ")?;
    match collect(&mut host.park, p) {
        Ok(Collected::Yes(permit)) => write_spent(rt, spend(&mut host.park, permit))?,
        Ok(Collected::No) => println!(rt; "no")?,
        Ok(Collected::Undecided) => println!(rt; "undecided")?,
        Err(refusal) => println!(rt; "refused {}", u8::from(refusal))?,
    }
    println!(rt; "stage: {}", host.park.permit_stage())
}

fn write_spent(rt: &HostRuntime, spent: Spent) -> io::Result<()> {
    match spent {
        Spent::Dispatched {
            given,
            loaded,
            dispatched,
        } => {
            println!(rt; "yes with a permit, {given}")?;
            println!(rt; "load: accepted, {loaded}")?;
            println!(rt; "dispatch: accepted, {dispatched}")
        }
        Spent::HandedBack { given, back } => {
            println!(rt; "yes with a permit, {given}")?;
            println!(rt; "hand back: accepted, {back}")
        }
    }
}
