// Messages that a host hands to one controller.
use super::carrying::MALFORMED;
use super::host::Host;
use super::words::{message, places};
use channel::line::Line;
use promise::act::Act;
use std::io;
use terms::message::Kind;

// A message to 1, a malformed one, and one to the other controllers.
const GOOD: [u8; 6] = [2, 1, 1, 1, 1, 2];

const BAD: [u8; 6] = [2, 1, 1, 1, 1, 4];

const TO_2: [u8; 6] = [1, 2, 1, 1, 1, 1];

const TO_3: [u8; 6] = [2, 3, 1, 1, 1, 2];

pub fn receive_messages(rt: &HostRuntime) -> anyhow::Result<()> {
    let mut host = Host::open(rt, 3, 3072, Line::new(places(rt, 2)?))?;
    host.act(Act::Crash(3))?;
    for p in [0, 4, 4294967295, 3] {
        receive_both(&mut host, p, GOOD)?;
        receive_both(&mut host, p, BAD)?;
    }
    receive_malformed(&mut host)?;
    receive_when_full(&mut host)?;
    receive_well_formed(&mut host)?;
    Ok(())
}

// Malformed messages, and messages for another controller, with places free.
fn receive_malformed(host: &mut Host<Line>) -> io::Result<()> {
    for fields in MALFORMED {
        receive_both(host, 1, fields)?;
    }
    receive_both(host, 1, TO_2)?;
    receive_both(host, 1, TO_3)?;
    host.write_cells()?;
    host.fetch(0)
}

// All places are taken.
fn receive_when_full(host: &mut Host<Line>) -> io::Result<()> {
    host.post(message(Kind::Echo, GOOD))?;
    host.post(message(Kind::Echo, GOOD))?;
    for p in [0, 4, 3, 1] {
        receive_both(host, p, BAD)?;
        receive_both(host, p, TO_2)?;
        receive_both(host, p, GOOD)?;
    }
    host.write_cells()?;
    for _ in 0..3 {
        host.fetch(0)?;
    }
    Ok(())
}

// Keeps the first word and answers with it, and hears what answers a call.
fn receive_well_formed(host: &mut Host<Line>) -> io::Result<()> {
    host.receive(1, Kind::Phase, GOOD)?;
    host.fetch(0)?;
    host.receive(1, Kind::Phase, [2, 1, 1, 1, 1, 3])?;
    host.fetch(0)?;
    host.write_cells()?;
    host.act(Act::Call(1))?;
    host.act(Act::Step(1))?;
    host.receive(1, Kind::Echo, GOOD)?;
    host.fetch(0)?;
    host.fetch(0)?;
    host.act(Act::Step(1))?;
    host.fetch(0)?;
    host.fetch(0)?;
    host.fetch(0)
}

fn receive_both(host: &mut Host<Line>, p: u32, fields: [u8; 6]) -> io::Result<()> {
    host.receive(p, Kind::Phase, fields)?;
    host.receive(p, Kind::Echo, fields)
}
