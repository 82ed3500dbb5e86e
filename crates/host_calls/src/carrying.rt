// What a host sends and fetches itself, and malformed messages that it puts into the channel.
use super::host::Host;
use super::words::{message, places};
use channel::bag::Bag;
use channel::channel::Channel;
use channel::line::Line;
use promise::act::Act;
use std::io;
use terms::message::Kind;

const ROUNDS: [u8; 4] = [1, 2, 3, 4];

const PICKS: [u32; 7] = [0x8000_0000, 0x8000_0001, 0x8000_0001, 3, 1, 0xFFFF_FFFF, 0];

pub fn post_and_fetch(rt: &HostRuntime) -> anyhow::Result<()> {
    println!(rt; "a bag of 3 places")?;
    fill_and_empty(Host::open(rt, 3, 3072, Bag::new(places(rt, 3)?))?)?;
    println!(rt; "a line of 3 places")?;
    fill_and_empty(Host::open(rt, 3, 3072, Line::new(places(rt, 3)?))?)?;
    Ok(())
}

// Sizes of memory at which a channel comes to its limit of places.
const SIZES: [usize; 3] = [65534, 65535, 65536];

pub fn count_places(rt: &HostRuntime) -> anyhow::Result<()> {
    for size in SIZES {
        let bag = Bag::new(places(rt, size)?);
        let line = Line::new(places(rt, size)?);
        println!(rt;
            "memory for {size} messages: {} places in a bag, {} in a line",
            bag.count_places(),
            line.count_places()
        )?;
    }
    Ok(())
}

// Posts until a message is refused, and fetches until nothing waits.
fn fill_and_empty<C: Channel + Drop>(mut host: Host<C>) -> io::Result<()> {
    host.fetch(0)?;
    for round in ROUNDS {
        host.post(message(Kind::Echo, [2, 1, 1, round, 1, 2]))?;
    }
    for pick in PICKS {
        host.fetch(pick)?;
    }
    Ok(())
}

// Messages that a park of three does not take: their senders, receivers, selectors, rounds, phases and names.
pub const MALFORMED: [[u8; 6]; 16] = [
    [0, 1, 1, 1, 1, 2],
    [4, 1, 1, 1, 1, 2],
    [255, 1, 1, 1, 1, 2],
    [2, 0, 1, 1, 1, 2],
    [2, 4, 1, 1, 1, 2],
    [2, 255, 1, 1, 1, 2],
    [1, 1, 1, 1, 1, 2],
    [2, 1, 0, 1, 1, 2],
    [2, 1, 17, 1, 1, 2],
    [2, 1, 1, 0, 1, 2],
    [2, 1, 1, 17, 1, 2],
    [2, 1, 1, 1, 0, 2],
    [2, 1, 1, 1, 3, 2],
    [2, 1, 1, 1, 1, 0],
    [2, 1, 1, 1, 1, 4],
    [2, 1, 1, 1, 1, 255],
];

pub fn deliver_malformed(rt: &HostRuntime) -> anyhow::Result<()> {
    let mut host = Host::open(rt, 3, 3072, Line::new(places(rt, 3)?))?;
    println!(rt; "all controllers are up")?;
    deliver_each(&mut host)?;
    host.act(Act::Crash(1))?;
    deliver_each(&mut host)?;
    Ok(())
}

// Posts and delivers each malformed message, then one that is well formed.
fn deliver_each(host: &mut Host<Line>) -> io::Result<()> {
    for fields in MALFORMED {
        post_and_deliver(host, Kind::Phase, fields)?;
        post_and_deliver(host, Kind::Echo, fields)?;
    }
    host.write_cells()?;
    post_and_deliver(host, Kind::Echo, [2, 1, 16, 16, 2, 3])?;
    post_and_deliver(host, Kind::Phase, [2, 1, 16, 16, 2, 3])?;
    host.write_cells()
}

// Posts and delivers a message, and looks for what waits then.
fn post_and_deliver(host: &mut Host<Line>, kind: Kind, fields: [u8; 6]) -> io::Result<()> {
    host.post(message(kind, fields))?;
    host.act(Act::Deliver(0))?;
    host.fetch(0)
}
