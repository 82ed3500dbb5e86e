// Where the words of the controllers lie, and the cells that no controller has.
use super::host::Host;
use super::opening::write_back;
use super::words::places;
use channel::line::Line;
use promise::act::Act;

const ACTS: [Act; 12] = [
    Act::Call(2),
    Act::Deliver(0),
    Act::Deliver(0),
    Act::Deliver(0),
    Act::Step(2),
    Act::Call(3),
    Act::Deliver(0),
    Act::Deliver(0),
    Act::Deliver(0),
    Act::Deliver(0),
    Act::Crash(1),
    Act::Deliver(0),
];

pub fn show_pages(rt: &HostRuntime) -> anyhow::Result<()> {
    let mut host = Host::open(rt, 3, 3080, Line::new(places(rt, 20)?))?;
    host.write_cells()?;
    for next in ACTS {
        host.act(next)?;
        host.write_cells()?;
    }
    let Host { rt, park } = host;
    write_back(rt, park.close())?;
    Ok(())
}
