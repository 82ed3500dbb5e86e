// Openings, refused and accepted, and what comes back.
use super::host::{VEHICLE, supplies, write_cells};
use super::words::places;
use channel::channel::Channel;
use channel::line::Line;
use coins::seeded::Seeded;
use park::park::{NotOpened, Supplies};
use promise::open::open;
use std::io;
use terms::message::Message;

// How many controllers, cells and places, and how many messages wait.
#[derive(Clone, Copy)]
struct Opening {
    n: u32,
    cells: usize,
    places: usize,
    waiting: u32,
}

const OPENINGS: [Opening; 17] = [
    Opening {
        n: 0,
        cells: 3072,
        places: 2,
        waiting: 0,
    },
    Opening {
        n: 16,
        cells: 16384,
        places: 15,
        waiting: 0,
    },
    Opening {
        n: 4294967295,
        cells: 3072,
        places: 2,
        waiting: 0,
    },
    Opening {
        n: 3,
        cells: 3071,
        places: 2,
        waiting: 0,
    },
    Opening {
        n: 3,
        cells: 3072,
        places: 2,
        waiting: 0,
    },
    Opening {
        n: 3,
        cells: 3072,
        places: 1,
        waiting: 0,
    },
    Opening {
        n: 3,
        cells: 3072,
        places: 2,
        waiting: 1,
    },
    Opening {
        n: 16,
        cells: 0,
        places: 0,
        waiting: 0,
    },
    Opening {
        n: 0,
        cells: 0,
        places: 1,
        waiting: 1,
    },
    Opening {
        n: 3,
        cells: 3071,
        places: 1,
        waiting: 0,
    },
    Opening {
        n: 3,
        cells: 3071,
        places: 2,
        waiting: 2,
    },
    Opening {
        n: 3,
        cells: 3072,
        places: 1,
        waiting: 1,
    },
    Opening {
        n: 3,
        cells: 3080,
        places: 4,
        waiting: 0,
    },
    Opening {
        n: 1,
        cells: 1024,
        places: 0,
        waiting: 0,
    },
    Opening {
        n: 15,
        cells: 15359,
        places: 14,
        waiting: 0,
    },
    Opening {
        n: 15,
        cells: 15360,
        places: 13,
        waiting: 0,
    },
    Opening {
        n: 15,
        cells: 15360,
        places: 14,
        waiting: 0,
    },
];

pub fn try_openings(rt: &HostRuntime) -> anyhow::Result<()> {
    for opening in OPENINGS {
        try_opening(rt, opening)?;
    }
    Ok(())
}

// Tries an opening, closes the park if it is opened, and writes what comes back either way.
fn try_opening(rt: &HostRuntime, opening: Opening) -> anyhow::Result<()> {
    let Opening {
        n,
        cells,
        places: count,
        waiting,
    } = opening;
    print!(rt; "open {n} controllers, {cells} cells, {count} places, {waiting} waiting: ")?;
    let mut channel = Line::new(places(rt, count)?);
    for _ in 0..waiting {
        channel.send(Message::default())?;
    }
    match open(n, VEHICLE, supplies(rt, cells, channel)?) {
        Ok(park) => {
            println!(rt; "accepted")?;
            write_back(rt, park.close())?;
        }
        Err(NotOpened { refusal, supplies }) => {
            println!(rt; "refused {}", u8::from(refusal))?;
            write_back(rt, supplies)?;
        }
    }
    Ok(())
}

// Writes what a host has back.
pub fn write_back(rt: &HostRuntime, supplies: Supplies<Line, Seeded>) -> io::Result<()> {
    let places = supplies.channel.count_places();
    let waiting = supplies.channel.count_waiting();
    print!(rt; "back: {places} places, {waiting} waiting, ")?;
    write_cells(rt, supplies.cells.as_slice(), 0)
}
