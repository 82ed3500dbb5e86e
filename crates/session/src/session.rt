// One session: the cells for a park until one is opened, and then the park.
ghost use Rattle.std.specs.Prelude.{◌≡◌, IfOk, MatchResult};
ghost use Rattle.session.specs.Sessions.{New, SoundIn, is_open, Answers, OpensOnce, TakesUp, EmptyLine, OpeningFor0, Acts};

use super::act::act_on;
use channel::line::Line;
use coins::seeded::Seeded;
use park::park::{NotOpened, Park, Supplies};
use promise::open::open;
use script::record::Record;
use script::report::{Kind, Report};
use std::alloc::{AllocError, Global};
use std::mem;
use terms::act::Act;
use terms::message::Message;
use terms::word::Cell;

#[derive(Drop)]
enum State {
    // No park is open yet; these cells are for it.
    Before(Vec<Cell>),
    Open(Park<Line, Seeded>),
}

impl State {
    // Does nothing, and tells what every open park has.
    // kept: who borrows a session learns this from no type and can't call its park, so the session calls it for them.
    fn show_sound(&self)
        ensures { SoundIn self.now }
    {
        if let State::Open(park) = self {
            let _ = park.count_controllers();
        }
    }
}

#[derive(Drop)]
pub struct Session {
    state: State,
}

impl Session {
    // A session before its opening, with cells for the largest park.
    pub fn new(heap: Global) -> Result<Session, AllocError>
        ensures { IfOk result New }
    {
        let cells = vec![in heap; Cell::Empty; 15360]?;
        Ok(Session {
            state: State::Before(cells),
        })
    }

    // Whether a park is open. Told with it: what every open park has.
    pub fn is_open(&self) -> bool
        ensures told { result ≡ is_open self.now }
        ensures sound { SoundIn self.now.state }
    {
        self.state.show_sound();
        matches!(self.state, State::Open(_))
    }

    // Does what a record asks, and reports it. Without memory for a channel nothing changes.
    pub fn answer(&mut self, heap: Global, asked: Option<Record>) -> Result<Report, AllocError>
        ensures answered { MatchResult result (λ report. Answers self.old asked report self.new) (λ _. self.new ≡ self.old) }
        ensures sound { SoundIn self.new.state }
    {
        let answered = match asked {
            None => Ok(Report::NoRecord),
            Some(Record::Open { n, places, seed }) => self.open(heap, n, places, seed),
            Some(Record::Act(act)) => Ok(self.act(act)),
        };
        self.state.show_sound();
        answered
    }

    // Opens the park, once. A refused opening may be tried again.
    fn open(&mut self, heap: Global, n: u32, places: u32, seed: u64) -> Result<Report, AllocError>
        ensures { MatchResult result (λ report. OpensOnce self.old.state self.old n places seed report self.new) (λ _. self.new ≡ self.old) }
    {
        match &mut self.state {
            State::Open(_) => Ok(Report::NoRecord),
            State::Before(cells) => {
                let line = new_line(heap, places)?;
                let cells = mem::replace(cells, Vec::new(heap));
                Ok(take_up(&mut self.state, open_park(n, seed, cells, line)))
            }
        }
    }

    fn act(&mut self, act: Act) -> Report
        ensures { Acts self.old.state self.old act result self.new }
    {
        match &mut self.state {
            State::Open(park) => act_on(park, act),
            State::Before(_) => Report::NoRecord,
        }
    }
}

// Keeps the park that an opening gave, or takes back the cells of a refused one.
fn take_up(state: &mut State, opened: Result<Park<Line, Seeded>, NotOpened<Line, Seeded>>) -> Report
    ensures { TakesUp opened result state.new }
{
    match opened {
        Ok(park) => {
            *state = State::Open(park);
            Report::Opened
        }
        Err(NotOpened { refusal, supplies }) => {
            let Supplies {
                cells,
                channel: _,
                coins: _,
            } = supplies;
            *state = State::Before(cells);
            Report::Refused(Kind::Open, refusal)
        }
    }
}

// A line of so many places in which nothing waits.
fn new_line(heap: Global, places: u32) -> Result<Line, AllocError>
    ensures { IfOk result (EmptyLine places) }
{
    let memory = vec![in heap; Message::default(); places as usize]?;
    Ok(Line::new(memory))
}

// Opens a park for vehicle number 0 over these cells, a line and the coins of this seed.
fn open_park(
    n: u32,
    seed: u64,
    cells: Vec<Cell>,
    line: Line,
) -> Result<Park<Line, Seeded>, NotOpened<Line, Seeded>>
    ensures { OpeningFor0 n seed cells line result }
{
    open(
        n,
        0,
        Supplies {
            cells,
            channel: line,
            coins: Seeded { seed },
        },
    )
}
