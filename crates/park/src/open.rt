// Opening and closing a park.
ghost use Rattle.std.specs.Prelude.{◌≡◌, ℕ, ◌*◌, ◌≤◌, true, Some, None, vec_len, IfOk, MatchResult};
ghost use Rattle.park.specs.Opening.{Opening, GivesBack, open_refusal};
ghost use Rattle.park.specs.Sound.{Sound};

use super::cells::empty_first;
use super::controller::{Controller, Stage};
use super::head::Head;
use super::park::{NotOpened, Park, Supplies};
use super::roster::Roster;
use channel::channel::Channel;
use coins::Coins;
use permit::desk::Desk;
use terms::heard::majority;
use terms::refusal::Refusal;
use terms::word::Word;

impl<C: Channel, K: Coins> Park<C, K> {
    // Opens a park of n controllers over what the host hands over. A refused opening gives everything back as it was.
    pub fn open(
        n: u32,
        vehicle: u32,
        supplies: Supplies<C, K>,
    ) -> Result<Park<C, K>, NotOpened<C, K>>
        ensures opens { Opening C.Channel n vehicle supplies result }
        ensures sound { IfOk result (λ park. Sound park) }
    {
        let n = match supplies.count_for(n) {
            Ok(n) => n,
            Err(refusal) => return Err(NotOpened { refusal, supplies }),
        };
        let Supplies {
            mut cells,
            channel,
            coins,
        } = supplies;
        empty_first(&mut cells, 1024 * n as usize);
        let head = Head {
            n,
            majority: majority(n),
        };
        Ok(Park {
            head,
            desk: Desk::new(vehicle),
            roster: nobody_called(),
            cells,
            channel,
            coins,
        })
    }

    // Gives back what the park holds.
    pub fn close(self) -> Supplies<C, K>
        ensures gives { GivesBack self result }
        ensures sound { Sound self }
    {
        let Park {
            head: _,
            desk: _,
            roster: _,
            cells,
            channel,
            coins,
        } = self;
        Supplies {
            cells,
            channel,
            coins,
        }
    }
}

impl<C: Channel, K> Supplies<C, K> {
    // The count n, if there is enough of everything for a park of n controllers, or why there is not.
    fn count_for(&self, n: u32) -> Result<u8, Refusal>
        ensures { MatchResult result (λ m. (m ≡ n) × (1 ≤ m) × (m ≤ 15) × (1024 * m ≤ vec_len self.now.cells) × (open_refusal C.Channel n (vec_len self.now.cells) self.now.channel ≡ None)) (λ e. open_refusal C.Channel n (vec_len self.now.cells) self.now.channel ≡ Some e) }
    {
        if n == 0 || n > 15 {
            return Err(Refusal::Count);
        }
        let n = n as u8;
        if self.cells.len() < 1024 * n as usize {
            return Err(Refusal::Memory);
        }
        if self.channel.count_places() < n as usize - 1 {
            return Err(Refusal::Places);
        }
        if self.channel.count_waiting() > 0 {
            return Err(Refusal::Leftover);
        }
        Ok(n)
    }
}

fn nobody_called() -> Roster
    ensures { result.list ≡ Rattle.park.specs.Opening.all_uncalled }
{
    let controller = Controller {
        up: true,
        stage: Stage::Uncalled,
        heard: 0,
        words: [Word::default(); 15],
    };
    Roster {
        list: [controller; 15],
    }
}
