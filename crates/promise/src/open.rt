// Opening a park: what the runs of the promise begin with.
ghost use Rattle.std.specs.Prelude.{[], IfOk};
ghost use Rattle.park.specs.Opening.{Opening};
ghost use Rattle.park.specs.Sound.{Sound};
ghost use Rattle.promise.specs.Promise.{Promise};
ghost use Rattle.promise.specs.Runs.{Fresh};

use channel::channel::Channel;
use coins::Coins;
use park::park::{NotOpened, Park, Supplies};

// Opens a park. The park that it makes is fresh, and the promise holds of it before the first act.
pub fn open<C: Channel, K: Coins>(
    n: u32,
    vehicle: u32,
    supplies: Supplies<C, K>,
) -> Result<Park<C, K>, NotOpened<C, K>>
    ensures opens { Opening C.Channel n vehicle supplies result }
    ensures sound { IfOk result (λ park. Sound park) }
    ensures fresh { IfOk result (λ park. Fresh C.Channel K.Coins park) }
    ensures promise { IfOk result (λ park. Promise C.Channel K.Coins [] park) }
{
    Park::open(n, vehicle, supplies)
}
