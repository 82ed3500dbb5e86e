// A station collects its answer and, given the permit, loads and dispatches the vehicle.
ghost use Rattle.std.specs.Prelude.{◌≡◌};
ghost use Rattle.permit.specs.Acts.{HeldAt};
ghost use Rattle.story.specs.Crossings.{Crosses, sent_off};

use channel::channel::Channel;
use coins::Coins;
use park::collected::Collected;
use park::park::Park;
use permit::permit::HeldPermit;
use promise::perform::{collect, dispatch, load};
use terms::refusal::Refusal;

// What a station's collecting comes to, where it is not refused.
// kept: beside Collected: the permit is spent, and a type without it can be copied and told.
#[derive(Clone, Copy, Debug, PartialEq, Eq)]
pub enum Crossing {
    Dispatched,
    No,
    Undecided,
}

// Controller p collects; a permit that it is given is spent at once.
pub fn cross<C: Channel, K: Coins>(park: &mut Park<C, K>, p: u32) -> Result<Crossing, Refusal>
    ensures { Crosses park.old p result park.new }
{
    match collect(park, p)? {
        Collected::Yes(permit) => {
            send_off(park, permit);
            Ok(Crossing::Dispatched)
        }
        Collected::No => Ok(Crossing::No),
        Collected::Undecided => Ok(Crossing::Undecided),
    }
}

// Loads and dispatches with a permit that was just given: neither is refused.
fn send_off<C: Channel, K: Coins>(park: &mut Park<C, K>, permit: HeldPermit)
    requires { HeldAt park.old.desk permit }
    ensures { park.new ≡ sent_off park.old }
{
    let loaded = load(park, permit).unwrap();
    dispatch(park, loaded).unwrap();
}
