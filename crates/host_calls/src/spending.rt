// What becomes of a permit in its own park: it is loaded and dispatched, or handed back.
ghost use Rattle.permit.specs.Acts.{HeldAt};

use channel::channel::Channel;
use coins::Coins;
use park::park::Park;
use permit::desk::PermitStage;
use permit::permit::HeldPermit;
use promise::perform::{dispatch, hand_back, load};

// How a permit was spent, with the stage of its park before and after each act.
#[derive(Clone, Copy, Debug, PartialEq, Eq)]
pub(crate) enum Spent {
    Dispatched {
        given: PermitStage,
        loaded: PermitStage,
        dispatched: PermitStage,
    },
    HandedBack {
        given: PermitStage,
        back: PermitStage,
    },
}

// Loads and dispatches with a permit that this park has given.
pub(crate) fn load_and_dispatch<C: Channel, K: Coins>(
    park: &mut Park<C, K>,
    permit: HeldPermit,
) -> Spent
    requires { HeldAt park.old.desk permit }
{
    let given = park.permit_stage();
    let permit = load(park, permit).unwrap();
    let loaded = park.permit_stage();
    dispatch(park, permit).unwrap();
    Spent::Dispatched {
        given,
        loaded,
        dispatched: park.permit_stage(),
    }
}

// Hands back a permit that this park has given.
pub(crate) fn give_up<C: Channel, K: Coins>(park: &mut Park<C, K>, permit: HeldPermit) -> Spent
    requires { HeldAt park.old.desk permit }
{
    let given = park.permit_stage();
    hand_back(park, permit).unwrap();
    Spent::HandedBack {
        given,
        back: park.permit_stage(),
    }
}
