// Performing the acts on a park. Each contract says what the act does, and that the promise is kept in every run that leads to the park it is given.
ghost use Rattle.permit.specs.Acts.{Loads, Dispatches, HandsBack};
ghost use Rattle.park.specs.Permits.{Collects, AtDesk};
ghost use Rattle.park.specs.Sound.{StaysSound};
ghost use Rattle.promise.specs.Performs.{Performs};
ghost use Rattle.promise.specs.Promise.{EveryRunKeepsThePromise, KeepsThePromise};
ghost use Rattle.promise.specs.Runs.{performed, collected, loaded, dispatched, handed_back};

use super::act::{Act, Outcome};
use channel::channel::Channel;
use coins::Coins;
use park::collected::Collected;
use park::park::Park;
use permit::acts::Returned;
use permit::permit::{HeldPermit, LoadedPermit};
use terms::refusal::Refusal;

// Performs a call, a step, a crash or a delivery.
pub fn perform<C: Channel, K: Coins>(park: &mut Park<C, K>, act: Act) -> Result<Outcome, Refusal>
    ensures does { Performs C.Channel K.Coins park.old act result park.new }
    ensures sound { StaysSound park.old park.new }
    ensures promise { KeepsThePromise C.Channel K.Coins park.old (performed act result) park.new }
    ensures every_run { EveryRunKeepsThePromise C.Channel K.Coins }
{
    act_on(park, act)
}

// Tells the answer of controller p; the first collecting of a yes gives the permit.
pub fn collect<C: Channel, K: Coins>(park: &mut Park<C, K>, p: u32) -> Result<Collected, Refusal>
    ensures does { Collects park.old p result park.new }
    ensures sound { StaysSound park.old park.new }
    ensures promise { KeepsThePromise C.Channel K.Coins park.old (collected p result) park.new }
{
    park.collect(p)
}

pub fn load<C: Channel, K: Coins>(
    park: &mut Park<C, K>,
    permit: HeldPermit,
) -> Result<LoadedPermit, Returned<HeldPermit>>
    ensures does { AtDesk (λ desk. Loads desk permit) park.old result park.new }
    ensures sound { StaysSound park.old park.new }
    ensures promise { KeepsThePromise C.Channel K.Coins park.old (loaded permit result) park.new }
{
    park.load(permit)
}

pub fn dispatch<C: Channel, K: Coins>(
    park: &mut Park<C, K>,
    permit: LoadedPermit,
) -> Result<(), Returned<LoadedPermit>>
    ensures does { AtDesk (λ desk. Dispatches desk permit) park.old result park.new }
    ensures sound { StaysSound park.old park.new }
    ensures promise { KeepsThePromise C.Channel K.Coins park.old (dispatched permit result) park.new }
{
    park.dispatch(permit)
}

pub fn hand_back<C: Channel, K: Coins>(
    park: &mut Park<C, K>,
    permit: HeldPermit,
) -> Result<(), Returned<HeldPermit>>
    ensures does { AtDesk (λ desk. HandsBack desk permit) park.old result park.new }
    ensures sound { StaysSound park.old park.new }
    ensures promise { KeepsThePromise C.Channel K.Coins park.old (handed_back permit result) park.new }
{
    park.hand_back(permit)
}

fn act_on<C: Channel, K: Coins>(park: &mut Park<C, K>, act: Act) -> Result<Outcome, Refusal>
    ensures does { Performs C.Channel K.Coins park.old act result park.new }
    ensures sound { StaysSound park.old park.new }
{
    match act {
        Act::Call(p) => park.call(p).map(Outcome::Advanced),
        Act::Step(p) => park.step(p).map(Outcome::Advanced),
        Act::Crash(p) => park.crash(p).map(|()| Outcome::Crashed),
        Act::Deliver(pick) => park.deliver(pick).map(Outcome::Delivered),
    }
}
