// What a record asks of an open park, and the report of it.
ghost use Rattle.std.specs.Prelude.{◌≡◌};
ghost use Rattle.park.specs.Sound.{StaysSound};
ghost use Rattle.session.specs.Reports.{Reports, acted_on};

use channel::channel::Channel;
use coins::Coins;
use park::park::Park;
use promise::act::Outcome;
use promise::perform::perform;
use script::report::{Kind, Report};
use terms::act::Act;

// Performs one act and reports it: the controller acted on with its answer after the act, or the refusal.
pub fn act_on<C: Channel, K: Coins>(park: &mut Park<C, K>, act: Act) -> Report
    ensures reports { Reports C.Channel K.Coins park.old act result park.new }
    ensures sound { StaysSound park.old park.new }
{
    match perform(park, act) {
        Err(refusal) => Report::Refused(Kind::from(act), refusal),
        Ok(outcome) => {
            let name = name_of(act, outcome);
            Report::Acted {
                kind: Kind::from(act),
                name,
                answer: park.answer(name),
            }
        }
    }
}

// The controller that an act names, and the receiver of a delivery.
fn name_of(act: Act, outcome: Outcome) -> u32
    ensures { result ≡ acted_on act outcome }
{
    match (act, outcome) {
        (Act::Call(p) | Act::Step(p) | Act::Crash(p), _) => p,
        (Act::Deliver(_), Outcome::Delivered(receiver)) => u32::from(receiver),
        // kept: a delivery has no other outcome; the line writes 0 for nobody, and `acted_on` is defined with it.
        (Act::Deliver(_), _) => 0,
    }
}
