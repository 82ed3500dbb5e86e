// Sending PHASE to all other controllers.
ghost use Rattle.std.specs.Prelude.{◌≡◌, ℕ, ◌+◌, ◌<◌, ◌≤◌, length};
ghost use Rattle.channel.specs.Sends.{SentAll};
ghost use Rattle.park.specs.Asks.{phases};

use super::names::Name;
use channel::channel::Channel;
use terms::message::{Kind, Message};
use terms::word::{Place, Word};

// Sends PHASE to every controller but the sender, in rising order of name.
pub(crate) fn send_to_others<C: Channel>(channel: &mut C, n: u8, p: Name, place: Place, word: Word)
    requires name { p.number ≤ n }
    requires free { n + length (C.Channel.bag channel.old) ≤ C.Channel.places channel.old + 1 }
    ensures { SentAll C.Channel.sends channel.old (phases n p.number place word) channel.new }
{
    for q in 1..=n {
        if q != p.number {
            let m = Message {
                kind: Kind::Phase,
                sender: p.number,
                receiver: q,
                place,
                word,
            };
            channel.send(m).unwrap();
        }
    }
}
