// The words of the lines, and the messages of the calls.
use std::alloc::AllocError;
use std::fmt;
use terms::message::{Kind, Mark, Message};
use terms::word::{Cell, Place, Side, Word};

// Memory for so many messages.
pub(crate) fn places(rt: &HostRuntime, count: usize) -> Result<Vec<Message>, AllocError> {
    vec![in rt.alloc(); Message::default(); count]
}

// The word that fills the cells before a park is opened.
pub const FILLING: Word = Word {
    group: Some(Side::One),
    name: Some(9),
};

pub fn is_filling(cell: &Cell) -> bool {
    *cell == Cell::Holds(FILLING)
}

// A message with group 0, of its sender and receiver, its selector, round and phase, and the name in its word.
pub fn message(kind: Kind, fields: [u8; 6]) -> Message {
    let [sender, receiver, selector, round, phase, name] = fields;
    let place = Place {
        selector,
        round,
        phase,
    };
    let word = Word {
        group: Some(Side::Zero),
        name: Some(name),
    };
    Message {
        kind,
        sender,
        receiver,
        place,
        word,
    }
}

// kept: a Display of Kind, Side or Mark would stand in terms, and these words for them are this program's.
fn kind_word(kind: Kind) -> &'static str {
    match kind {
        Kind::Phase => "PHASE",
        Kind::Echo => "ECHO",
    }
}

fn group_word(group: Option<Side>) -> &'static str {
    match group {
        Some(Side::Zero) => "group 0",
        Some(Side::One) => "group 1",
        None => "no group",
    }
}

pub fn mark_word(mark: Mark) -> &'static str {
    match mark {
        Mark::Gone => "gone",
        Mark::Copied => "copied",
    }
}

// A message as a line shows it.
#[derive(Clone, Copy)]
pub(crate) struct Shown(pub(crate) Message);

impl fmt::Display for Shown {
    fn fmt<W: fmt::Write>(&self, f: &mut fmt::Formatter<W>) -> fmt::Result {
        let Message {
            kind,
            sender,
            receiver,
            place,
            word,
        } = self.0;
        let Place {
            selector,
            round,
            phase,
        } = place;
        let kind = kind_word(kind);
        let group = group_word(word.group);
        write!(
            f,
            "{kind} from {sender} to {receiver} in {selector} {round} {phase}, {group}, "
        )?;
        match word.name {
            Some(name) => write!(f, "name {name}"),
            None => f.write_str("no name"),
        }
    }
}
