// What goes through a channel.
use super::word::{Place, Word};

// PHASE tells a word; ECHO answers with the word that is kept.
#[derive(Clone, Copy, Debug, Default, PartialEq, Eq)]
pub enum Kind {
    #[default]
    Phase,
    Echo,
}

#[derive(Clone, Copy, Debug, Default, PartialEq, Eq)]
pub struct Message {
    pub kind: Kind,
    pub sender: u8,
    pub receiver: u8,
    pub place: Place,
    pub word: Word,
}

// What became of a fetched message: gone from the channel, or copied and still waiting in it.
#[derive(Clone, Copy, Debug, PartialEq, Eq)]
pub enum Mark {
    Gone,
    Copied,
}
