// The words of the story.
// kept: they are for types of other crates, where alone a Display of them can stand, and the story has words of its own.
use permit::desk::PermitStage;
use promise::act::Act;
use terms::answer::Answer;
use terms::refusal::Refusal;
use terms::word::Side;

pub fn station(p: u32) -> &'static str {
    match p {
        1 => "North",
        2 => "West",
        3 => "South",
        _ => "nobody",
    }
}

pub fn answer_word(answer: Answer) -> &'static str {
    match answer {
        Answer::Yes => "yes",
        Answer::No => "no",
        Answer::Undecided => "undecided",
    }
}

// kept: host_calls has the same words for a group, but the two programs share no crate that has words.
pub fn group_word(group: Option<Side>) -> &'static str {
    match group {
        Some(Side::Zero) => "group 0",
        Some(Side::One) => "group 1",
        None => "no group",
    }
}

pub fn name_word(name: Option<u8>) -> &'static str {
    match name {
        Some(1) => "the name North",
        Some(2) => "the name West",
        Some(3) => "the name South",
        _ => "no name",
    }
}

// Why a station collects nothing.
pub fn refusal_word(refusal: Refusal) -> &'static str {
    match refusal {
        Refusal::Down => "it is down",
        Refusal::NoAnswer => "it has no answer yet",
        Refusal::Taken => "the permit was given before",
        _ => "the park refuses it",
    }
}

pub fn stage_word(stage: PermitStage) -> &'static str {
    match stage {
        PermitStage::NotGiven => "at rest",
        PermitStage::Held => "not yet loaded",
        PermitStage::Loaded => "loaded",
        PermitStage::Dispatched => "dispatched",
        PermitStage::HandedBack => "handed back",
    }
}

// The name or the pick that an act has.
pub fn number_in(act: Act) -> u32 {
    match act {
        Act::Call(number) | Act::Step(number) | Act::Crash(number) | Act::Deliver(number) => number,
    }
}
