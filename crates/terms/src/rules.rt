// What a controller does after each phase, from what it heard.
ghost use Rattle.std.specs.Prelude.{◌≡◌};
ghost use Rattle.terms.specs.Rules.{second_word, verdict_of, next_of};

use super::answer::Answer;
use super::reading::{all_alike, reading, smallest};
use super::word::{Side, Word};

// What the four rules after phase 2 come to: a selector's result, a pair of yes or no, or going on to the next round with a group.
#[derive(Clone, Copy, Debug, PartialEq, Eq)]
pub enum Verdict {
    Pair((bool, bool)),
    GoOn(Side),
}

// What follows: the answer, the next round with a group, or the next selector.
#[derive(Clone, Copy, Debug, PartialEq, Eq)]
pub enum Next {
    Answer(Answer),
    Round(Side),
    Selector,
}

// What was heard in a phase: the groups and the names, blanks among them.
#[derive(Clone, Copy, Debug)]
pub struct Heard<'a> {
    pub groups: &'a [Option<Side>],
    pub names: &'a [Option<u8>],
}

impl Heard<'_> {
    // After phase 1: the word with which phase 2 is opened.
    #[tactic(auto, using(crate::proofs::Read::read_sides))]
    pub fn word_of_phase_2(self) -> Word
        ensures { result ≡ second_word self.entry.groups.now self.entry.names.now }
    {
        Word {
            group: reading(self.groups),
            name: reading(self.names),
        }
    }

    // After phase 2: the first of the four rules that fits.
    #[tactic(auto, using(crate::proofs::Read::read_sides, crate::proofs::Read::smallest_side, crate::proofs::Read::smallest_number))]
    pub fn verdict_of_phase_2(self, me: u8, own: Side, round: u8, coin: Side) -> Verdict
        ensures { result ≡ verdict_of me own round coin self.entry.groups.now self.entry.names.now }
    {
        if let Some(name) = smallest(self.names) {
            return verdict_by_name(me, own, name, self.names);
        }
        if let Some(group) = reading(self.groups) {
            return Verdict::Pair((group == own, false));
        }
        Verdict::GoOn(smallest(self.groups).unwrap_or(if round == 1 { own } else { coin }))
    }
}

// The first rule, where this is the smallest name heard.
fn verdict_by_name(me: u8, own: Side, name: u8, names: &[Option<u8>]) -> Verdict
    ensures { result ≡ Rattle.terms.specs.Rules.by_name me own names.now name }
{
    if name != me {
        return Verdict::Pair((false, false));
    }
    if all_alike(Some(me), names) {
        Verdict::Pair((true, true))
    } else {
        Verdict::GoOn(own)
    }
}

// Test&Set: takes a selector's result apart and turns it into an answer or the next selector. Only at the limits, selector 16 and round 16, is the answer undecided.
pub fn test_and_set(selector: u8, round: u8, verdict: Verdict) -> Next
    ensures { result ≡ next_of selector round verdict }
{
    match verdict {
        Verdict::Pair((true, true)) => Next::Answer(Answer::Yes),
        Verdict::Pair((false, _)) => Next::Answer(Answer::No),
        Verdict::Pair((true, false)) => if selector < 16 {
            Next::Selector
        } else {
            Next::Answer(Answer::Undecided)
        },
        Verdict::GoOn(group) => if round < 16 {
            Next::Round(group)
        } else {
            Next::Answer(Answer::Undecided)
        },
    }
}
