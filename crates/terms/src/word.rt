// What controllers tell each other, and the cells that hold it.
ghost use Rattle.std.specs.Prelude.{◌≡◌, cond};

// One of the two groups between which a selector picks; Zero is the smaller.
#[derive(Clone, Copy, Debug, PartialEq, Eq, PartialOrd, Ord)]
pub enum Side {
    Zero,
    One,
}

impl From<bool> for Side {
    ghost use Rattle.terms.specs.declared.word.Side.TheVariants.{Zero, One};

    ghost from_gives = { λ one side. side ≡ cond one One Zero };

    fn from(one: bool) -> Side {
        if one { Side::One } else { Side::Zero }
    }
}

// A group with a name; either is blank where it is None.
#[derive(Clone, Copy, Debug, Default, PartialEq, Eq)]
pub struct Word {
    pub group: Option<Side>,
    pub name: Option<u8>,
}

// Where a controller is on its way: selector 1 to 16, round 1 to 16, phase 1 to 2.
#[derive(Clone, Copy, PartialEq, Eq, Debug, Default)]
pub struct Place {
    pub selector: u8,
    pub round: u8,
    pub phase: u8,
}

// One cell of a page. A word of two blanks is not empty.
// kept: not an Option of a Word, since the rules call a cell empty or holding a word, and every definition over pages matches on these two words; `Some` and `None` would say no more.
#[derive(Clone, Copy, Debug, Default, PartialEq, Eq)]
pub enum Cell {
    #[default]
    Empty,
    Holds(Word),
}
