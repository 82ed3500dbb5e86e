// What became of a record, and the line that tells it.
ghost use Rattle.std.specs.Prelude.{◌≡◌, Some};
ghost use Rattle.script.specs.Lines.{kind_of_act, act_letter, first_column, second_column, third_column, fourth_column, line_of};

use std::fmt;
use terms::act::Act;
use terms::answer::Answer;
use terms::refusal::Refusal;

// What was asked for: an opening, or one of the acts.
#[derive(Clone, Copy, Debug, PartialEq, Eq)]
pub enum Kind {
    Open,
    Call,
    Step,
    Crash,
    Deliver,
}

// kept: no `Result`, since its line is written by `Display`, which only a type of this crate can have, and both outcomes have the same four columns.
#[derive(Clone, Copy, Debug, PartialEq, Eq)]
pub enum Report {
    // The bytes are no record.
    NoRecord,
    Refused(Kind, Refusal),
    Opened,
    // A controller did something; its answer, if it has one by now.
    Acted {
        kind: Kind,
        name: u32,
        answer: Option<Answer>,
    },
}

impl From<Act> for Kind {
    ghost from_gives = { λ act r. r ≡ kind_of_act act };

    fn from(act: Act) -> Kind {
        match act {
            Act::Call(_) => Kind::Call,
            Act::Step(_) => Kind::Step,
            Act::Crash(_) => Kind::Crash,
            Act::Deliver(_) => Kind::Deliver,
        }
    }
}

impl From<Kind> for char {
    ghost from_gives = { λ kind r. r ≡ act_letter kind };

    fn from(kind: Kind) -> char {
        match kind {
            Kind::Open => 'O',
            Kind::Call => 'C',
            Kind::Step => 'S',
            Kind::Crash => 'X',
            Kind::Deliver => 'D',
        }
    }
}

impl Report {
    // The four columns: a letter, the refusal's number, the controller acted on and its answer.
    fn columns(&self) -> (char, u8, u32, char)
        ensures { result ≡ (first_column self.now, second_column self.now, third_column self.now, fourth_column self.now) }
    {
        match *self {
            Report::NoRecord | Report::Refused(_, Refusal::Line) => {
                ('?', u8::from(Refusal::Line), 0, '-')
            }
            Report::Refused(kind, why) => (char::from(kind), u8::from(why), 0, '-'),
            Report::Opened => ('O', 0, 0, '-'),
            Report::Acted { kind, name: 0, .. } => (char::from(kind), 0, 0, '-'),
            Report::Acted { kind, name, answer } => {
                let told = answer.map_or('-', char::from);
                (char::from(kind), 0, name, told)
            }
        }
    }
}

impl fmt::Display for Report {
    ghost output = { λ x. Some (line_of x) };

    fn fmt<W: fmt::Write>(&self, f: &mut fmt::Formatter<W>) -> fmt::Result {
        let (letter, number, name, answer) = self.columns();
        write!(f, "{letter},{number},{name},{answer}\r\n")
    }
}
