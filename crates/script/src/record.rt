// One record of the script: a letter and its numbers.
ghost use Rattle.std.specs.Prelude.{◌≡◌, ◌-◌, ◌^◌, ◌<◌, cond, false, [], ◌∷◌, length, Some, None, MatchOption};
ghost use Rattle.std.specs.Char.{digit_value, is_ascii_digit};
ghost use Rattle.std.specs.Str.{all_ascii_digits};
ghost use Rattle.std.specs.Str.Parse.{digits_value};
ghost use Rattle.script.specs.Examples.{RecordsHold};
ghost use Rattle.script.specs.Records.{record_of, of_fields, acting, fields, number};

use terms::act::Act;

#[derive(Clone, Copy, Debug, PartialEq, Eq)]
pub enum Record {
    Open { n: u32, places: u32, seed: u64 },
    Act(Act),
}

// The longest record, in bytes.
pub(crate) const LONGEST: usize = 80;

// The most digits that a number may have.
const DIGITS: usize = 20;

// The value of a decimal digit.
fn read_digit(byte: u8) -> Option<u64>
    ensures { result ≡ cond (is_ascii_digit byte) (Some (digit_value byte)) None }
{
    match byte {
        b'0'..=b'9' => Some(u64::from(byte - b'0')),
        _ => None,
    }
}

// The number that digits write, of which there are fewer than 20.
fn read_digits(digits: &[u8]) -> Option<u64>
    requires { length digits.now < 20 }
    ensures { result ≡ cond (all_ascii_digits digits.now) (Some (digits_value 10 digits.now)) None }
{
    let mut value = 0;
    for byte in digits {
        value = value * 10 + read_digit(*byte)?;
    }
    Some(value)
}

// The number that a field writes, if it is one of at most so much.
#[tactic(auto, using(crate::proofs::Fields::number_push, crate::proofs::Fields::number_over))]
fn read_number(field: &[u8], most: u64) -> Option<u64>
    ensures { result ≡ number most field.now }
{
    if field.len() > DIGITS {
        return None;
    }
    let (last, front) = field.split_last()?;
    let tens = read_digits(front)?.checked_mul(10)?;
    let value = tens.checked_add(read_digit(*last)?)?;
    (value <= most).then_some(value)
}

// The same of a number of at most 32 bits.
fn read_short(field: &[u8], most: u32) -> Option<u32>
    ensures { result ≡ number most field.now }
{
    u32::try_from(read_number(field, u64::from(most))?).ok()
}

// The field in front of the first comma, and the bytes behind that comma.
fn split_at_comma(bytes: &[u8]) -> Option<(&[u8], &[u8])>
    ensures { MatchOption result (fields bytes.now ≡ bytes.now ∷ []) (λ cut. fields bytes.now ≡ cut.0.now ∷ fields cut.1.now) }
{
    let comma = bytes.iter().position(|byte| *byte == b',')?;
    Some((&bytes[..comma], &bytes[comma + 1..]))
}

// A call, a step, a crash or a delivery, with its one number.
fn read_act(letter: char, field: &[u8]) -> Option<Record>
    ensures { result ≡ acting (letter ∷ []) (number (2 ^ 32 - 1) field.now) }
{
    match letter {
        'C' => Some(Record::Act(Act::Call(read_short(field, u32::MAX)?))),
        'S' => Some(Record::Act(Act::Step(read_short(field, u32::MAX)?))),
        'X' => Some(Record::Act(Act::Crash(read_short(field, u32::MAX)?))),
        'D' => Some(Record::Act(Act::Deliver(read_short(field, u32::MAX)?))),
        _ => None,
    }
}

// An opening, with its three numbers.
#[tactic(auto, using(crate::proofs::Fields::opening_is))]
fn read_opening(numbers: &[u8]) -> Option<Record>
    ensures { result ≡ of_fields false ((79 ∷ []) ∷ fields numbers.now) }
{
    let (n, behind) = split_at_comma(numbers)?;
    let (places, seed) = split_at_comma(behind)?;
    Some(Record::Open {
        n: read_short(n, u32::MAX)?,
        places: read_short(places, 1024)?,
        seed: read_number(seed, u64::MAX)?,
    })
}

// The record of a letter and of what stands behind its comma; an opening comes once, and everything else behind it.
#[tactic(auto, using(crate::proofs::Fields::act_is))]
fn read_behind(letter: char, numbers: &[u8], opened: bool) -> Option<Record>
    ensures { result ≡ of_fields opened ((letter ∷ []) ∷ fields numbers.now) }
{
    match (letter, opened) {
        ('O', false) => read_opening(numbers),
        (_, true) => read_act(letter, numbers),
        _ => None,
    }
}

// The record of any number of bytes; without a letter and a comma in front there is none.
#[tactic(auto, using(crate::proofs::Fields::behind_comma, crate::proofs::Fields::no_comma))]
fn read_fields(bytes: &[u8], opened: bool) -> Option<Record>
    ensures { result ≡ of_fields opened (fields bytes.now) }
{
    match bytes {
        [letter, b',', numbers @ ..] => read_behind(char::from(*letter), numbers, opened),
        _ => None,
    }
}

// Which record the bytes are, if they are one.
pub fn read_record(bytes: &[u8], opened: bool) -> Option<Record>
    ensures value { result ≡ record_of opened bytes.now }
    ensures examples { RecordsHold }
{
    if bytes.len() > LONGEST {
        None
    } else {
        read_fields(bytes, opened)
    }
}
