// The majority, the heard set as a 16-bit number with bit p - 1 for controller p, and the words heard from it.
// kept: the set as a plain 16-bit number, as the project wants it, with functions and no type of its own.
ghost use Rattle.std.specs.Prelude.{◌≡◌, min, count_ones, nat_le};
ghost use Rattle.terms.specs.Heard.{majority_of, heard_from, alone, with_heard, heard_groups, heard_names};

use super::entries::Entries;
use super::word::Word;
use super::words_heard::WordsHeard;

// How many of n controllers are a majority.
pub fn majority(n: u8) -> u8
    ensures { result ≡ majority_of n }
{
    n / 2 + 1
}

// The set of one controller; a name beyond 16 has no bit.
pub fn heard_alone(p: u8) -> u16
    ensures { result ≡ alone p }
{
    let bit = p.saturating_sub(1);
    1u16.checked_shl(u32::from(bit)).unwrap_or(0)
}

pub fn has_heard(set: u16, p: u8) -> bool
    ensures { result ≡ heard_from set p }
{
    let bit = p.saturating_sub(1);
    bit < 16 && (set >> bit) % 2 == 1
}

pub fn heard_also(set: u16, p: u8) -> u16
    ensures { result ≡ with_heard set p }
{
    set | heard_alone(p)
}

// Whether the set has as many controllers as a majority.
pub fn is_majority(set: u16, majority: u8) -> bool
    ensures { result ≡ nat_le majority (count_ones set) }
{
    set.count_ones() >= majority as u32
}

// The words heard from the first n controllers, by rising name: word i is of controller i + 1.
pub fn collect_heard(n: u8, set: u16, words: &[Word; 15]) -> WordsHeard
    ensures groups { result.groups ≡ heard_groups (min n 15) set words.now }
    ensures names { result.names ≡ heard_names (min n 15) set words.now }
{
    let mut groups = Entries::new();
    let mut names = Entries::new();
    let end = n.min(15);
    for (i, word) in words[..end as usize].iter().enumerate() {
        if (set >> i) % 2 == 1 {
            groups.push(word.group);
            names.push(word.name);
        }
    }
    WordsHeard { groups, names }
}
