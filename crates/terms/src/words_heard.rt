// The groups and the names heard, each by rising name of those who told them.
ghost use Rattle.std.specs.Prelude.{◌≡◌, ℕ, ◌≤◌, length};

use super::entries::Entries;
use super::rules::Heard;
use super::word::Side;

// As many names as groups, and at most 15 of each.
#[derive(Clone, Copy, Debug)]
pub struct WordsHeard {
    pub groups: Entries<Side>,
    pub names: Entries<u8>,
    ghost alike: { length names ≡ length groups },
    ghost few: { length groups ≤ 15 },
}

impl WordsHeard {
    pub fn as_heard(&self) -> Heard<'_>
        ensures groups { result.groups.now ≡ self.now.groups }
        ensures names { result.names.now ≡ self.now.names }
    {
        Heard {
            groups: self.groups.as_slice(),
            names: self.names.as_slice(),
        }
    }
}
