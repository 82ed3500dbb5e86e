// Splitting the script into records as its bytes come, in a fixed space.
ghost use Rattle.std.specs.Prelude.{◌≡◌, ℕ, true, false, ◌&&◌, List, [], length, MatchOption, ◌==◌, nat_le};
ghost use Rattle.script.specs.Examples.{ScriptsHold};
ghost use Rattle.script.specs.Records.{record_of};
ghost use Rattle.script.specs.Splits.{unended};
ghost use Rattle.script.specs.Splitters.{Shows, Keeps, Holds, Fed, Feeds, Finishes, is_cr, last_byte, last_of};

use super::record::{LONGEST, Record, read_record};

const CR: u8 = 13;

const LF: u8 = 10;

// What came last.
#[derive(Clone, Copy, Debug, PartialEq, Eq)]
enum Last {
    // The end of a record, or nothing at all.
    RecordEnd,
    Cr,
    Other,
}

impl From<u8> for Last {
    ghost from_gives = { λ byte r. r ≡ last_byte byte };

    fn from(byte: u8) -> Last {
        if byte == CR { Last::Cr } else { Last::Other }
    }
}

// What has come since the last record ended, or the record that just ended.
// kept: what it has been fed is no ghost field and no model, since both are made of the other fields, and those let go of the bytes of ended records.
// kept: an array with a length, since a `Vec` may fail, and in an `ArrayVec` the length is the buffer's, while here the bytes past the 80th are counted and not kept.
#[derive(Debug, Drop)]
pub struct Splitter {
    // The first bytes.
    bytes: [u8; LONGEST],
    // How many bytes there are; a CR may come last, so 82 stands for more than 81.
    len: usize,
    last: Last,
}

impl Splitter {
    pub fn new() -> Splitter
        ensures fed { Holds result [] }
        ensures shows { Shows result [] }
    {
        Splitter {
            bytes: [0; LONGEST],
            len: 0,
            last: Last::RecordEnd,
        }
    }

    // Whether a record ends with this byte: it is an LF behind a CR.
    fn ends(&self, byte: u8) -> bool
        ensures { result ≡ (is_cr self.now.last && byte == 10) }
    {
        self.last == Last::Cr && byte == LF
    }

    // The record has ended, and its CR is none of its bytes.
    fn end(&mut self, byte: u8)
        ensures { (past : List ℕ) → Holds self.old past → (is_cr self.old.last && byte == 10) ≡ true → Fed past byte true self.new }
    {
        self.len = self.len.saturating_sub(1);
        self.last = Last::RecordEnd;
    }

    // Lets go of a record that has ended.
    fn begin(&mut self)
        ensures keeps { (past : List ℕ) → Holds self.old past → Keeps self.new (unended past) }
        ensures last { self.new.last ≡ self.old.last }
    {
        if self.last == Last::RecordEnd {
            self.len = 0;
        }
    }

    // One byte more of the record.
    fn put(&mut self, byte: u8)
        ensures { (past : List ℕ) → Keeps self.old (unended past) → self.old.last ≡ last_of (unended past) → (is_cr self.old.last && byte == 10) ≡ false → Fed past byte false self.new }
    {
        if self.len < LONGEST {
            self.bytes[self.len] = byte;
        }
        self.len = self.len.min(LONGEST + 1) + 1;
        self.last = Last::from(byte);
    }

    // Takes in the next byte, and says whether a record has ended with it; that one can then be read.
    // kept: a bool, and `read` for the record, since which record it is depends on whether a park is open, and that is not known here.
    pub fn feed(&mut self, byte: u8) -> bool
        ensures { Feeds self.old byte result self.new }
    {
        if self.ends(byte) {
            self.end(byte);
            true
        } else {
            self.begin();
            self.put(byte);
            false
        }
    }

    // Says at the end of the script whether a record has ended with it; that one can then be read.
    pub fn finish(&self) -> bool
        ensures told { Finishes self.now result }
        ensures examples { ScriptsHold }
    {
        self.last != Last::RecordEnd // bytes that no CR LF ended are a record too
    }

    // The bytes of the record that has just ended, if they are not too many.
    fn record(&self) -> Option<&[u8]>
        ensures { (text : List ℕ) → Shows self.now text → MatchOption result (nat_le (length text) 80 ≡ false) (λ x. x.now ≡ text) }
    {
        self.bytes.get(..self.len)
    }

    // Which record has just ended, if its bytes are one.
    pub fn read(&self, opened: bool) -> Option<Record>
        ensures { (text : List ℕ) → Shows self.now text → result ≡ record_of opened text }
    {
        read_record(self.record()?, opened)
    }
}
