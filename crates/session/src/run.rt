// From a script to the lines of its output, piece by piece, in a space that does not grow with the script.
ghost use Rattle.std.specs.Prelude.{◌≡◌, ℕ, List, [], ◌∷◌, ◌++◌, IfOk, string_bytes, OnErr, OnOk};
ghost use Rattle.script.specs.Lines.{line_of};
ghost use Rattle.script.specs.Splitters.{Holds, Shows};
ghost use Rattle.session.specs.Scripts.{Adds, AddsLast, AddsLines, AnswersByte, AnswersLast, AnswersText, PiecesMakeTheWhole, TakesIn, Tells, TellsAll, TellsLast, TellsRest};

use super::session::Session;
use script::report::Report;
use script::split::Splitter;
use std::alloc::{AllocError, Global};
use std::io;
use std::io::{Read, Write};

// Answers a script whose bytes come one after another.
#[derive(Drop)]
pub struct Teller {
    pub heap: Global,
    pub session: Session,
    pub splitter: Splitter,
}

// Reads a script to its end and writes one line for each of its records.
pub fn run<R: Read, W: Write>(heap: Global, input: &mut R, output: &mut W) -> io::Result<()> {
    let mut teller = Teller {
        heap,
        session: Session::new(heap)?,
        splitter: Splitter::new(),
    };
    let mut bytes = vec![in heap; 0u8; 65536]?;
    let mut text = String::new(heap);
    // kept: a range too long to be gone through, since a loop with no end takes a handle that may wait, and no function here has one.
    for _ in 0..u64::MAX {
        let count = input.read(&mut bytes)?;
        if count == 0 {
            break;
        }
        teller.tell_all(&bytes[0..count], &mut text)?;
        output.write_all(text.as_bytes())?;
        text.clear();
    }
    teller.tell_rest(&mut text)?;
    output.write_all(text.as_bytes())?;
    output.flush()
}

impl Teller {
    // Takes these bytes in, and adds a line to the text for each record that ends with one of them.
    pub fn tell_all(&mut self, bytes: &[u8], text: &mut String) -> Result<(), AllocError>
        ensures fed { OnOk result (TakesIn self.old bytes.now self.new) }
        ensures told { OnOk result (AddsLines self.old bytes.now (string_bytes text.old) (string_bytes text.new) self.new) }
    {
        tell_all(
            self.heap,
            &mut self.session,
            &mut self.splitter,
            bytes,
            text,
        )
    }

    // At the end of a script, adds the line of a last record that no CR LF ended. What was told of its pieces and now is what is told of the script.
    // kept: that the splitter stays is a clause here and of `take_end`, since it also stays where memory runs out, of which `AddsLast` and `AnswersLast` say nothing.
    pub fn tell_rest(&mut self, text: &mut String) -> Result<(), AllocError>
        ensures told { OnOk result (AddsLast self.old (string_bytes text.old) (string_bytes text.new) self.new) }
        ensures whole { PiecesMakeTheWhole }
        ensures splitter { self.new.splitter ≡ self.old.splitter }
    {
        tell_rest(self.heap, &mut self.session, &self.splitter, text)
    }

    // Takes in the next byte of a script, and answers the record that ends with it, if one does.
    pub fn take_byte(&mut self, byte: u8) -> Result<Option<Report>, AllocError>
        ensures fed { TakesIn self.old (byte ∷ []) self.new }
        ensures told { IfOk result (λ told. AnswersByte self.old byte told self.new) }
        ensures failed { OnErr result (self.new.session ≡ self.old.session) }
    {
        take_byte(self.heap, &mut self.session, &mut self.splitter, byte)
    }

    // At the end of a script, answers a last record that no CR LF ended.
    pub fn take_end(&mut self) -> Result<Option<Report>, AllocError>
        ensures told { IfOk result (λ told. AnswersLast self.old told self.new) }
        ensures failed { OnErr result (self.new.session ≡ self.old.session) }
        ensures splitter { self.new.splitter ≡ self.old.splitter }
    {
        take_end(self.heap, &mut self.session, &self.splitter)
    }
}

// Takes these bytes in, and adds a line to the text for each record that ends with one of them.
pub fn tell_all(
    heap: Global,
    session: &mut Session,
    splitter: &mut Splitter,
    bytes: &[u8],
    text: &mut String,
) -> Result<(), AllocError>
    ensures fed { (past : List ℕ) → Holds splitter.old past → OnOk result (Holds splitter.new (past ++ bytes.now)) }
    ensures told { (past : List ℕ) → Holds splitter.old past → OnOk result (Adds (string_bytes text.old) (string_bytes text.new) (λ lines. TellsAll past bytes.now session.old lines session.new)) }
{
    for byte in bytes {
        tell_byte(heap, session, splitter, *byte, text)?;
    }
    Ok(())
}

// Takes the next byte in, and adds a line to the text if a record ends with it.
fn tell_byte(
    heap: Global,
    session: &mut Session,
    splitter: &mut Splitter,
    byte: u8,
    text: &mut String,
) -> Result<(), AllocError>
    ensures fed { (past : List ℕ) → Holds splitter.old past → Holds splitter.new (past ++ byte ∷ []) }
    ensures told { (past : List ℕ) → Holds splitter.old past → OnOk result (Adds (string_bytes text.old) (string_bytes text.new) (λ lines. TellsAll past (byte ∷ []) session.old lines session.new)) }
{
    match take_byte(heap, session, splitter, byte)? {
        Some(report) => add_line(text, report),
        None => Ok(()),
    }
}

// At the end of a script, adds the line of a last record that no CR LF ended. What was told of its pieces and now is what is told of the script.
pub fn tell_rest(
    heap: Global,
    session: &mut Session,
    splitter: &Splitter,
    text: &mut String,
) -> Result<(), AllocError>
    ensures told { (past : List ℕ) → Holds splitter.now past → OnOk result (Adds (string_bytes text.old) (string_bytes text.new) (λ lines. TellsRest past session.old lines session.new)) }
    ensures whole { PiecesMakeTheWhole }
{
    tell_last(heap, session, splitter, text)
}

fn tell_last(
    heap: Global,
    session: &mut Session,
    splitter: &Splitter,
    text: &mut String,
) -> Result<(), AllocError>
    ensures { (past : List ℕ) → Holds splitter.now past → OnOk result (Adds (string_bytes text.old) (string_bytes text.new) (λ lines. TellsRest past session.old lines session.new)) }
{
    match take_end(heap, session, splitter)? {
        Some(report) => add_line(text, report),
        None => Ok(()),
    }
}

// Adds the line of a report.
fn add_line(text: &mut String, report: Report) -> Result<(), AllocError>
    ensures { OnOk result (string_bytes text.new ≡ string_bytes text.old ++ line_of report) }
{
    write!(text, "{report}")
}

// Takes in the next byte of a script, and answers the record that ends with it, if one does.
pub fn take_byte(
    heap: Global,
    session: &mut Session,
    splitter: &mut Splitter,
    byte: u8,
) -> Result<Option<Report>, AllocError>
    ensures fed { (past : List ℕ) → Holds splitter.old past → Holds splitter.new (past ++ byte ∷ []) }
    ensures told { (past : List ℕ) → Holds splitter.old past → IfOk result (λ told. Tells past byte session.old told session.new) }
    ensures failed { OnErr result (session.new ≡ session.old) }
{
    if splitter.feed(byte) {
        Ok(Some(answer_ended(heap, session, splitter)?))
    } else {
        Ok(None)
    }
}

// At the end of a script, answers a last record that no CR LF ended.
pub fn take_end(
    heap: Global,
    session: &mut Session,
    splitter: &Splitter,
) -> Result<Option<Report>, AllocError>
    ensures told { (past : List ℕ) → Holds splitter.now past → IfOk result (λ told. TellsLast past session.old told session.new) }
    ensures failed { OnErr result (session.new ≡ session.old) }
{
    if splitter.finish() {
        Ok(Some(answer_ended(heap, session, splitter)?))
    } else {
        Ok(None)
    }
}

// Answers the record that has just ended.
fn answer_ended(
    heap: Global,
    session: &mut Session,
    splitter: &Splitter,
) -> Result<Report, AllocError>
    ensures told { (text : List ℕ) → Shows splitter.now text → IfOk result (λ report. AnswersText session.old text report session.new) }
    ensures failed { OnErr result (session.new ≡ session.old) }
{
    let record = splitter.read(session.is_open());
    session.answer(heap, record)
}
