// The cells of all controllers: one controller's pages are lent as a part of the table.
// kept: controller p and the place at are two parameters in all functions that take both: a struct of them would only be taken apart again, since p picks the pages and at the cell on each page, and one of them often goes on alone.
ghost use Rattle.std.specs.Prelude.{◌≡◌, ℕ, ◌+◌, ◌*◌, ◌<◌, ◌≤◌, ◌++◌, length, drop, replicate, vec_len, slice_index_or, slice_set};
ghost use Rattle.terms.specs.declared.word.Cell.TheVariants.{Empty, Holds};
ghost use Rattle.park.specs.Cells.{first_word, kept_word, keeping, saying};
ghost use Rattle.park.specs.States.{StaysInPlace};

use super::names::Name;
use super::within::PlaceWithin;
use terms::word::{Cell, Word};

// Controller p says a word at a place: it comes to its kept cell, and stands in its said cell. Gives the word that is kept.
pub(crate) fn say(cells: &mut Vec<Cell>, p: Name, at: PlaceWithin, word: Word) -> Word
    requires name { 1024 * p.number ≤ vec_len cells.old }
    ensures items { cells.new.items ≡ saying cells.old.items p.number at.place word }
    ensures place { StaysInPlace cells.old cells.new }
    ensures kept { result ≡ kept_word cells.old.items p.number at.place word }
{
    let from = p.index() * 1024;
    write_both(&mut cells[from..from + 1024], at.index(), word)
}

// kept: beside say, and lends the pages by itself: a function that handed out the lent part would need a clause on the whole table as long as these.
// A word comes to the kept cell of controller p at a place. Gives the word that is kept.
pub(crate) fn keep(cells: &mut Vec<Cell>, p: Name, at: PlaceWithin, word: Word) -> Word
    requires name { 1024 * p.number ≤ vec_len cells.old }
    ensures items { cells.new.items ≡ keeping cells.old.items p.number at.place word }
    ensures place { StaysInPlace cells.old cells.new }
    ensures kept { result ≡ kept_word cells.old.items p.number at.place word }
{
    let from = p.index() * 1024;
    write_kept(&mut cells[from..from + 1024], at.index(), word)
}

// The two pages of one controller.
fn write_both(pages: &mut [Cell], i: usize, word: Word) -> Word
    requires { (i < 512) × (length pages.old ≡ 1024) }
    ensures cells { pages.new ≡ slice_set (slice_set pages.old i (Holds (first_word (slice_index_or pages.old i Empty) word))) (512 + i) (Holds word) }
    ensures kept { result ≡ first_word (slice_index_or pages.old i Empty) word }
{
    let kept = write_kept(pages, i, word);
    pages[512 + i] = Cell::Holds(word);
    kept
}

fn write_kept(pages: &mut [Cell], i: usize, word: Word) -> Word
    requires { i < length pages.old }
    ensures cells { pages.new ≡ slice_set pages.old i (Holds (first_word (slice_index_or pages.old i Empty) word)) }
    ensures kept { result ≡ first_word (slice_index_or pages.old i Empty) word }
{
    let kept = first_of(pages[i], word);
    pages[i] = Cell::Holds(kept);
    kept
}

fn first_of(cell: Cell, word: Word) -> Word
    ensures { result ≡ first_word cell word }
{
    match cell {
        Cell::Empty => word,
        Cell::Holds(first) => first,
    }
}

// Empties the first cells, and no other.
pub(crate) fn empty_first(cells: &mut Vec<Cell>, all: usize)
    requires { all ≤ vec_len cells.old }
    ensures items { cells.new.items ≡ replicate all Empty ++ drop all cells.old.items }
    ensures place { StaysInPlace cells.old cells.new }
{
    cells[0..all].fill(Cell::Empty);
}
