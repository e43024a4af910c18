// Rows and characters: the table of all 256 rows, the first three stages of reading, and the rows that are kept.
#![tactic(auto)]

ghost use Rattle.std.specs.Prelude.{◌≡◌, ◌+◌};
ghost use Rattle.rows.specs.Answer.{told};
ghost use Rattle.rows.specs.Row.{entry, even};
ghost use Rattle.rows.specs.Stages.{step, unclosed, judged};
ghost use Rattle.rows.specs.Walk.{inside, held_from, concluded, held_behind, Marked};
ghost use Rattle.rows.specs.Kept.{turn, kept_at, first_of};

mod refusals;
mod table;

pub use refusals::{Cause, Refusal};
use table::{FOREIGN, ODD, Table};

// Where the scan of control-outs stands: outside; inside the one that a row opened; inside one that a second row spoilt.
#[derive(Clone, Copy)]
pub enum Side {
    Outside,
    Inside(usize),
    Spoilt(usize, usize),
}

// What the walk holds of the rows behind it, none of which is odd: the lowest that is not one of the 50; or else the lowest fault of the control-outs; or else
// where their scan stands.
#[derive(Clone, Copy)]
enum Held {
    Foreign(usize),
    Fault(usize),
    Sides(Side),
}

// A row that may change what is held, with its entry.
#[derive(Clone, Copy)]
struct Mark {
    place: usize,
    entry: u8,
}

// What the walk over kept rows does at a row: keep it, or pass it by, the next row inside a control-out or not.
// Stays so: an Option of a bool would not say which of its cases keeps the row.
#[derive(Clone, Copy)]
pub enum Turn {
    Keep,
    Pass(bool),
}

// A kept row, and the place after it.
// A char and not a byte: the seven bytes behind a byte are copied with it in two moves that overlap, which took a quarter of the time
#[derive(Clone, Copy)]
pub struct Kept {
    pub character: char,
    pub place: usize,
    pub after: usize,
}

// The most rows that a tape may have.
pub const LIMIT: usize = 1000000;

// Whether a row has an even number of holes, by the count itself and not by the table.
pub fn has_even_holes(row: u8) -> bool
    ensures { result ≡ even row }
{
    u8::count_ones(row) % 2 == 0
}

// What the table holds of a row.
pub fn entry_of(row: u8) -> u8
    ensures { result ≡ entry row }
{
    Table::lay_out().entry(row)
}

// One row of the scan for control-outs: where it stands behind the row, or the place of a fault.
fn step_over(side: Side, i: usize, c: u8) -> Result<Side, usize>
    ensures { result ≡ step side i c }
{
    match side {
        Side::Outside => match c {
            b'(' => Ok(Side::Inside(i)),
            b')' => Err(i),
            _ => Ok(Side::Outside),
        },
        Side::Inside(o) => match c {
            b')' => Ok(Side::Outside),
            b':' | b'%' => Ok(Side::Spoilt(o, i)),
            _ => Ok(Side::Inside(o)),
        },
        Side::Spoilt(o, p) => match c {
            b')' => Err(p),
            _ => Ok(Side::Spoilt(o, p)),
        },
    }
}

// The row of a "(" that is still open.
fn left_open(side: Side) -> Option<usize>
    ensures { result ≡ unclosed side }
{
    match side {
        Side::Outside => None,
        Side::Inside(o) => Some(o),
        Side::Spoilt(o, _) => Some(o),
    }
}

// Whether every row counts: inside a control-out ":" and "%" do too, and there are few such rows.
fn is_inside(held: Held) -> bool
    ensures { result ≡ inside held }
{
    match held {
        Held::Foreign(_) => false,
        Held::Fault(_) => false,
        Held::Sides(side) => match side {
            Side::Outside => false,
            Side::Inside(_) => true,
            Side::Spoilt(_, _) => true,
        },
    }
}

// The next row from a place on that may change what is held, if there is one. Here, and nowhere else, the walk reads the tape: the entry goes on with the
// place, so that no row is fetched again.
fn find_mark(tape: &[u8], table: &Table, held: Held, at: usize) -> Option<Mark>
    ensures { Marked tape.now held at result }
{
    let every = is_inside(held);
    for i in at..tape.len() {
        let entry = table.entry(tape[i]);
        if every || ODD <= entry || entry == b'(' || entry == b')' {
            return Some(Mark { place: i, entry });
        }
    }
    None
}

// What is held behind a row that is not odd: 6 before 7, and of each the lowest row.
fn hold_mark(held: Held, i: usize, entry: u8) -> Held
    ensures { result ≡ held_behind held i entry }
{
    match held {
        Held::Foreign(_) => held,
        Held::Fault(_) => {
            if entry == FOREIGN {
                Held::Foreign(i)
            } else {
                held
            }
        }
        Held::Sides(side) => {
            if entry == FOREIGN {
                return Held::Foreign(i);
            }
            match step_over(side, i, entry) {
                Ok(m) => Held::Sides(m),
                Err(p) => Held::Fault(p),
            }
        }
    }
}

// The answer where no row is left.
fn conclude(held: Held) -> Result<(), Refusal>
    ensures { told result ≡ concluded held }
{
    match held {
        Held::Foreign(place) => Err(Cause::Character.at(place)),
        Held::Fault(place) => Err(Cause::ControlOut.at(place)),
        Held::Sides(side) => match left_open(side) {
            None => Ok(()),
            Some(place) => Err(Cause::ControlOut.at(place)),
        },
    }
}

// 5, 6 and 7 in one walk, which fetches each row once: the first odd row is the answer at once, all else is held to the end of the tape.
fn walk_rows(tape: &[u8], table: &Table) -> Result<(), Refusal>
    ensures { told result ≡ held_from (Held.Sides Side.Outside) 0 tape.now }
{
    let mut held = Held::Sides(Side::Outside);
    let mut next: usize = 0;
    while let Some(mark) = find_mark(tape, table, held, next) {
        let place = mark.place;
        if mark.entry == ODD {
            return Err(Cause::Parity.at(place));
        }
        held = hold_mark(held, place, mark.entry);
        next = place + 1;
    }
    conclude(held)
}

// Stages 1 to 3 of a whole tape, in the order of the refusal table.
pub fn check(tape: &[u8]) -> Result<(), Refusal>
    ensures { told result ≡ judged tape.now }
{
    if LIMIT < tape.len() {
        return Err(Cause::Length.at(LIMIT));
    }
    walk_rows(tape, &Table::lay_out())
}

fn turn_at(within: bool, c: u8) -> Turn
    ensures { result ≡ turn within c }
{
    if within {
        return Turn::Pass(c != b')');
    }
    match c {
        b'(' => Turn::Pass(true),
        0 | 127 => Turn::Pass(false),
        _ => Turn::Keep,
    }
}

// The next kept row from a place on that stands outside every control-out.
pub fn next_kept(tape: &[u8], at: usize) -> Option<Kept>
    ensures { result ≡ first_of (kept_at tape.now at) }
{
    let mut within = false;
    for place in at..tape.len() {
        let character = tape[place] % 128;
        match turn_at(within, character) {
            Turn::Keep => {
                return Some(Kept {
                    character: character as char,
                    place,
                    after: place + 1,
                });
            }
            Turn::Pass(inside) => within = inside,
        }
    }
    None
}
