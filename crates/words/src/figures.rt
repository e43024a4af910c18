// The digits of a number, from a fetched row on.
ghost use Rattle.std.specs.Prelude.{◌≡◌, ◌+◌, ◌-◌, ◌*◌, ◌≤◌, ◌<◌, length, []};
ghost use Rattle.rows.specs.Answer.{told_by, refusal};
ghost use Rattle.rows.specs.Refusals.{numbered};
ghost use Rattle.rows.specs.Kept.{kept_at};
ghost use Rattle.shorthand.specs.Layout.{fewest};
ghost use Rattle.words.specs.Figures.{wrong_by, cut_by, wrong, run, restored, figures};
ghost use Rattle.words.specs.Front.{rows_at, digit_front, run_told, read_told};

use crate::{Digits, Read, Stretch, Wanted};
use rows::{Cause, Kept, Refusal};
use shorthand::Missing;

impl Wanted {
    // What another row there is refused for.
    pub fn wrong(self) -> Cause
        ensures { numbered result ≡ wrong_by self }
    {
        match self {
            Wanted::Head => Cause::Head,
            Wanted::Start => Cause::Start,
            Wanted::End => Cause::Misplaced,
            Wanted::Digits => Cause::Figures,
        }
    }

    // What the end of the tape there is refused for.
    fn cut(self) -> Cause
        ensures { numbered result ≡ cut_by self }
    {
        match self {
            Wanted::Head => Cause::Head,
            Wanted::Start | Wanted::End | Wanted::Digits => Cause::CutShort,
        }
    }
}

// The row found at the front, or the end of the tape, refused.
pub fn refuse_front(tape: &[u8], front: Option<Kept>, wanted: Wanted) -> Refusal
    ensures { refusal {A = Unit {0}} result ≡ wrong (length tape.now) wanted (rows_at tape.now front) }
{
    match front {
        None => wanted.cut().at(tape.len()),
        Some(row) => wanted.wrong().at(row.place),
    }
}

impl Digits {
    // No digit yet.
    fn none() -> Digits
        ensures { (result.number ≡ 0) × (result.count ≡ 0) }
    {
        Digits {
            number: 0,
            count: 0,
        }
    }

    // One digit more behind these.
    fn and(self, digit: char) -> Digits
        requires { (self.count < 18) × (48 ≤ digit) × (digit ≤ 57) }
        ensures number { result.number ≡ self.number * 10 + (digit - 48) }
        ensures count { result.count ≡ self.count + 1 }
    {
        Digits {
            number: self.number * 10 + (digit as u64 - 48),
            count: self.count + 1,
        }
    }
}

// Digits one right behind another from a row on, behind those that were read before.
fn read_stretch(tape: &[u8], start: usize, most: usize, before: Digits) -> Stretch
    requires { (before.count ≤ most) × (most ≤ 18) }
    ensures on { run (most - before.count) before.number before.count (kept_at tape.now start) ≡ run (most - result.digits.count) result.digits.number result.digits.count (kept_at tape.now result.at) }
    ensures size { (before.count ≤ result.digits.count) × (result.digits.count ≤ most) }
{
    let mut digits = before;
    for at in start..tape.len() {
        let character = (tape[at] % 128) as char;
        if digits.count == most || !character.is_ascii_digit() {
            return Stretch { digits, at };
        }
        digits = digits.and(character);
    }
    Stretch {
        digits,
        at: tape.len(),
    }
}

// At most so many digits. Behind a digit the next row is most often another.
pub fn read_digits(tape: &[u8], start: Option<Kept>, most: usize) -> Read<Digits>
    requires { most ≤ 18 }
    ensures told { run_told tape.now result ≡ run most 0 0 (rows_at tape.now start) }
    ensures few { result.value.count ≤ most }
{
    let mut digits = Digits::none();
    let mut front = start;
    while let Some(row) = front {
        if digits.count == most || !row.character.is_ascii_digit() {
            break;
        }
        let stretch = read_stretch(tape, row.after, most, digits.and(row.character));
        digits = stretch.digits;
        front = rows::next_kept(tape, stretch.at);
    }
    Read {
        value: digits,
        front,
    }
}

pub fn is_digit_next(front: Option<Kept>) -> bool
    ensures { result ≡ digit_front front }
{
    front.is_some_and(|row| row.character.is_ascii_digit())
}

// How many digits there must be.
fn fewest_of(missing: Missing, n: usize) -> usize
    ensures { result ≡ fewest missing n }
{
    match missing {
        Missing::Nothing => n,
        Missing::Leading | Missing::Trailing => 1,
    }
}

// The number that the digits make once the missing zeros are restored.
fn restore(missing: Missing, n: usize, digits: Digits) -> u64
    requires { (digits.count ≤ n) × (n ≤ 18) }
    ensures { result ≡ restored missing n (record { number = digits.number; count = digits.count; rest = [] }) }
{
    match missing {
        Missing::Nothing | Missing::Leading => digits.number,
        Missing::Trailing => digits.number * speeds::ten(n - digits.count),
    }
}

// The digits of a number of n, a block's or a word's as is wanted.
pub fn read_figures(
    tape: &[u8],
    front: Option<Kept>,
    wanted: Wanted,
    missing: Missing,
    n: usize,
) -> Result<Read<u64>, Refusal>
    requires { n ≤ 18 }
    ensures { told_by (read_told tape.now) result ≡ figures (length tape.now) wanted missing n (rows_at tape.now front) }
{
    let digits = read_digits(tape, front, n);
    let front = digits.front;
    if digits.value.count < fewest_of(missing, n) || is_digit_next(front) {
        return Err(refuse_front(tape, front, wanted));
    }
    let value = restore(missing, n, digits.value);
    Ok(Read { value, front })
}
