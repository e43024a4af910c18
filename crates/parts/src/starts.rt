// The start of a block: "/" or not, and N or ":" and the number, or no number.
ghost use Rattle.std.specs.Prelude.{◌≡◌, List, ℕ, ◌≤◌, length};
ghost use Rattle.rows.specs.Answer.{told_by};
ghost use Rattle.words.specs.Figures.{fronts};
ghost use Rattle.words.specs.Front.{rows_at, read_told};
ghost use Rattle.parts.specs.Starts.{digits_at, bare_at, number_at, past_slash, start_at};
ghost use Rattle.parts.specs.Items.{bare_by};

use crate::{Begun, Guide};
use rows::{Kept, Refusal};
use words::figures::{is_digit_next, read_digits, refuse_front};
use words::{Read, Wanted};

// The digits behind N or ":". They are read here and not by `read_figures`, which a word's data call: called from two places it is merged into neither.
fn read_number(
    tape: &[u8],
    digits: usize,
    skip: bool,
    alignment: bool,
    front: Option<Kept>,
) -> Result<Read<Begun>, Refusal>
    requires { digits ≤ 18 }
    ensures { told_by (read_told tape.now) result ≡ digits_at (length tape.now) digits skip alignment (rows_at tape.now front) }
{
    let number = read_digits(tape, front, digits);
    let front = number.front;
    if number.value.count < digits || is_digit_next(front) {
        return Err(refuse_front(tape, front, Wanted::Start));
    }
    let value = Begun {
        skip,
        alignment,
        numbered: true,
        sequence: number.value.number,
    };
    Ok(Read { value, front })
}

// Whether a block without number may begin at the fetched row: with an item's tab or letter, or with an end, which finds it empty.
#[tactic(auto, unfolding(crate::specs::Items::bare_by))]
fn begins_bare(guide: &Guide, front: Option<Kept>) -> bool
    ensures { (t : List ℕ) → result ≡ bare_by guide.now.rules guide.now.leads (rows_at t front) }
{
    let Some(row) = front else {
        return false;
    };
    let rules = guide.rules;
    let ends = matches!(row.character, '\n' | '\r');
    let turns = !rules.dots || row.character == '\t';
    let due = guide.due(0, front);
    rules.unnumbered && ((turns && due < rules.items) || ends)
}

// No number, where a block may begin so.
fn read_bare(
    tape: &[u8],
    guide: &Guide,
    skip: bool,
    front: Option<Kept>,
) -> Result<Read<Begun>, Refusal>
    ensures { told_by (read_told tape.now) result ≡ bare_at (length tape.now) (bare_by guide.now.rules guide.now.leads) skip (rows_at tape.now front) }
{
    if !begins_bare(guide, front) {
        return Err(refuse_front(tape, front, Wanted::Start));
    }
    let value = Begun {
        skip,
        alignment: false,
        numbered: false,
        sequence: 0,
    };
    Ok(Read { value, front })
}

// N or ":" and its number, or no number.
#[tactic(auto, using(words::proofs::Fetched::fetched))]
fn read_sequence(
    tape: &[u8],
    guide: &Guide,
    skip: bool,
    front: Option<Kept>,
) -> Result<Read<Begun>, Refusal>
    ensures { told_by (read_told tape.now) result ≡ number_at (length tape.now) guide.now.rules.digits (bare_by guide.now.rules guide.now.leads) skip (rows_at tape.now front) }
{
    let Some(row) = front else {
        return read_bare(tape, guide, skip, front);
    };
    match row.character {
        'N' | ':' => {
            let alignment = row.character == ':';
            read_number(
                tape,
                guide.rules.digits,
                skip,
                alignment,
                rows::next_kept(tape, row.after),
            )
        }
        _ => read_bare(tape, guide, skip, front),
    }
}

// Whether the fetched row is "/".
fn is_slash(front: Option<Kept>) -> bool
    ensures { (t : List ℕ) → result ≡ fronts 47 (rows_at t front) }
{
    front.is_some_and(|row| row.character == '/')
}

// The row behind "/", where it stands.
#[tactic(auto, using(words::proofs::Fetched::fetched))]
fn pass_slash(tape: &[u8], front: Option<Kept>) -> Option<Kept>
    ensures { rows_at tape.now result ≡ past_slash (rows_at tape.now front) }
{
    match front {
        Some(row) if row.character == '/' => rows::next_kept(tape, row.after),
        _ => front,
    }
}

// "/" or not, and N or ":" and the number, or no number. `read_sequence` is called from one place, so that it is merged into this one.
pub fn read_start(tape: &[u8], guide: &Guide, front: Option<Kept>) -> Result<Read<Begun>, Refusal>
    ensures { told_by (read_told tape.now) result ≡ start_at (length tape.now) guide.now.rules.digits (bare_by guide.now.rules guide.now.leads) (rows_at tape.now front) }
{
    read_sequence(tape, guide, is_slash(front), pass_slash(tape, front))
}
