// An index built for a tape: one walk judges it and counts its blocks, and where there is room a second one lays their first rows and numbers into the arrays.
ghost use Rattle.std.specs.Prelude.{◌≡◌, ◌≤◌, ◌<◌, length, get_or};
ghost use Rattle.rows.specs.Answer.{taken, told};
ghost use Rattle.reading.specs.Answers.{nowhere, size_of};
ghost use Rattle.punching.specs.Answers.{after};
ghost use Rattle.index.specs.Index.{marked, index_room, indexed_for, laid, firsts_of, numbers_of, entries_of};

use crate::NO_NUMBER;
use parts::items::guide_of;
use reading::walk::survey_tape;
use rows::{Cause, Refusal};
use shorthand::Usable;
use steps::walking::take_step;
use steps::{Cursor, Event, Stage};

// What the index holds of a number.
// Stays so: a flag and a number, as Block has them, and no Option: the theorems Marks and WalkedNumbers speak of both and of the mark
pub fn mark_number(numbered: bool, sequence: u64) -> u64
    ensures { result ≡ marked numbered sequence }
{
    if numbered { sequence } else { NO_NUMBER }
}

// Whether arrays of so many places have room for the entries needed.
pub fn judge_room(needed: usize, firsts: usize, numbers: usize) -> Result<(), Refusal>
    ensures { told result ≡ index_room needed firsts numbers }
{
    if needed <= firsts && needed <= numbers {
        return Ok(());
    }
    Err(Cause::IndexRoom.at(needed))
}

// The first rows and numbers of the blocks of an accepted tape that has some, the first of which begins at a row.
fn fill_index(tape: &[u8], usable: Usable, first: usize, firsts: &mut [usize], numbers: &mut [u64])
    requires nonzero { (0 < length (entries_of usable.format tape.now)) × (first ≡ (get_or (entries_of usable.format tape.now) 0 nowhere).from) }
    requires tape_in_bounds { (length (entries_of usable.format tape.now) ≤ length firsts.old) × (length (entries_of usable.format tape.now) ≤ length numbers.old) }
    ensures firsts { firsts.new ≡ after firsts.old (taken (firsts_of (entries_of usable.format tape.now))) }
    ensures numbers { numbers.new ≡ after numbers.old (taken (numbers_of (entries_of usable.format tape.now))) }
{
    let guide = guide_of(usable);
    let mut cursor = Cursor {
        stage: Stage::Between,
        item: 0,
        empty: false,
        front: rows::next_kept(tape, first),
    };
    let mut from = first;
    let mut number: u64 = NO_NUMBER;
    let mut n: usize = 0;
    loop {
        let item = usable.format.items[cursor.item];
        let Ok(step) = take_step(tape, &guide, item, cursor) else {
            return;
        };
        cursor = step.cursor;
        match step.event {
            Event::Opened(begun) => {
                number = mark_number(begun.numbered, begun.sequence);
            }
            Event::Closed(lf) => {
                firsts[n] = from;
                numbers[n] = number;
                n += 1;
                from = lf + 1;
            }
            Event::Finished => {
                return;
            }
            _ => {}
        }
    }
}

// The index of a tape under a Format: nothing is written before every refusal is excluded.
pub fn build_under(
    tape: &[u8],
    usable: Usable,
    firsts: &mut [usize],
    numbers: &mut [u64],
) -> Result<usize, Refusal>
    ensures count { told result ≡ size_of (indexed_for usable.format tape.now (length firsts.old) (length numbers.old)) }
    ensures firsts { firsts.new ≡ after firsts.old (laid firsts_of (indexed_for usable.format tape.now (length firsts.old) (length numbers.old))) }
    ensures numbers { numbers.new ≡ after numbers.old (laid numbers_of (indexed_for usable.format tape.now (length firsts.old) (length numbers.old))) }
{
    let survey = survey_tape(tape, usable, 0)?;
    let blocks = survey.count;
    judge_room(blocks, firsts.len(), numbers.len())?;
    if 0 < blocks {
        let part = survey.part;
        fill_index(tape, usable, part.from, firsts, numbers);
    }
    Ok(blocks)
}
