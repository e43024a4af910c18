// A page of lines: each step of a walk over the blocks puts what it meets into a line, which is copied to the page where it fits.
#![tactic(auto)]

ghost use Rattle.std.specs.Prelude.{◌≡◌, List, ◌≤◌, ◌<◌, length, IfOk};
ghost use Rattle.rows.specs.Answer.{told};
ghost use Rattle.reading.specs.declared.Entry.{Entry};
ghost use Rattle.reading.specs.Remains.{Remains};
ghost use Rattle.punching.specs.Answers.{after};
ghost use Rattle.pages.specs.Pages.{paged, sheet_of, text_of};
ghost use Rattle.pages.specs.Adding.{added_to, line_after, full_at};

use parts::items::guide_of;
use rows::{Cause, Refusal};
use shorthand::Usable;
use steps::walking::take_step;
use steps::{Cursor, Event, Stage};
use text::{put, put_all, put_start, put_word};

// How many blocks a page lists, how many bytes their lines are, and the row that the next page begins at.
#[derive(Clone, Copy)]
pub struct Sheet {
    pub blocks: usize,
    pub bytes: usize,
    pub next: usize,
}

impl Sheet {
    // No line yet: the next page begins where this one does.
    fn empty(next: usize) -> Sheet
        ensures { result ≡ record { blocks = 0; bytes = 0; next = next } }
    {
        Sheet {
            blocks: 0,
            bytes: 0,
            next,
        }
    }
}

// The room of the longest line: a number of 9 digits and 25 bytes, and 23 bytes for each of 22 words.
const LINE: usize = 540;

// The line of a block, ended and put behind those of the page, where it fits; else its length, which is more than what is left of the buffer. The next page
// begins at a row.
fn add_line(
    line: &mut [u8],
    used: usize,
    buffer: &mut [u8],
    sheet: Sheet,
    next: usize,
) -> Result<Sheet, usize>
    requires used_in_bounds { used < length line.old }
    requires blocks_le_bytes { (sheet.blocks ≤ sheet.bytes) × (sheet.bytes ≤ length buffer.old) }
    ensures added { result ≡ added_to used (length buffer.old) sheet next }
    ensures line { length line.new ≡ length line.old }
    ensures buffer { buffer.new ≡ line_after line.old used buffer.old sheet }
{
    let bytes = sheet.bytes;
    let end = put(line, used, b'\n');
    if buffer.len() - bytes < end {
        return Err(end);
    }
    let all = put_all(buffer, bytes, &line[..end]);
    Ok(Sheet {
        blocks: sheet.blocks + 1,
        bytes: all,
        next,
    })
}

// A page that is full before a line: 19 at the line's length where it would have been the first.
fn full_page(sheet: Sheet, length: usize) -> Result<Sheet, Refusal>
    ensures { result ≡ full_at sheet length }
{
    if sheet.blocks == 0 {
        return Err(Cause::Room.at(length));
    }
    Ok(sheet)
}

// The lines of the blocks of an accepted tape from a row on, as many as fit in the buffer.
pub fn list_page(
    tape: &[u8],
    usable: Usable,
    from: usize,
    buffer: &mut [u8],
) -> Result<Sheet, Refusal>
    requires remains { (es : List Entry) × Remains usable.format tape.now from es }
    ensures page { told result ≡ sheet_of (paged usable.format (length buffer.old) tape.now from) }
    ensures buffer { buffer.new ≡ after buffer.old (text_of (paged usable.format (length buffer.old) tape.now from)) }
    ensures within { IfOk result (λ s. s.bytes ≤ length buffer.old) }
{
    let format = &usable.format;
    let guide = guide_of(usable);
    let mut cursor = Cursor {
        stage: Stage::Between,
        item: 0,
        empty: false,
        front: rows::next_kept(tape, from),
    };
    let mut line = [0u8; LINE];
    let mut used: usize = 0;
    let mut sheet = Sheet::empty(from);
    loop {
        let item = format.items[cursor.item];
        // No block of an accepted tape is refused.
        let step = take_step(tape, &guide, item, cursor)?;
        cursor = step.cursor;
        match step.event {
            Event::Opened(b) => used = put_start(&mut line, 0, format.sequence, b),
            Event::Read(word) => used = put_word(&mut line, used, word),
            Event::Closed(lf) => match add_line(&mut line, used, buffer, sheet, lf + 1) {
                Ok(more) => sheet = more,
                Err(length) => return full_page(sheet, length),
            },
            Event::Finished => return Ok(sheet),
            Event::Out => {}
        }
    }
}
