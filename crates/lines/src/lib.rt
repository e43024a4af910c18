// Lines: the last line of a listing, made in a lent buffer, and the header of the listing's input.
#![tactic(auto)]

ghost use Rattle.std.specs.Prelude.{◌≡◌, ◌≤◌, length, IfOk};
ghost use Rattle.rows.specs.Answer.{told};
ghost use Rattle.punching.specs.Answers.{room_for, written, after};
ghost use Rattle.lines.specs.Answers.{Tells, closing};

mod closing;
pub mod input;

use closing::put_closing;
use rows::{Cause, Refusal};
use text::put_all;

// A refusal as a last line says it: any number and any place, those that no refusal has too.
#[derive(Clone, Copy, Debug, PartialEq, Eq)]
pub struct Said {
    pub number: u32,
    pub place: usize,
}

impl From<Refusal> for Said {
    ghost from_gives = { Tells };

    fn from(refusal: Refusal) -> Said {
        Said {
            number: u32::from(refusal.cause),
            place: refusal.place,
        }
    }
}

// What the header says: the edition, where the shorthand stands (from a byte up to, and without, another), and where the rows begin.
// Places and no slices: `header_of` says them, and a vector's answer is these numbers.
#[derive(Clone, Copy)]
pub struct Header {
    pub edition: u32,
    pub from: usize,
    pub to: usize,
    pub rows: usize,
}

// The room that every last line can be put in: "refused", a space, 20 digits, a space, 20 digits and LF.
const ROOM: usize = 50;

// The last line: the count of the blocks, or the refusal; it answers how many bytes were put. It is composed whole before the buffer is touched.
pub fn last_line(count: Result<usize, Said>, buffer: &mut [u8]) -> Result<usize, Refusal>
    ensures bytes { told result ≡ written (room_for buffer.old (closing count)) }
    ensures buffer { buffer.new ≡ after buffer.old (room_for buffer.old (closing count)) }
    ensures within { IfOk result (λ n. n ≤ length buffer.old) }
{
    let mut line = [0u8; ROOM];
    let size = put_closing(&mut line, count);
    if buffer.len() < size {
        return Err(Cause::Room.at(size));
    }
    Ok(put_all(buffer, 0, &line[..size]))
}
