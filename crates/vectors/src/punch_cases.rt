// Cases of the crate punching.
ghost use Rattle.std.specs.Prelude.{◌≤◌, length};

use crate::answers::{Output, put_all, put_counted, put_number, put_rows};
use crate::asked::{behind_profile, fill, integer, number, rest, room_in, rows_of, terms_of};
use crate::block_cases::{count_under, read_under};
use crate::records::record_of;
use reading::Block;
use reading::records::empty_block;
use rows::Refusal;

// How many rows were written, and the whole buffer.
fn put_punched(
    out: &mut Output,
    at: usize,
    answer: Result<usize, Refusal>,
    buffer: &[u8],
) -> usize {
    let next = put_counted(out, at, answer);
    put_rows(out, next, buffer)
}

// H: the head.
pub fn head(asked: &[u8], buffer: &mut [u8], out: &mut Output, at: usize) -> usize {
    let room = room_in(buffer, asked);
    fill(&mut buffer[0..room], number(rest(asked)), 1);
    let answer = punching::punch_head(&mut buffer[0..room]);
    put_punched(out, at, answer, &buffer[0..room])
}

// U: how many rows a record needs.
pub fn measure(asked: &[u8], out: &mut Output, at: usize) -> usize {
    let block = record_of(behind_profile(asked));
    put_counted(out, at, punching::measure_block(&terms_of(asked), block))
}

// V: a record written.
pub fn write(asked: &[u8], buffer: &mut [u8], out: &mut Output, at: usize) -> usize {
    let lent = behind_profile(asked);
    let first = rest(lent);
    let room = room_in(buffer, lent);
    fill(&mut buffer[0..room], number(first), 1);
    let answer = punching::write_block(
        &terms_of(asked),
        record_of(rest(first)),
        &mut buffer[0..room],
    );
    put_punched(out, at, answer, &buffer[0..room])
}

// A record under the edition, the shorthand and the profile that are asked.
fn punch_under(asked: &[u8], block: Block, buffer: &mut [u8]) -> Result<usize, Refusal> {
    punching::punch_block(&terms_of(asked), block, buffer)
}

// J: a record.
pub fn record(asked: &[u8], buffer: &mut [u8], out: &mut Output, at: usize) -> usize {
    let lent = behind_profile(asked);
    let first = rest(lent);
    let room = room_in(buffer, lent);
    fill(&mut buffer[0..room], number(first), 1);
    let block = record_of(rest(first));
    let answer = punch_under(asked, block, &mut buffer[0..room]);
    put_punched(out, at, answer, &buffer[0..room])
}

// D: block n of a tape.
pub fn again(
    asked: &[u8],
    tape: &mut [u8],
    buffer: &mut [u8],
    out: &mut Output,
    at: usize,
) -> usize {
    let lent = behind_profile(asked);
    let wanted = rest(lent);
    let n = rows_of(rest(wanted), tape);
    let read = read_under(asked, &tape[0..n], number(wanted) as usize);
    let block = read.unwrap_or(empty_block());
    let room = room_in(buffer, lent);
    fill(&mut buffer[0..room], 0, 0);
    let answer = punch_under(asked, block, &mut buffer[0..room]);
    put_punched(out, at, answer, &buffer[0..room])
}

// As many rows as were punched, if they are within the room.
fn rows_punched(answer: Result<usize, Refusal>, room: usize) -> usize
    ensures { result ≤ room }
{
    match answer {
        Ok(n) => { if n <= room { n } else { 0 } }
        Err(_) => 0,
    }
}

// A block punched at a place; answers the place behind it.
fn punch_at(asked: &[u8], block: Block, punched: &mut [u8], at: usize) -> usize
    requires { at ≤ length punched.old }
    ensures { result ≤ length punched.new }
{
    let room = punched.len() - at;
    let answer = punch_under(asked, block, &mut punched[at..]);
    at + rows_punched(answer, room)
}

// A head, and behind it at most 100 blocks of a tape; answers the rows punched.
fn punch_all(asked: &[u8], tape: &[u8], punched: &mut [u8]) -> usize
    ensures { result ≤ length punched.new }
{
    let room = punched.len();
    let answer = punching::punch_head(punched);
    let mut at = rows_punched(answer, room);
    for n in 0..100 {
        let Ok(block) = read_under(asked, tape, n) else {
            return at;
        };
        at = punch_at(asked, block, punched, at);
    }
    at
}

// Q: the blocks of a tape punched behind a head, and counted.
pub fn round(
    asked: &[u8],
    tape: &mut [u8],
    punched: &mut [u8],
    out: &mut Output,
    at: usize,
) -> usize {
    let n = rows_of(behind_profile(asked), tape);
    let m = punch_all(asked, &tape[0..n], punched);
    let next = put_counted(out, at, count_under(asked, &punched[0..m]));
    put_rows(out, next, &punched[0..m])
}

// A: sign and magnitude.
pub fn magnitude(asked: &[u8], out: &mut Output, at: usize) -> usize {
    let m = punching::magnitude_of(integer(asked));
    if m.minus {
        let next = put_all(out, at, b" -");
        return put_number(out, next, m.size);
    }
    let next = put_all(out, at, b" +");
    put_number(out, next, m.size)
}
