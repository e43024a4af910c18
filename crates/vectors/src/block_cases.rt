// Cases of the crate reading.
use crate::answers::{Output, put_counted, put_outcome, put_rows};
use crate::asked::{behind_profile, number, rest, rows_of, terms_of};
use crate::records::put_record;
use reading::Block;
use reading::records::empty_block;
use rows::Refusal;

// Number and place, and a block as a record, the empty one where it was refused.
pub fn put_block(out: &mut Output, at: usize, answer: Result<Block, Refusal>) -> usize {
    let next = put_outcome(out, at, &answer);
    put_record(out, next, answer.unwrap_or(empty_block()))
}

// Number and place, and the rows of a part, none where it was refused.
pub fn put_part(out: &mut Output, at: usize, answer: Result<&[u8], Refusal>) -> usize {
    let next = put_outcome(out, at, &answer);
    match answer {
        Ok(rows) => put_rows(out, next, rows),
        Err(_) => next,
    }
}

// The number of blocks of a tape under what is asked.
pub fn count_under(asked: &[u8], tape: &[u8]) -> Result<usize, Refusal> {
    reading::count_blocks(&terms_of(asked), tape)
}

// Block n of it.
pub fn read_under(asked: &[u8], tape: &[u8], n: usize) -> Result<Block, Refusal> {
    reading::read_block(&terms_of(asked), tape, n)
}

// B: the number of blocks.
pub fn count(asked: &[u8], tape: &mut [u8], out: &mut Output, at: usize) -> usize {
    let n = rows_of(behind_profile(asked), tape);
    put_counted(out, at, count_under(asked, &tape[0..n]))
}

// W: block n as a record.
pub fn block(asked: &[u8], tape: &mut [u8], out: &mut Output, at: usize) -> usize {
    let wanted = behind_profile(asked);
    let n = rows_of(rest(wanted), tape);
    put_block(
        out,
        at,
        read_under(asked, &tape[0..n], number(wanted) as usize),
    )
}

// P: the rows of block n.
pub fn part_of(asked: &[u8], tape: &mut [u8], out: &mut Output, at: usize) -> usize {
    let wanted = behind_profile(asked);
    let n = rows_of(rest(wanted), tape);
    let rows = reading::block_rows(&terms_of(asked), &tape[0..n], number(wanted) as usize);
    put_part(out, at, rows)
}
