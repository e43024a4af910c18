// Cases of the crate lines.
use crate::answers::{Output, put_all, put_counted, put_number, put_rows};
use crate::asked::{
    behind_profile, fill, narrow, number, rest, room_in, rows_of, terms_of, text_of,
};
use lines::Said;

// O: the header of an input.
pub fn header(asked: &[u8], input: &mut [u8], out: &mut Output, at: usize) -> usize {
    let n = text_of(asked, input);
    let header = lines::input::read_header(&input[0..n]);
    let edition = put_all(out, at, b" 0 0");
    let from = put_number(out, edition, header.edition as u64);
    let to = put_number(out, from, header.from as u64);
    let rows = put_number(out, to, header.to as u64);
    put_number(out, rows, header.rows as u64)
}

// L: the number of blocks that are listed.
pub fn listed(asked: &[u8], tape: &mut [u8], out: &mut Output, at: usize) -> usize {
    let n = rows_of(behind_profile(asked), tape);
    put_counted(
        out,
        at,
        lines::input::count_listed(&terms_of(asked), &tape[0..n]),
    )
}

// A count of blocks, or a refusal: number 0 is none.
fn counted_of(number: u32, place: usize, value: usize) -> Result<usize, Said> {
    if number == 0 {
        return Ok(value);
    }
    Err(Said { number, place })
}

// Z: the last line of a listing.
pub fn last(asked: &[u8], buffer: &mut [u8], out: &mut Output, at: usize) -> usize {
    let place = rest(asked);
    let value = rest(place);
    let lent = rest(value);
    let count = counted_of(
        narrow(asked),
        number(place) as usize,
        number(value) as usize,
    );
    let room = room_in(buffer, lent);
    fill(&mut buffer[0..room], number(rest(lent)), 1);
    let answer = lines::last_line(count, &mut buffer[0..room]);
    let next = put_counted(out, at, answer);
    put_rows(out, next, &buffer[0..room])
}
