// Cases of the crates index and images.
ghost use Rattle.std.specs.Prelude.{◌≤◌, length};

use crate::answers::{
    Output, put, put_all, put_counted, put_decimal, put_number, put_refused, put_rows, put_value,
};
use crate::asked::{behind_profile, fill, first_of, number, part, rest, rows_of, terms_of};
use crate::block_cases::{put_block, put_part};
use crate::records::record_of;
use images::Image;
use index::NO_NUMBER;
use rows::Refusal;
use text::finding::find_byte;

// How many places of an array are lent.
pub fn places_in(text: &[u8]) -> usize
    ensures { result ≤ 100 }
{
    (number(text) as usize).min(100)
}

// What stands behind the first comma; all of the text where it has none.
pub fn behind_comma(text: &[u8]) -> &[u8] {
    let comma = find_byte(text, 0, text.len(), b',');
    if comma < text.len() {
        return &text[comma + 1..];
    }
    text
}

// Whether a list has no entries.
fn is_bare(list: &[u8]) -> bool {
    list.is_empty() || first_of(list) == b'.'
}

// A number, or the mark.
pub fn marked_of(text: &[u8]) -> u64 {
    if first_of(text) == b'-' {
        return NO_NUMBER;
    }
    number(text)
}

// What a list holds, as much as there are places for; each is read from where it stands to the end of the list.
fn list_of<T: Copy, F: Fn(&[u8]) -> T>(list: &[u8], places: &mut [T], read: F) -> usize
    requires { F.IsAlwaysCallable read }
    ensures { result ≤ length places.new }
{
    if is_bare(list) {
        return 0;
    }
    let mut at: usize = 0;
    for n in 0..places.len() {
        places[n] = read(&list[at..]);
        let comma = find_byte(list, at, list.len(), b',');
        if list.len() <= comma {
            return n + 1;
        }
        at = comma + 1;
    }
    places.len()
}

// The first rows in a list.
fn firsts_of(list: &[u8], firsts: &mut [usize]) -> usize
    ensures { result ≤ length firsts.new }
{
    list_of(list, firsts, |text| number(text) as usize)
}

// The numbers in a list.
pub fn numbers_of(list: &[u8], numbers: &mut [u64]) -> usize
    ensures { result ≤ length numbers.new }
{
    list_of(list, numbers, |text| marked_of(text))
}

// A number, or a dash for none.
fn put_marked(out: &mut Output, at: usize, n: Option<u64>) -> usize {
    match n {
        Some(n) => put_decimal(out, at, n),
        None => put(out, at, b'-'),
    }
}

// A space and the entries of a list, each as a number or none, with commas between them; a dot for no entries.
pub fn put_list<T: Copy, F: Fn(T) -> Option<u64>>(
    out: &mut Output,
    start: usize,
    list: &[T],
    told: F,
) -> usize
    requires { F.IsAlwaysCallable told }
{
    if list.is_empty() {
        return put_all(out, start, b" .");
    }
    let mut at = start;
    let mut between = b' ';
    for entry in list {
        let next = put(out, at, between);
        at = put_marked(out, next, told(*entry));
        between = b',';
    }
    at
}

// First rows, or the sizes of pieces.
pub fn put_rows_listed(out: &mut Output, start: usize, firsts: &[usize]) -> usize {
    put_list(out, start, firsts, |row| Some(row as u64))
}

// Numbers, with a dash for the mark.
fn put_numbers(out: &mut Output, start: usize, numbers: &[u64]) -> usize {
    put_list(out, start, numbers, |n| {
        if n == NO_NUMBER { None } else { Some(n) }
    })
}

// Both arrays.
fn put_arrays(out: &mut Output, at: usize, firsts: &[usize], numbers: &[u64]) -> usize {
    let next = put_rows_listed(out, at, firsts);
    put_numbers(out, next, numbers)
}

// The index of a tape, in arrays whose old content is counted up.
fn build_into(
    asked: &[u8],
    tape: &[u8],
    firsts: &mut [usize],
    numbers: &mut [u64],
    first: u64,
    out: &mut Output,
    at: usize,
) -> usize {
    fill(firsts, first, 1);
    fill(numbers, first, 1);
    let count = index::build_index(&terms_of(asked), tape, firsts, numbers);
    let next = put_counted(out, at, count);
    put_arrays(out, next, firsts, numbers)
}

// The index of a tape, in as many places as are asked.
fn build_of(asked: &[u8], tape: &[u8], out: &mut Output, at: usize) -> usize {
    let places = behind_profile(asked);
    let mut firsts = [0usize; 100];
    let mut numbers = [0u64; 100];
    let a = places_in(part(places));
    let b = places_in(behind_comma(part(places)));
    build_into(
        asked,
        tape,
        &mut firsts[0..a],
        &mut numbers[0..b],
        number(rest(places)),
        out,
        at,
    )
}

// IB: the index of a tape.
pub fn build(asked: &[u8], tape: &mut [u8], out: &mut Output, at: usize) -> usize {
    let places = behind_profile(asked);
    let n = rows_of(rest(rest(places)), tape);
    build_of(asked, &tape[0..n], out, at)
}

// How many rows a buffer has that an image stands in: as many as are asked, or as the image has where those are more.
fn size_of(buffer: &[u8], asked: &[u8], rows: usize) -> usize
    ensures { result ≤ length buffer.now }
{
    if buffer.len() < 4000 {
        return 0;
    }
    let room = number(asked) as usize;
    room.max(rows).min(4000)
}

// An image in the first rows of a buffer, the others as they are counted up; answers how many rows it has.
fn lay_image(text: &[u8], first: u64, buffer: &mut [u8]) -> usize
    ensures { result ≤ length buffer.new }
{
    fill(buffer, first, 1);
    rows_of(text, buffer)
}

// Rows and blocks of an image that was changed.
fn put_updated(out: &mut Output, at: usize, answer: Result<Image, Refusal>) -> usize {
    match answer {
        Ok(image) => {
            let next = put_value(out, at, image.rows as u64);
            put_number(out, next, image.blocks as u64)
        }
        Err(r) => {
            let next = put_refused(out, at, r);
            put_number(out, next, 0)
        }
    }
}

// What stands before the bar behind a record.
fn before_bar(text: &[u8]) -> &[u8] {
    let bar = find_byte(text, 0, text.len(), b'|');
    &text[0..bar]
}

// What stands behind it, and behind the space that follows.
fn behind_bar(text: &[u8]) -> &[u8] {
    let bar = find_byte(text, 0, text.len(), b'|');
    rest(&text[bar..])
}

// A record appended to an image under the edition, the shorthand and the profile that are asked.
fn append_under(
    asked: &[u8],
    record: &[u8],
    image: &mut [u8],
    rows: usize,
    firsts: &mut [usize],
    numbers: &mut [u64],
) -> Result<Image, Refusal> {
    images::append_block(
        &terms_of(asked),
        image,
        rows,
        firsts,
        numbers,
        record_of(record),
    )
}

// The same, with arrays whose old content is counted up.
fn append_into(
    asked: &[u8],
    record: &[u8],
    image: &mut [u8],
    rows: usize,
    firsts: &mut [usize],
    numbers: &mut [u64],
    first: u64,
    out: &mut Output,
    at: usize,
) -> usize {
    fill(firsts, first, 1);
    fill(numbers, first, 1);
    let answer = append_under(asked, record, image, rows, firsts, numbers);
    let next = put_updated(out, at, answer);
    let behind = put_rows(out, next, image);
    put_arrays(out, behind, firsts, numbers)
}

// The same, with the image laid into its buffer, and in as many places as are asked.
fn append_in(asked: &[u8], room: &[u8], image: &mut [u8], out: &mut Output, at: usize) -> usize {
    let places = part(behind_profile(asked));
    let first = rest(room);
    let record = rest(first);
    let rows = lay_image(behind_bar(record), number(first), image);
    let mut firsts = [0usize; 100];
    let mut numbers = [0u64; 100];
    let a = places_in(places);
    let b = places_in(behind_comma(places));
    append_into(
        asked,
        before_bar(record),
        image,
        rows,
        &mut firsts[0..a],
        &mut numbers[0..b],
        number(first),
        out,
        at,
    )
}

// IA: a record appended to an image.
pub fn append(
    asked: &[u8],
    tape: &mut [u8],
    buffer: &mut [u8],
    out: &mut Output,
    at: usize,
) -> usize {
    let room = rest(behind_profile(asked));
    let record = rest(rest(room));
    let rows = rows_of(behind_bar(record), tape);
    let size = size_of(buffer, room, rows);
    append_in(asked, room, &mut buffer[0..size], out, at)
}

// The last block taken off an image that is laid into its buffer.
fn take_off_in(asked: &[u8], first: &[u8], image: &mut [u8], out: &mut Output, at: usize) -> usize {
    let rows = lay_image(rest(first), number(first), image);
    let answer = images::take_off(&terms_of(asked), image, rows);
    let next = put_updated(out, at, answer);
    put_rows(out, next, image)
}

// IO: the last block of an image taken off.
pub fn take_off(
    asked: &[u8],
    tape: &mut [u8],
    buffer: &mut [u8],
    out: &mut Output,
    at: usize,
) -> usize {
    let room = behind_profile(asked);
    let first = rest(room);
    let rows = rows_of(rest(first), tape);
    let size = size_of(buffer, room, rows);
    take_off_in(asked, first, &mut buffer[0..size], out, at)
}

// How many rows of a long image are asked.
fn rows_asked(text: &[u8]) -> usize
    ensures { result ≤ 1000001 }
{
    (number(text) as usize).min(1000001)
}

// How many rows its buffer has: as many as are asked, or as the image has where those are more.
fn long_size(room: &[u8], rows: &[u8]) -> usize
    ensures { result ≤ 1000001 }
{
    rows_asked(room).max(rows_asked(rows))
}

// A head, a remark and NUL.
fn long_image() -> [u8; 1000001] {
    let mut image = [0u8; 1000001];
    image[0] = 165;
    image[1] = 10;
    image[2] = 40;
    image[3] = 169;
    image
}

// A record appended to an image of so many rows, in as many places as are asked.
fn append_to(
    asked: &[u8],
    record: &[u8],
    image: &mut [u8],
    rows: usize,
    out: &mut Output,
    at: usize,
) -> usize {
    let places = part(behind_profile(asked));
    let mut firsts = [0usize; 100];
    let mut numbers = [0u64; 100];
    let a = places_in(places);
    let b = places_in(behind_comma(places));
    let answer = append_under(
        asked,
        record,
        image,
        rows,
        &mut firsts[0..a],
        &mut numbers[0..b],
    );
    put_updated(out, at, answer)
}

// IL: a record appended to an image of a head, a remark and NUL.
pub fn append_long(asked: &[u8], out: &mut Output, at: usize) -> usize {
    let room = rest(behind_profile(asked));
    let rows = rest(room);
    let size = long_size(room, rows);
    let mut image = long_image();
    append_to(
        asked,
        rest(rows),
        &mut image[0..size],
        rows_asked(rows),
        out,
        at,
    )
}

// A block of a tape as a record, by the first rows of all blocks.
fn block_of(asked: &[u8], tape: &[u8], out: &mut Output, at: usize) -> usize {
    let wanted = behind_profile(asked);
    let mut firsts = [0usize; 100];
    let k = firsts_of(part(rest(wanted)), &mut firsts);
    let answer = index::indexed_block(
        &terms_of(asked),
        tape,
        &firsts[0..k],
        number(wanted) as usize,
    );
    put_block(out, at, answer)
}

// IW: block n as a record, by the first rows of all blocks.
pub fn block(asked: &[u8], tape: &mut [u8], out: &mut Output, at: usize) -> usize {
    let wanted = behind_profile(asked);
    let n = rows_of(rest(rest(wanted)), tape);
    block_of(asked, &tape[0..n], out, at)
}

// The rows of a block of a tape, by the first rows of all blocks.
fn rows_found(asked: &[u8], tape: &[u8], out: &mut Output, at: usize) -> usize {
    let wanted = behind_profile(asked);
    let mut firsts = [0usize; 100];
    let k = firsts_of(part(rest(wanted)), &mut firsts);
    let rows = index::indexed_rows(
        &terms_of(asked),
        tape,
        &firsts[0..k],
        number(wanted) as usize,
    );
    put_part(out, at, rows)
}

// IP: the rows of block n, by the first rows of all blocks.
pub fn part_of(asked: &[u8], tape: &mut [u8], out: &mut Output, at: usize) -> usize {
    let wanted = behind_profile(asked);
    let n = rows_of(rest(rest(wanted)), tape);
    rows_found(asked, &tape[0..n], out, at)
}

// IN: the first block with a number.
pub fn find(asked: &[u8], out: &mut Output, at: usize) -> usize {
    let mut numbers = [0u64; 100];
    let k = numbers_of(part(rest(asked)), &mut numbers);
    put_counted(
        out,
        at,
        index::find_number(&numbers[0..k], marked_of(asked)),
    )
}
