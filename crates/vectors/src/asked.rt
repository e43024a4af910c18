// What a line asks: its parts, its numbers and its rows, as LINES.md spells them.
ghost use Rattle.std.specs.Prelude.{◌≤◌, length, IfSome};

use profile::Terms;
use text::finding::find_byte;

// The row that is spelt at a place, and how many more bytes than one that takes.
#[derive(Clone, Copy)]
struct Spelt {
    row: u8,
    more: usize,
}

// Where a shorthand ends, and where the profile behind it begins and ends; all three are one place where it has none.
#[derive(Clone, Copy)]
struct Bounds {
    shorthand: usize,
    profile: usize,
    end: usize,
}

// What stands before the first space.
pub fn part(text: &[u8]) -> &[u8] {
    let space = find_byte(text, 0, text.len(), b' ');
    &text[0..space]
}

// What stands behind it.
pub fn rest(text: &[u8]) -> &[u8] {
    let space = find_byte(text, 0, text.len(), b' ');
    if space < text.len() {
        return &text[space + 1..];
    }
    &text[space..]
}

// A shorthand ends at the first space or bar. What stands behind a bar, up to the next one, is its profile.
fn split(text: &[u8]) -> Bounds
    ensures { (result.shorthand ≤ length text.now) × (result.profile ≤ result.end) × (result.end ≤ length text.now) }
{
    let space = find_byte(text, 0, text.len(), b' ');
    let shorthand = find_byte(text, 0, space, b'|');
    if space <= shorthand {
        return Bounds {
            shorthand,
            profile: shorthand,
            end: shorthand,
        };
    }
    let profile = shorthand + 1;
    let end = find_byte(text, profile, text.len(), b'|');
    Bounds {
        shorthand,
        profile,
        end,
    }
}

// The shorthand behind the edition.
fn shorthand_of(asked: &[u8]) -> &[u8] {
    let text = rest(asked);
    let bounds = split(text);
    let end = bounds.shorthand;
    &text[0..end]
}

// The profile behind the shorthand, empty where there is none.
fn profile_of(asked: &[u8]) -> &[u8] {
    let text = rest(asked);
    let bounds = split(text);
    let from = bounds.profile;
    let end = bounds.end;
    &text[from..end]
}

// What a line asks under: its edition, its shorthand and its profile.
pub fn terms_of(asked: &[u8]) -> Terms<'_> {
    Terms {
        edition: narrow(asked),
        shorthand: shorthand_of(asked),
        profile: profile_of(asked),
    }
}

// What stands behind edition, shorthand and profile.
pub fn behind_profile(asked: &[u8]) -> &[u8] {
    let text = rest(asked);
    let bounds = split(text);
    let end = bounds.end;
    rest(&text[end..])
}

// Where the next part begins.
pub fn next_part(text: &[u8], at: usize) -> usize
    requires { at ≤ length text.now }
    ensures { result ≤ length text.now }
{
    let space = find_byte(text, at, text.len(), b' ');
    if space < text.len() {
        return space + 1;
    }
    space
}

pub fn first_of(text: &[u8]) -> u8 {
    match text {
        [first, ..] => *first,
        [] => 0,
    }
}

pub fn behind_first(text: &[u8]) -> &[u8] {
    match text {
        [_, behind @ ..] => behind,
        [] => text,
    }
}

// A digit's value, if the character is one.
pub fn digit_of(c: u8) -> Option<u64>
    ensures { IfSome result (λ d. d ≤ 9) }
{
    match c {
        b'0'..=b'9' => Some((c - b'0') as u64),
        _ => None,
    }
}

// A number with one digit more, unless that is over the most.
fn with_digit(n: u64, d: u64, most: u64) -> Option<u64> {
    let next = n.checked_mul(10)?.checked_add(d)?;
    if most < next { None } else { Some(next) }
}

// The number at the front of a text, as far as its digits are within the most.
fn number_within(text: &[u8], most: u64) -> u64 {
    let mut n: u64 = 0;
    for c in text {
        let Some(d) = digit_of(*c) else {
            return n;
        };
        let Some(next) = with_digit(n, d, most) else {
            return n;
        };
        n = next;
    }
    n
}

pub fn number(text: &[u8]) -> u64 {
    number_within(text, u64::MAX)
}

pub fn narrow(text: &[u8]) -> u32 {
    (number_within(text, 4294967295) % 4294967296) as u32
}

pub fn byte(text: &[u8]) -> u8 {
    (number_within(text, 255) % 256) as u8
}

// The least integer has no positive one of its size, so one is taken away before the bits are turned over.
fn negative(size: u64) -> i64 {
    if size == 0 {
        return 0;
    }
    !(((size - 1) % 9223372036854775808) as i64)
}

// A number that may have a minus.
pub fn integer(text: &[u8]) -> i64 {
    if first_of(text) == b'-' {
        return negative(number_within(behind_first(text), 9223372036854775808));
    }
    (number_within(text, 9223372036854775807) % 9223372036854775808) as i64
}

// The row of a character: with an even number of holes, or with an odd one.
fn row_of(c: u8, odd: bool) -> u8 {
    let low = c % 128;
    if rows::has_even_holes(low) == odd {
        low + 128
    } else {
        low
    }
}

// The character that a letter of a spelt tape stands for.
fn character_of(c: u8) -> u8 {
    match c {
        b'~' => 10,
        b'^' => 9,
        b'_' => 0,
        b'`' => 127,
        b'&' => 13,
        _ => c,
    }
}

// `\` and three digits that are a row's number.
fn numbered_row(text: &[u8]) -> Option<u8> {
    let [b'\\', hundreds, tens, ones, ..] = text else {
        return None;
    };
    let n = digit_of(*hundreds)? * 100 + digit_of(*tens)? * 10 + digit_of(*ones)?;
    if 255 < n { None } else { Some(n as u8) }
}

// The row that is spelt at the front of a text.
fn first_row(text: &[u8], odd: bool) -> Spelt {
    match numbered_row(text) {
        Some(row) => Spelt { row, more: 3 },
        None => Spelt {
            row: row_of(character_of(first_of(text)), odd),
            more: 0,
        },
    }
}

// The rows of a spelt tape, as many as there is room for.
pub fn rows_of(text: &[u8], tape: &mut [u8]) -> usize
    ensures { result ≤ length tape.new }
{
    let mut n: usize = 0;
    let mut i = 0;
    let mut odd = false;
    // No `for`: a row is spelt by one byte, by two or by four.
    while i < text.len() {
        if text[i] == b'?' {
            odd = true;
            i += 1;
            continue;
        }
        let spelt = first_row(&text[i..], odd);
        let more = spelt.more;
        i += 1;
        if text.len() - i < more {
            return n;
        }
        if tape.len() <= n {
            return n;
        }
        i += more;
        tape[n] = spelt.row;
        odd = false;
        n += 1;
    }
    n
}

// A text with `~` for LF.
pub fn text_of(text: &[u8], input: &mut [u8]) -> usize
    ensures { result ≤ length input.new }
{
    let n = text.len().min(input.len());
    for i in 0..n {
        let c = text[i];
        input[i] = if c == b'~' { 10 } else { c };
    }
    n
}

// How many rows of a buffer are lent.
pub fn room_in(buffer: &[u8], text: &[u8]) -> usize
    ensures { result ≤ length buffer.now }
{
    let room = number(text) as usize;
    if buffer.len() < 4000 {
        return 0;
    }
    room.min(4000)
}

// The old content of what is lent: each place holds what the one before it holds and a step more, up to 255.
pub fn fill<T: From<u8> + Copy>(places: &mut [T], first: u64, step: u8) {
    let mut b = (first % 256) as u8;
    for place in places.iter_mut() {
        *place = T::from(b);
        b = b.wrapping_add(step);
    }
}
