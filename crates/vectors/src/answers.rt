// Answers, composed in the output's buffer: each put answers the place behind what it put. A full buffer is written, and filled anew.
use rows::Refusal;
use std::io;
use std::io::{Stdout, Write};

// How many bytes of answers are held before they are written.
const ROOM: usize = 65536;

// Standard output, the bytes that are held for it, and why a write failed, where one did: then no more is written.
#[derive(Drop)]
pub struct Output {
    to: Stdout,
    bytes: [u8; ROOM],
    failed: Option<io::Error>,
}

impl Output {
    pub fn new(to: Stdout) -> Output {
        Output {
            to,
            bytes: [0; ROOM],
            failed: None,
        }
    }

    // Why a write failed, where one did.
    pub fn outcome(&self) -> io::Result<()> {
        match self.failed {
            Some(e) => Err(e),
            None => Ok(()),
        }
    }
}

// Bytes that are written past those held.
pub fn write_bytes(out: &mut Output, bytes: &[u8]) {
    out.failed = write_unless(out.failed, out.to, bytes);
}

// Why a write failed, this one or one before it, behind which nothing is written.
fn write_unless(failed: Option<io::Error>, to: Stdout, bytes: &[u8]) -> Option<io::Error> {
    if failed.is_some() {
        return failed;
    }
    let mut writer = to;
    writer.write_all(bytes).err()
}

pub fn put(out: &mut Output, at: usize, b: u8) -> usize {
    if at < ROOM {
        out.bytes[at] = b;
        return at + 1;
    }
    write_out(out, ROOM);
    out.bytes[0] = b;
    1
}

pub fn put_all(out: &mut Output, start: usize, text: &[u8]) -> usize {
    let mut at = start;
    for b in text {
        at = put(out, at, *b);
    }
    at
}

pub fn write_out(out: &mut Output, at: usize) {
    if at <= ROOM {
        out.failed = write_unless(out.failed, out.to, &out.bytes[0..at]);
    }
}

pub fn put_decimal(out: &mut Output, at: usize, n: u64) -> usize {
    let mut digits = [0u8; 20];
    let k = text::put_decimal(&mut digits, 0, n);
    put_all(out, at, &digits[..k])
}

// A space and the number.
pub fn put_number(out: &mut Output, start: usize, n: u64) -> usize {
    let at = put(out, start, b' ');
    put_decimal(out, at, n)
}

pub fn put_refusal(out: &mut Output, at: usize, r: Refusal) -> usize {
    let place = put_number(out, at, u32::from(r.cause) as u64);
    put_number(out, place, r.place as u64)
}

// Number and place of an answer, 0 and 0 of one that was given.
pub fn put_outcome<T>(out: &mut Output, at: usize, answer: &Result<T, Refusal>) -> usize {
    match answer {
        Ok(_) => put_all(out, at, b" 0 0"),
        Err(r) => put_refusal(out, at, *r),
    }
}

// Number, place and value of an answer that was given.
pub fn put_value(out: &mut Output, at: usize, value: u64) -> usize {
    let next = put_all(out, at, b" 0 0");
    put_number(out, next, value)
}

// The same of one that was refused.
pub fn put_refused(out: &mut Output, at: usize, r: Refusal) -> usize {
    let next = put_refusal(out, at, r);
    put_number(out, next, 0)
}

// Either of them, where the value is a count.
pub fn put_counted(out: &mut Output, at: usize, count: Result<usize, Refusal>) -> usize {
    match count {
        Ok(n) => put_value(out, at, n as u64),
        Err(r) => put_refused(out, at, r),
    }
}

// The letter that spells a character in a tape, or 0.
fn letter_of(c: u8) -> u8 {
    match c {
        10 => b'~',
        9 => b'^',
        0 => b'_',
        127 => b'`',
        13 => b'&',
        b'~' | b'^' | b'_' | b'`' | b'&' | b'?' | b'\\' => 0,
        _ => { if c < 33 { 0 } else { c } }
    }
}

fn put_digit(out: &mut Output, at: usize, n: u8) -> usize {
    put(out, at, 48 + n % 10)
}

// A row as a tape spells it: by its letter, with "?" where its holes are odd, or by its number.
fn put_row(out: &mut Output, at: usize, row: u8) -> usize {
    let letter = letter_of(row % 128);
    if letter == 0 {
        let number = put(out, at, b'\\');
        let tens = put_digit(out, number, row / 100);
        let ones = put_digit(out, tens, row / 10);
        return put_digit(out, ones, row);
    }
    if rows::has_even_holes(row) {
        return put(out, at, letter);
    }
    let next = put(out, at, b'?');
    put(out, next, letter)
}

// A space and the rows, where there are any.
pub fn put_rows(out: &mut Output, start: usize, rows: &[u8]) -> usize {
    if rows.is_empty() {
        return start;
    }
    let mut at = put(out, start, b' ');
    for row in rows {
        at = put_row(out, at, *row);
    }
    at
}
