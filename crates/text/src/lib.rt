// Text put into a line: numbers, words and a block's start. Each put writes behind what stands, and answers the place behind it.
#![tactic(auto)]

ghost use Rattle.std.specs.Prelude.{◌≡◌, cond, [], ◌∷◌, ◌+◌, ◌≤◌, ◌<◌, length};
ghost use Rattle.words.specs.declared.Value.TheVariants.{Dimension};
ghost use Rattle.text.specs.Text.{decimal, full, speed_text, value_text, word_text, sequence_text, start_text};
ghost use Rattle.text.specs.Line.{Put};

pub mod finding;

use parts::Begun;
use speeds::Speed;
use words::{Value, Word};

// A lent line and a place, and no struct of both: the public clauses speak of the line before and behind each put, which a struct of a loan would not shorten.
pub fn put(line: &mut [u8], at: usize, b: u8) -> usize
    requires { at < length line.old }
    ensures { Put line.old at (b ∷ []) line.new result }
{
    line[at] = b;
    at + 1
}

pub fn put_all(line: &mut [u8], start: usize, text: &[u8]) -> usize
    requires { start + length text.now ≤ length line.old }
    ensures { Put line.old start text.now line.new result }
{
    let end = start + text.len();
    line[start..end].copy_from_slice(text);
    end
}

// A number in plain decimal.
pub fn put_decimal(line: &mut [u8], at: usize, v: u64) -> usize
    requires { at + 20 ≤ length line.old }
    ensures put { Put line.old at (decimal v) line.new result }
    ensures end { result ≤ at + 20 }
{
    let mut digits = [0u8; 20];
    let k = io::decimal(v, &mut digits);
    put_all(line, at, &digits[..k])
}

// The same with zeros in front up to n digits.
fn put_full(line: &mut [u8], at: usize, n: u8, v: u64) -> usize
    requires { at + n + 20 ≤ length line.old }
    ensures put { Put line.old at (full n v) line.new result }
    ensures end { result ≤ at + n + 20 }
{
    let mut digits = [0u8; 20];
    let k = io::decimal(v, &mut digits);
    let first = at + (n as usize).saturating_sub(k);
    line[at..first].fill(b'0');
    put_all(line, first, &digits[..k])
}

// A minus before a negative number.
fn put_sign(line: &mut [u8], at: usize, minus: bool) -> usize
    requires { at < length line.old }
    ensures { Put line.old at (cond minus (45 ∷ []) []) line.new result }
{
    if minus { put(line, at, b'-') } else { at }
}

fn put_dimension(line: &mut [u8], at: usize, z: i64) -> usize
    requires { at + 21 ≤ length line.old }
    ensures put { Put line.old at (value_text (Dimension z)) line.new result }
    ensures end { result ≤ at + 21 }
{
    let next = put_sign(line, at, z < 0);
    put_decimal(line, next, z.unsigned_abs())
}

// A stop and rapid by their words.
fn put_speed(line: &mut [u8], at: usize, speed: Speed) -> usize
    requires { at + 20 ≤ length line.old }
    ensures put { Put line.old at (speed_text speed) line.new result }
    ensures end { result ≤ at + 20 }
{
    match speed {
        Speed::Stop => put_all(line, at, b"stop"),
        Speed::Rapid => put_all(line, at, b"rapid"),
        Speed::Rate(v) => put_decimal(line, at, v),
    }
}

fn put_value(line: &mut [u8], at: usize, value: Value) -> usize
    requires { at + 21 ≤ length line.old }
    ensures put { Put line.old at (value_text value) line.new result }
    ensures end { result ≤ at + 21 }
{
    match value {
        Value::Number(v) => put_decimal(line, at, v),
        Value::Dimension(z) => put_dimension(line, at, z),
        Value::Speed(s) => put_speed(line, at, s),
    }
}

// A space, the letter and the value.
pub fn put_word(line: &mut [u8], at: usize, word: Word) -> usize
    requires { at + 23 ≤ length line.old }
    ensures put { Put line.old at (word_text word) line.new result }
    ensures end { result ≤ at + 23 }
{
    let next = put(line, at, b' ');
    let then = put(line, next, word.letter);
    put_value(line, then, word.value)
}

// The sequence number, or "-" where there is none.
fn put_sequence(line: &mut [u8], at: usize, digits: u8, begun: Begun) -> usize
    requires { at + digits + 20 ≤ length line.old }
    ensures put { Put line.old at (sequence_text digits begun) line.new result }
    ensures end { result ≤ at + digits + 20 }
{
    if begun.numbered {
        put_full(line, at, digits, begun.sequence)
    } else {
        put(line, at, b'-')
    }
}

// N or ":", the sequence number, and "/" or "-".
pub fn put_start(line: &mut [u8], start: usize, digits: u8, begun: Begun) -> usize
    requires { start + digits + 24 ≤ length line.old }
    ensures put { Put line.old start (start_text digits begun) line.new result }
    ensures end { result ≤ start + digits + 24 }
{
    let at = put(line, start, if begun.alignment { b':' } else { b'N' });
    let number = put(line, at, b' ');
    let next = put_sequence(line, number, digits, begun);
    let mark = put(line, next, b' ');
    put(line, mark, if begun.skip { b'/' } else { b'-' })
}
