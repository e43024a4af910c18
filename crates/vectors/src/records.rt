// A record as it is asked and as it is written.
use crate::answers::{Output, put, put_all, put_decimal, put_number};
use crate::asked::{
    behind_first, byte, digit_of, first_of, integer, next_part, number, part, rest,
};
use crate::speed_cases::{put_speed, speed_of};
use reading::Block;
use speeds::Speed;
use words::{Value, Word};

// What stands behind the digits at the front of a text.
fn behind_digits(text: &[u8]) -> &[u8] {
    for (i, c) in text.iter().enumerate() {
        if digit_of(*c).is_none() {
            return &text[i..];
        }
    }
    &text[text.len()..]
}

// A value, with its kind before it.
fn value_of(text: &[u8]) -> Value {
    let digits = behind_first(text);
    match first_of(text) {
        b'S' => Value::Speed(speed_of(digits)),
        b'D' => Value::Dimension(integer(digits)),
        _ => Value::Number(number(digits)),
    }
}

// A word; a cleared place where there is none.
fn word_of(text: &[u8]) -> Word {
    let letter = first_of(text);
    let behind = behind_first(text);
    if letter == b'#' {
        return Word {
            letter: byte(behind),
            value: value_of(behind_digits(behind)),
        };
    }
    Word {
        letter,
        value: value_of(behind),
    }
}

// A block with the words of a text in its places.
fn with_words(block: Block, text: &[u8]) -> Block {
    let mut next = block;
    let mut at: usize = 0;
    for place in next.words.iter_mut() {
        *place = word_of(part(&text[at..]));
        at = next_part(text, at);
    }
    next
}

// What stands behind a "-", where it stands.
fn past_dash(text: &[u8]) -> &[u8] {
    if first_of(text) == b'-' {
        return behind_first(text);
    }
    text
}

pub fn record_of(text: &[u8]) -> Block {
    let alignment = rest(text);
    let sequence = rest(alignment);
    let count = rest(sequence);
    let mut block = reading::records::empty_block();
    block.skip = first_of(text) == b'/';
    block.alignment = first_of(alignment) == b':';
    block.numbered = first_of(sequence) != b'-';
    block.sequence = number(past_dash(sequence));
    block.count = number(count) as usize;
    with_words(block, rest(count))
}

fn is_cleared(word: Word) -> bool {
    word.letter == 0 && matches!(word.value, Value::Number(0))
}

// How many places are written: those of the count, and behind it up to the last that is not cleared.
fn places_written(block: Block) -> usize {
    let mut most = block.count;
    for (i, word) in block.words.iter().enumerate() {
        if most <= i && !is_cleared(*word) {
            most = i + 1;
        }
    }
    most
}

// An address, or the number of what is none.
fn put_letter(out: &mut Output, start: usize, letter: u8) -> usize {
    if letter < b'A' || b'Z' < letter {
        let at = put(out, start, b'#');
        return put_decimal(out, at, letter as u64);
    }
    put(out, start, letter)
}

fn put_dimension(out: &mut Output, start: usize, z: i64) -> usize {
    let m = punching::magnitude_of(z);
    let at = put(out, start, b'D');
    if m.minus {
        let next = put(out, at, b'-');
        return put_decimal(out, next, m.size);
    }
    put_decimal(out, at, m.size)
}

fn put_kind(out: &mut Output, start: usize, kind: u8, v: u64) -> usize {
    let at = put(out, start, kind);
    put_decimal(out, at, v)
}

fn put_said(out: &mut Output, start: usize, speed: Speed) -> usize {
    let at = put(out, start, b'S');
    put_speed(out, at, speed)
}

fn put_word(out: &mut Output, start: usize, word: Word) -> usize {
    let value = word.value;
    let letter = put(out, start, b' ');
    let at = put_letter(out, letter, word.letter);
    match value {
        Value::Number(v) => put_kind(out, at, b'N', v),
        Value::Dimension(z) => put_dimension(out, at, z),
        Value::Speed(s) => put_said(out, at, s),
    }
}

fn put_words(out: &mut Output, start: usize, block: Block) -> usize {
    let most = places_written(block).min(22);
    let mut at = start;
    for word in &block.words[..most] {
        at = put_word(out, at, *word);
    }
    at
}

fn put_either(out: &mut Output, start: usize, first: bool, a: u8, b: u8) -> usize {
    let at = put(out, start, b' ');
    if first {
        return put(out, at, a);
    }
    put(out, at, b)
}

// A number, or "-" where there is none, and behind it what its field holds.
fn put_sequence(out: &mut Output, start: usize, numbered: bool, sequence: u64) -> usize {
    if numbered {
        return put_number(out, start, sequence);
    }
    let at = put_all(out, start, b" -");
    if sequence == 0 {
        return at;
    }
    put_decimal(out, at, sequence)
}

pub fn put_record(out: &mut Output, start: usize, block: Block) -> usize {
    let skip = block.skip;
    let alignment = block.alignment;
    let next = put_either(out, start, skip, b'/', b'-');
    let sequence = put_either(out, next, alignment, b':', b'N');
    let count = put_sequence(out, sequence, block.numbered, block.sequence);
    let words = put_number(out, count, block.count as u64);
    put_words(out, words, block)
}
