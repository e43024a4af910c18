// Follows the slides of a tape: a line for each block with its number and the place of each axis that the shorthand has; and at the end the number of blocks, or the refusal.
// Standard input is the listing's: the edition, a space, the shorthand, LF and the rows. The first argument is the profile, as the listing's; the second, where it is "/",
// says that blocks with "/" count; the third is the travel: axes with a comma between them, each a letter, low, ":" and high, as in X-100:100,Y0:5. An axis that it does
// not name may go one million million million either way. A travel that is not in this form is refused by 1 at 0, before all else.
// The lines are made by `printing`, the places are found by `slides`, a step for each block; the proofs of the program's own functions are of safety alone.
#![tactic(auto)]

ghost use Rattle.std.specs.Prelude.{◌≡◌, ◌≤◌, ◌<◌, length};

use index::building::build_under;
use index::finding::find_entry;
use lines::Said;
use lines::input::{count_listed, find_header};
use printing::{ARGUMENT, Output, put_block, read_input, read_profile, space, write_last};
use profile::Terms;
use reading::Block;
use rows::Cause;
use shorthand::{Kind, Usable};
use slides::axes::{AXES, axis_named};
use slides::{Slides, Travel};
use std::env::FillError;
use std::io;
use std::io::Write;
use std::rt::Env;
use text::finding::find_byte;
use words::{Value, Word};

// The most blocks of 60,000 rows: the shortest block is a letter, a digit and LF.
const BLOCKS: usize = 20000;

// The most that a travel may be, and a number past it, for all that are larger.
const FARTHEST: u64 = 1000000000000000000;

const BEYOND: i64 = 1000000000000000001;

// How blocks are followed: what the caller gave.
#[derive(Clone, Copy)]
struct Asked {
    slashed: bool,
    travel: Travel,
}

// The 200 bytes that a header may have, 60,000 rows, and one byte more, by which too many rows are seen.
const INPUT: usize = 60201;

// Room for the travel of 14 axes.
const TRAVEL: usize = 800;

// A whole number as a place; one that is larger than any travel may be is beyond.
fn as_place(minus: bool, n: u64) -> i64 {
    if FARTHEST < n {
        return if minus { -BEYOND } else { BEYOND };
    }
    let z = n as i64;
    if minus { -z } else { z }
}

// A whole number in plain decimal, "-" before it or not.
fn read_place(text: &[u8]) -> Option<i64> {
    let minus = text.first() == Some(&b'-');
    let digits = if minus { &text[1..] } else { text };
    if digits.is_empty() {
        return None;
    }
    let mut n: u64 = 0;
    for c in digits {
        if !c.is_ascii_digit() {
            return None;
        }
        if n <= FARTHEST {
            n = 10 * n + (*c - b'0') as u64;
        }
    }
    Some(as_place(minus, n))
}

// A travel with one axis of the text: its letter, low, ":" and high.
fn read_axis(text: &[u8], travel: Travel) -> Option<Travel> {
    if text.is_empty() {
        return None;
    }
    let a = axis_named(text[0])?;
    let colon = find_byte(text, 1, text.len(), b':');
    if text.len() <= colon {
        return None;
    }
    let low = read_place(&text[1..colon])?;
    let high = read_place(&text[colon + 1..])?;
    let mut next = travel;
    next.low[a] = low;
    next.high[a] = high;
    Some(next)
}

// The travel of all axes, where the text is in form.
fn read_travel(text: &[u8]) -> Option<Travel> {
    let mut travel = Travel {
        low: [-1000000000000000000; 14],
        high: [1000000000000000000; 14],
    };
    let mut from: usize = 0;
    // No `for`: axes differ in length.
    while from < text.len() {
        let comma = find_byte(text, from, text.len(), b',');
        travel = read_axis(&text[from..comma], travel)?;
        from = comma + 1;
    }
    Some(travel)
}

// Which axes the shorthand has.
fn used_axes(usable: Usable) -> [bool; 14] {
    let mut used = [false; 14];
    for item in &usable.format.items[..usable.format.count] {
        let Kind::Dimension(_) = item.kind else {
            continue;
        };
        if let Some(a) = axis_named(item.letter) {
            used[a] = true;
        }
    }
    used
}

// A block with the places of the axes for its words.
fn place_block(block: Block, used: [bool; 14], slides: Slides) -> Block {
    let mut shown = block;
    let mut count: usize = 0;
    for (a, letter) in AXES.iter().enumerate() {
        if used[a] {
            shown.words[count] = Word {
                letter: *letter,
                value: Value::Dimension(slides.places[a]),
            };
            count += 1;
        }
    }
    shown.count = count;
    shown
}

// The line of a block, with the places of the axes behind it.
fn write_line<W: Write>(
    writer: &mut W,
    usable: Usable,
    block: Block,
    used: [bool; 14],
    slides: Slides,
    out: &mut Output,
) -> io::Result<()> {
    let shown = place_block(block, used, slides);
    let size = put_block(&mut out[..], usable.format.sequence, shown);
    writer.write_all(&out[..size])
}

// A line for each block, a step from one to the next; and at the end their number, or the refusal.
fn write_steps<W: Write>(
    writer: &mut W,
    terms: &Terms<'_>,
    tape: &[u8],
    usable: Usable,
    firsts: &[usize],
    asked: Asked,
    out: &mut Output,
) -> io::Result<()> {
    let used = used_axes(usable);
    let mut slides = Slides {
        places: [0; 14],
        increments: false,
    };
    for n in 0..firsts.len() {
        slides = match slides::step(terms, tape, firsts, n, slides, asked.travel, asked.slashed) {
            Ok(next) => next,
            Err(r) => return write_last(writer, Err(Said::from(r)), &mut out[..]),
        };
        // A block that was followed is there.
        let Ok(entry) = find_entry(tape, usable, firsts, n) else {
            return Ok(());
        };
        write_line(writer, usable, entry.block, used, slides, out)?;
    }
    write_last(writer, Ok(firsts.len()), &mut out[..])
}

// The blocks of a tape that was judged, by its index.
fn follow_tape<W: Write>(
    writer: &mut W,
    terms: &Terms<'_>,
    tape: &[u8],
    asked: Asked,
    out: &mut Output,
) -> io::Result<()> {
    let mut firsts = [0usize; BLOCKS];
    let mut numbers = [0u64; BLOCKS];
    let Ok(usable) = profile::parse(terms) else {
        return Ok(());
    };
    match build_under(tape, usable, &mut firsts, &mut numbers) {
        Ok(c) => write_steps(writer, terms, tape, usable, &firsts[..c], asked, out),
        Err(r) => write_last(writer, Err(Said::from(r)), &mut out[..]),
    }
}

// Standard input, with what the arguments ask for.
fn follow_input<W: Write>(
    writer: &mut W,
    input: &[u8],
    profile: &[u8],
    travel: Option<Travel>,
    slashed: bool,
    out: &mut Output,
) -> io::Result<()> {
    let wrong = Err(Said::from(Cause::Edition.at(0)));
    let Some(travel) = travel else {
        return write_last(writer, wrong, &mut out[..]);
    };
    let Ok(header) = find_header(input) else {
        return write_last(writer, wrong, &mut out[..]);
    };
    let terms = Terms {
        edition: header.edition,
        shorthand: &input[header.from..header.to],
        profile,
    };
    let tape = &input[header.rows..];
    if let Err(r) = count_listed(&terms, tape) {
        return write_last(writer, Err(Said::from(r)), &mut out[..]);
    }
    let asked = Asked { slashed, travel };
    follow_tape(writer, &terms, tape, asked, out)
}

// Whether the second argument is "/".
fn read_switch(rt: &impl Env) -> bool {
    let mut argument = space::<ARGUMENT>();
    match rt.arg(2, &mut argument) {
        Ok(n) => n == 1 && argument[0] == b'/',
        Err(_) => false,
    }
}

// The third argument; one that is too long is in no form.
fn read_third(rt: &impl Env) -> Option<Travel> {
    let mut argument = space::<TRAVEL>();
    match rt.arg(3, &mut argument) {
        Ok(n) => read_travel(&argument[..n]),
        Err(FillError::NotPresent) => read_travel(b""),
        Err(FillError::TooLong) => None,
    }
}

fn main(rt: HostRuntime) -> io::Result<()> {
    let mut input = space::<INPUT>();
    let mut argument = space::<ARGUMENT>();
    let mut out: Output = space();
    let size = read_profile(&rt, &mut argument);
    let slashed = read_switch(&rt);
    let travel = read_third(&rt);
    let n = read_input(&mut rt.stdin(), &mut input)?;
    let input = &input[..n];
    let profile = &argument[..size];
    follow_input(&mut rt.stdout(), input, profile, travel, slashed, &mut out)
}
