// Answers the lines on standard input, as LINES.md says. The proofs here are of safety alone.
#![tactic(auto)]

ghost use Rattle.std.specs.Prelude.{◌≤◌, length, IfOk};

mod answers;
mod asked;
mod block_cases;
mod correction_cases;
mod index_cases;
mod line_cases;
mod punch_cases;
mod records;
mod row_cases;
mod salvage_cases;
mod shorthand_cases;
mod speed_cases;

use answers::{Output, put, put_all, write_bytes, write_out};
use std::io;
use std::io::Read;
use text::finding::find_byte;

// A line that is longer is written as it is.
const MOST: usize = 60000;

// What is held of the input between two reads: the bytes of a line that has begun, and whether that is one too long.
#[derive(Clone, Copy)]
struct Held {
    bytes: usize,
    long: bool,
}

// What a line asks, by one letter or by two, and what stands behind them.
#[derive(Clone, Copy)]
enum Request<'a> {
    Letter(u8, &'a [u8]),
    Pair(u8, u8, &'a [u8]),
}

// Room for what is read, and for tapes.
fn large_buffer() -> [u8; 65536] {
    [0; 65536]
}

// As many NUL rows as are just too many.
fn blank_tape() -> [u8; 1000001] {
    [0; 1000001]
}

// What is asked of reading.
fn answer_reading(
    letter: u8,
    asked: &[u8],
    tape: &mut [u8],
    blank: &[u8],
    out: &mut Output,
    at: usize,
) -> usize {
    match letter {
        b'E' => row_cases::entry(asked, out, at),
        b'R' => row_cases::stages(asked, tape, out, at),
        b'M' => row_cases::many(asked, blank, out, at),
        b'K' => row_cases::kept(asked, tape, out, at),
        b'T' => row_cases::head(asked, tape, out, at),
        b'S' => speed_cases::speed(asked, out, at),
        b'C' => speed_cases::code(asked, out, at),
        b'X' => speed_cases::exact(asked, out, at),
        b'F' => shorthand_cases::format(asked, out, at),
        b'G' => shorthand_cases::agreed(asked, out, at),
        b'B' => block_cases::count(asked, tape, out, at),
        b'W' => block_cases::block(asked, tape, out, at),
        b'P' => block_cases::part_of(asked, tape, out, at),
        _ => at,
    }
}

// What is asked of punching and of the listing.
fn answer_punching(
    letter: u8,
    asked: &[u8],
    tape: &mut [u8],
    buffer: &mut [u8],
    out: &mut Output,
    at: usize,
) -> usize {
    match letter {
        b'H' => punch_cases::head(asked, buffer, out, at),
        b'J' => punch_cases::record(asked, buffer, out, at),
        b'U' => punch_cases::measure(asked, out, at),
        b'V' => punch_cases::write(asked, buffer, out, at),
        b'D' => punch_cases::again(asked, tape, buffer, out, at),
        b'Q' => punch_cases::round(asked, tape, buffer, out, at),
        b'A' => punch_cases::magnitude(asked, out, at),
        b'O' => line_cases::header(asked, tape, out, at),
        b'L' => line_cases::listed(asked, tape, out, at),
        b'Z' => line_cases::last(asked, buffer, out, at),
        _ => at,
    }
}

// What is asked of the index, and of images that it is kept with.
fn answer_index(
    letter: u8,
    asked: &[u8],
    tape: &mut [u8],
    buffer: &mut [u8],
    out: &mut Output,
    at: usize,
) -> usize {
    match letter {
        b'B' => index_cases::build(asked, tape, out, at),
        b'A' => index_cases::append(asked, tape, buffer, out, at),
        b'O' => index_cases::take_off(asked, tape, buffer, out, at),
        b'L' => index_cases::append_long(asked, out, at),
        b'W' => index_cases::block(asked, tape, out, at),
        b'P' => index_cases::part_of(asked, tape, out, at),
        b'N' => index_cases::find(asked, out, at),
        _ => at,
    }
}

// What is asked of correction tapes.
fn answer_corrections(
    letter: u8,
    asked: &[u8],
    tape: &mut [u8],
    buffer: &mut [u8],
    out: &mut Output,
    at: usize,
) -> usize {
    match letter {
        b'P' => correction_cases::part_of(asked, tape, buffer, out, at),
        b'E' => correction_cases::entry(asked, tape, buffer, out, at),
        b'I' => correction_cases::indexed(asked, out, at),
        _ => at,
    }
}

// What is asked of damaged tapes.
fn answer_salvage(letter: u8, asked: &[u8], tape: &mut [u8], out: &mut Output, at: usize) -> usize {
    match letter {
        b'V' => salvage_cases::save(asked, tape, out, at),
        _ => at,
    }
}

// What a line asks: one capital before a space or two, in a line that is not too long.
fn asked_by(line: &[u8]) -> Option<Request<'_>> {
    if MOST < line.len() {
        return None;
    }
    match line {
        [letter @ b'A'..=b'Z', b' ', asked @ ..] => Some(Request::Letter(*letter, asked)),
        [case @ b'A'..=b'Z', letter @ b'A'..=b'Z', b' ', asked @ ..] => {
            Some(Request::Pair(*case, *letter, asked))
        }
        _ => None,
    }
}

// The answer to a line that one letter asks.
fn answer_letter(
    letter: u8,
    asked: &[u8],
    tape: &mut [u8],
    buffer: &mut [u8],
    blank: &[u8],
    out: &mut Output,
    at: usize,
) -> usize {
    let next = answer_reading(letter, asked, tape, blank, out, at);
    answer_punching(letter, asked, tape, buffer, out, next)
}

// The answer to a line that two letters ask.
fn answer_pair(
    case: u8,
    letter: u8,
    asked: &[u8],
    tape: &mut [u8],
    buffer: &mut [u8],
    out: &mut Output,
    at: usize,
) -> usize {
    match case {
        b'I' => answer_index(letter, asked, tape, buffer, out, at),
        b'C' => answer_corrections(letter, asked, tape, buffer, out, at),
        b'S' => answer_salvage(letter, asked, tape, out, at),
        _ => at,
    }
}

// The answer to what a line asks.
fn answer(
    asked: Request<'_>,
    tape: &mut [u8],
    buffer: &mut [u8],
    blank: &[u8],
    out: &mut Output,
    at: usize,
) -> usize {
    match asked {
        Request::Letter(letter, text) => answer_letter(letter, text, tape, buffer, blank, out, at),
        Request::Pair(case, letter, text) => answer_pair(case, letter, text, tape, buffer, out, at),
    }
}

// A line and, where it is asked, the answer behind it; the end of one that is too long is plain.
fn run_line(
    line: &[u8],
    plain: bool,
    tape: &mut [u8],
    buffer: &mut [u8],
    blank: &[u8],
    out: &mut Output,
    start: usize,
) -> usize {
    let at = put_all(out, start, line);
    let end = match asked_by(line) {
        Some(asked) if !plain => {
            let arrow = put_all(out, at, b" ->");
            answer(asked, tape, buffer, blank, out, arrow)
        }
        _ => at,
    };
    put(out, end, b'\n')
}

// The whole lines of what was read; answers where the rest begins.
fn run_lines(
    read: &[u8],
    long: bool,
    tape: &mut [u8],
    buffer: &mut [u8],
    blank: &[u8],
    out: &mut Output,
) -> usize
    ensures { result ≤ length read.now }
{
    let mut at = 0;
    let mut from = 0;
    let mut plain = long;
    // No `for`: lines differ in length.
    while from < read.len() {
        let lf = find_byte(read, from, read.len(), b'\n');
        if read.len() <= lf {
            write_out(out, at);
            return from;
        }
        at = run_line(&read[from..lf], plain, tape, buffer, blank, out, at);
        plain = false;
        from = lf + 1;
    }
    write_out(out, at);
    from
}

// The end of the input: a last line without LF.
fn run_last(
    line: &[u8],
    long: bool,
    tape: &mut [u8],
    buffer: &mut [u8],
    blank: &[u8],
    out: &mut Output,
) {
    if 0 < line.len() || long {
        let at = run_line(line, long, tape, buffer, blank, out, 0);
        write_out(out, at);
    }
}

// Reads once, behind the bytes that are held; answers how many bytes there are then.
fn read_more<R: Read>(from: &mut R, input: &mut [u8], held: usize) -> io::Result<usize>
    ensures { IfOk result (λ n. n ≤ length input.new) }
{
    if input.len() <= held {
        return Ok(input.len());
    }
    let got = from.read(&mut input[held..])?;
    Ok(held + got)
}

// What stands from one place up to another, moved to the front; answers how much that is.
fn move_front(input: &mut [u8], from: usize, to: usize) -> usize
    ensures { result ≤ length input.new }
{
    let end = to.min(input.len());
    let start = from.min(end);
    input.copy_within(start..end, 0);
    end - start
}

// Reads once and answers what lines that ends; at the end of the input the last line, which may lack its LF, and nothing is held behind it.
fn take_turn<R: Read>(
    from: &mut R,
    held: Held,
    input: &mut [u8],
    tape: &mut [u8],
    buffer: &mut [u8],
    blank: &[u8],
    out: &mut Output,
) -> io::Result<Option<Held>> {
    let bytes = held.bytes;
    let long = held.long;
    let n = read_more(from, input, bytes)?;
    if n <= bytes {
        run_last(&input[0..n], long, tape, buffer, blank, out);
        return Ok(None);
    }
    let rest = run_lines(&input[0..n], long, tape, buffer, blank, out);
    let kept = move_front(input, rest, n);
    Ok(Some(hold(input, kept, long && rest == 0, out)))
}

// What is held of a line that has begun: nothing of one that is too long, which is written as it comes.
fn hold(input: &[u8], bytes: usize, long: bool, out: &mut Output) -> Held {
    if !long && bytes <= MOST {
        return Held { bytes, long: false };
    }
    if bytes <= input.len() {
        write_bytes(out, &input[0..bytes]);
    }
    Held {
        bytes: 0,
        long: true,
    }
}

// A proved loop has to end, and nothing says that the input does: the turns count down from a number that no run uses up.
fn run_all<R: Read>(
    from: &mut R,
    input: &mut [u8],
    tape: &mut [u8],
    buffer: &mut [u8],
    blank: &[u8],
    out: &mut Output,
) -> io::Result<()> {
    let mut held = Held {
        bytes: 0,
        long: false,
    };
    for _ in 0..u64::MAX {
        let next = take_turn(from, held, input, tape, buffer, blank, out)?;
        out.outcome()?;
        let Some(next) = next else {
            return Ok(());
        };
        held = next;
    }
    Ok(())
}

fn main(rt: HostRuntime) -> io::Result<()> {
    let mut input = large_buffer();
    let mut tape = large_buffer();
    let mut buffer = large_buffer();
    let mut out = Output::new(rt.stdout());
    let blank = blank_tape();
    run_all(
        &mut rt.stdin(),
        &mut input,
        &mut tape,
        &mut buffer,
        &blank[..],
        &mut out,
    )
}
