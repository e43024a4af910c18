// Lists a corrected program: a line for each entry of the corrected listing, and their count.
// Standard input holds the edition, a space, the shorthand, a space, the number of the correction's rows, a space, the number of the master's, LF, and then the rows
// of the correction and those of the master. Where the counts are not there, or are not those of the rows behind the header, the answer is 1 at 0; a tape of more than
// 60,000 rows is refused by 4 at 60,000, in its turn. The first argument, where there is one, is the profile. No more than 120,201 bytes are read: an input that is
// longer has too many rows, and is refused by 1, its rows being fewer than said, or by 4.
// The lines are made by `printing`, the entries are found by `corrections`; the proofs of the program's own functions are of safety alone.
#![tactic(auto)]

ghost use Rattle.std.specs.Prelude.{◌≡◌, ◌≤◌, length, IfSome, IfOk};

use corrections::listed::{indexed_entry, is_new};
use corrections::{Named, Tape};
use index::building::build_under;
use index::finding::find_entry;
use lines::Said;
use lines::input::{count_listed, find_header};
use printing::{ARGUMENT, Output, put_block, read_input, read_profile, space, write_last};
use profile::Terms;
use rows::Cause;
use shorthand::Usable;
use std::io;
use std::io::Write;
use text::finding::find_byte;

// Where the shorthand of the header's text ends, and how many of the rows behind the header are the correction's.
#[derive(Clone, Copy)]
struct Sizes {
    shorthand: usize,
    correction: usize,
}

// A tape, and the first rows and numbers of its blocks.
#[derive(Clone, Copy)]
struct Indexed<'a> {
    tape: &'a [u8],
    firsts: &'a [usize],
    numbers: &'a [u64],
}

// The most blocks of 60,000 rows: the shortest block is a letter, a digit and LF.
const BLOCKS: usize = 20000;

// More rows than both tapes may have together.
const TOO_MANY: usize = 120001;

// The 200 bytes that a header may have, twice 60,000 rows, and one byte more, by which too many rows are seen.
const INPUT: usize = 120201;

// A count in plain decimal.
fn read_count(text: &[u8]) -> Option<usize> {
    if text.is_empty() {
        return None;
    }
    let mut n: usize = 0;
    for c in text {
        if !c.is_ascii_digit() || TOO_MANY < n {
            return None;
        }
        n = 10 * n + (*c - b'0') as usize;
    }
    Some(n)
}

// The shorthand and the two counts behind it, with a space before each, where together they are so many rows.
fn split_text(text: &[u8], rows: usize) -> Option<Sizes>
    ensures { IfSome result (λ s. (s.shorthand ≤ length text.now) × (s.correction ≤ rows)) }
{
    let first = find_byte(text, 0, text.len(), b' ');
    if text.len() <= first {
        return None;
    }
    let second = find_byte(text, first + 1, text.len(), b' ');
    if text.len() <= second {
        return None;
    }
    let correction = read_count(&text[first + 1..second])?;
    let master = read_count(&text[second + 1..])?;
    if rows < correction || rows - correction != master {
        return None;
    }
    Some(Sizes {
        shorthand: first,
        correction,
    })
}

// The line of block n of a tape, by its index.
fn write_block<W: Write>(
    writer: &mut W,
    from: &Indexed<'_>,
    usable: Usable,
    n: usize,
    out: &mut Output,
) -> io::Result<()> {
    let Ok(entry) = find_entry(from.tape, usable, from.firsts, n) else {
        return Ok(());
    };
    let size = put_block(&mut out[..], usable.format.sequence, entry.block);
    writer.write_all(&out[..size])
}

// The line of an entry.
fn write_named<W: Write>(
    writer: &mut W,
    correction: &Indexed<'_>,
    master: &Indexed<'_>,
    usable: Usable,
    named: Named,
    out: &mut Output,
) -> io::Result<()> {
    match named.tape {
        Tape::Correction => write_block(writer, correction, usable, named.block, out),
        Tape::Master => write_block(writer, master, usable, named.block, out),
    }
}

// The lines of the entries in the master's order.
fn write_masters<W: Write>(
    writer: &mut W,
    correction: &Indexed<'_>,
    master: &Indexed<'_>,
    usable: Usable,
    out: &mut Output,
) -> io::Result<()> {
    for n in 0..master.numbers.len() {
        let Ok(named) = indexed_entry(correction.numbers, master.numbers, n) else {
            return Ok(());
        };
        write_named(writer, correction, master, usable, named, out)?;
    }
    Ok(())
}

// The lines of the entries that only the correction has, and how many they are.
fn write_new<W: Write>(
    writer: &mut W,
    correction: &Indexed<'_>,
    olds: &[u64],
    usable: Usable,
    out: &mut Output,
) -> io::Result<usize>
    ensures { IfOk result (λ k. k ≤ length correction.now.numbers.now) }
{
    let mut written: usize = 0;
    for n in 0..correction.numbers.len() {
        if is_new(correction.numbers, olds, n) {
            write_block(writer, correction, usable, n, out)?;
            written += 1;
        }
    }
    Ok(written)
}

// The lines of all entries and their count.
fn write_entries<W: Write>(
    writer: &mut W,
    correction: &Indexed<'_>,
    master: &Indexed<'_>,
    usable: Usable,
    out: &mut Output,
) -> io::Result<()> {
    write_masters(writer, correction, master, usable, out)?;
    let new = write_new(writer, correction, master.numbers, usable, out)?;
    write_last(writer, Ok(master.numbers.len() + new), &mut out[..])
}

// The entries of two tapes: each is indexed, and its refusal is the answer.
fn list_under<W: Write>(
    writer: &mut W,
    correction: &[u8],
    master: &[u8],
    usable: Usable,
    out: &mut Output,
) -> io::Result<()> {
    let mut given = [0usize; BLOCKS];
    let mut news = [0u64; BLOCKS];
    let mut kept = [0usize; BLOCKS];
    let mut olds = [0u64; BLOCKS];
    let c = match build_under(correction, usable, &mut given, &mut news) {
        Ok(c) => c,
        Err(r) => return write_last(writer, Err(Said::from(r)), &mut out[..]),
    };
    let m = match build_under(master, usable, &mut kept, &mut olds) {
        Ok(m) => m,
        Err(r) => return write_last(writer, Err(Said::from(r)), &mut out[..]),
    };
    let corrections = Indexed {
        tape: correction,
        firsts: &given[..c],
        numbers: &news[..c],
    };
    let masters = Indexed {
        tape: master,
        firsts: &kept[..m],
        numbers: &olds[..m],
    };
    write_entries(writer, &corrections, &masters, usable, out)
}

// The correction's own refusal comes first, then the master's.
fn list_tapes<W: Write>(
    writer: &mut W,
    terms: &Terms<'_>,
    correction: &[u8],
    master: &[u8],
    out: &mut Output,
) -> io::Result<()> {
    if let Err(r) = count_listed(terms, correction) {
        return write_last(writer, Err(Said::from(r)), &mut out[..]);
    }
    if let Err(r) = count_listed(terms, master) {
        return write_last(writer, Err(Said::from(r)), &mut out[..]);
    }
    match profile::parse(terms) {
        Ok(usable) => list_under(writer, correction, master, usable, out),
        Err(_) => Ok(()),
    }
}

// Without a header, or one that says how the rows are parted, the answer is 1 at 0.
fn list_input<W: Write>(
    writer: &mut W,
    input: &[u8],
    profile: &[u8],
    out: &mut Output,
) -> io::Result<()> {
    let wrong = Err(Said::from(Cause::Edition.at(0)));
    let Ok(header) = find_header(input) else {
        return write_last(writer, wrong, &mut out[..]);
    };
    let text = &input[header.from..header.to];
    let rows = &input[header.rows..];
    let Some(sizes) = split_text(text, rows.len()) else {
        return write_last(writer, wrong, &mut out[..]);
    };
    let terms = Terms {
        edition: header.edition,
        shorthand: &text[..sizes.shorthand],
        profile,
    };
    list_tapes(
        writer,
        &terms,
        &rows[..sizes.correction],
        &rows[sizes.correction..],
        out,
    )
}

fn main(rt: HostRuntime) -> io::Result<()> {
    let mut input = space::<INPUT>();
    let mut argument = space::<ARGUMENT>();
    let mut out: Output = space();
    let size = read_profile(&rt, &mut argument);
    let n = read_input(&mut rt.stdin(), &mut input)?;
    let input = &input[..n];
    let profile = &argument[..size];
    list_input(&mut rt.stdout(), input, profile, &mut out)
}
