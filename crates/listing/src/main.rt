// Lists a tape: standard input holds the edition, a space, the shorthand, LF and the rows; the output is a line for each block and their count.
// The first argument, where there is one, is the profile; without one, or with an empty one, the program is document 01's.
// What it writes is made by `lines`; the proofs of its functions are of safety alone.
#![tactic(auto)]

ghost use Rattle.std.specs.Prelude.{◌≡◌, length, List};
ghost use Rattle.rows.specs.Answer.{told};
ghost use Rattle.reading.specs.declared.Entry.{Entry};
ghost use Rattle.reading.specs.Answers.{size_of};
ghost use Rattle.reading.specs.Remains.{Remains};
ghost use Rattle.lines.specs.Listing.{listed_under};

use lines::Said;
use lines::input::{count_listed, find_header};
use pages::list_page;
use parts::ends::enter_tape;
use printing::{ARGUMENT, Output, read_input, read_profile, space, write_last};
use profile::Terms;
use rows::Refusal;
use shorthand::Usable;
use std::io;
use std::io::Write;

// The 200 bytes that a header may have, 60,000 rows, and one byte more, by which too many rows are seen.
const INPUT: usize = 60201;

// The lines of so many blocks of an accepted tape from a row on, page by page.
fn write_pages<W: Write>(
    writer: &mut W,
    tape: &[u8],
    usable: Usable,
    first: usize,
    count: usize,
    out: &mut [u8],
) -> io::Result<()>
    requires { (es : List Entry) × Remains usable.format tape.now first es }
{
    let mut from = first;
    let mut left = count;
    // No `for`: pages differ in how many blocks they list.
    while 0 < left {
        let Ok(sheet) = list_page(tape, usable, from, out) else {
            return Ok(());
        };
        writer.write_all(&out[..sheet.bytes])?;
        if sheet.blocks == 0 || left < sheet.blocks {
            return Ok(());
        }
        from = sheet.next;
        left -= sheet.blocks;
    }
    Ok(())
}

// A refused tape has no lines but the last.
fn write_blocks<W: Write>(
    writer: &mut W,
    terms: &Terms<'_>,
    tape: &[u8],
    count: Result<usize, Refusal>,
    out: &mut [u8],
) -> io::Result<()>
    requires { told count ≡ size_of (listed_under terms.now.edition terms.now.shorthand.now terms.now.profile.now tape.now) }
{
    let Ok(n) = count else {
        return Ok(());
    };
    let Ok(usable) = profile::parse(terms) else {
        return Ok(());
    };
    let Ok(end) = enter_tape(tape) else {
        return Ok(());
    };
    write_pages(writer, tape, usable, end.value + 1, n, out)
}

fn list_input<W: Write>(
    writer: &mut W,
    input: &[u8],
    profile: &[u8],
    out: &mut [u8],
) -> io::Result<()> {
    let header = match find_header(input) {
        Ok(header) => header,
        Err(r) => return write_last(writer, Err(Said::from(r)), out),
    };
    let terms = Terms {
        edition: header.edition,
        shorthand: &input[header.from..header.to],
        profile,
    };
    let tape = &input[header.rows..];
    let count = count_listed(&terms, tape);
    write_blocks(writer, &terms, tape, count, out)?;
    write_last(writer, count.map_err(Said::from), out)
}

fn main(rt: HostRuntime) -> io::Result<()> {
    let mut input = space::<INPUT>();
    let mut argument = space::<ARGUMENT>();
    let mut out: Output = space();
    let size = read_profile(&rt, &mut argument);
    let n = read_input(&mut rt.stdin(), &mut input)?;
    let input = &input[..n];
    let profile = &argument[..size];
    list_input(&mut rt.stdout(), input, profile, &mut out)
}
