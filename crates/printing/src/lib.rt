// What the programs that list blocks share: their argument, their input, the line of a block, and the last line.
#![tactic(auto)]

ghost use Rattle.std.specs.Prelude.{◌≡◌, replicate, ◌+◌, ◌≤◌, length};
ghost use Rattle.std.specs.Io.{ReadsAtMost};
ghost use Rattle.io.specs.Counts.{IsPrefixLen};
ghost use Rattle.text.specs.Line.{Put};
ghost use Rattle.lines.specs.Lines.{block_line};

use lines::Said;
use parts::Begun;
use reading::Block;
use std::env::FillError;
use std::io;
use std::io::{Read, Write};
use std::rt::Env;
use text::{put, put_start, put_word};

// How many bytes of the argument are looked at. A profile in form has at most 10 bytes, so a longer text is out of form, and its first wrong byte is
// among its first 11: the first 32 bytes of it are refused by 22 at the same place (`cut-agreed` of proofs/Argument.antt, for every argument).
pub const ARGUMENT: usize = 32;

// Room for the lines of a page.
pub type Output = [u8; 65536];

// Room for so many bytes.
pub fn space<const N: usize>() -> [u8; N]
    ensures { result ≡ replicate N 0 }
{
    [0; N]
}

// How many bytes of the buffer are the profile: none without an argument, and all where the argument is longer, since then its first bytes fill it.
pub fn read_profile(rt: &impl Env, buffer: &mut [u8]) -> usize
    ensures { IsPrefixLen result buffer.new }
{
    match rt.arg(1, buffer) {
        Ok(n) => n,
        Err(FillError::NotPresent) => 0,
        Err(FillError::TooLong) => buffer.len(),
    }
}

// How many bytes at the front of a space were read: it is read until it is full or the input ends.
pub fn read_input<R: Read>(from: &mut R, space: &mut [u8]) -> io::Result<usize>
    ensures { ReadsAtMost result space.new }
{
    // A loop: std has no read that fills a lent space and takes an end of the input before it is full.
    let mut done: usize = 0;
    while done < space.len() {
        let n = from.read(&mut space[done..])?;
        if n == 0 {
            break;
        }
        done += n;
    }
    Ok(done)
}

// The line of a block.
pub fn put_block(line: &mut [u8], digits: u8, block: Block) -> usize
    requires { digits + 531 ≤ length line.old }
    ensures put { Put line.old 0 (block_line digits block) line.new result }
    ensures end { result ≤ digits + 531 }
{
    let begun = Begun {
        skip: block.skip,
        alignment: block.alignment,
        numbered: block.numbered,
        sequence: block.sequence,
    };
    let mut at = put_start(line, 0, digits, begun);
    for word in &block.words[..block.count.min(22)] {
        at = put_word(line, at, *word);
    }
    put(line, at, b'\n')
}

// The last line, composed in a buffer and written.
pub fn write_last<W: Write>(
    writer: &mut W,
    count: Result<usize, Said>,
    out: &mut [u8],
) -> io::Result<()> {
    match lines::last_line(count, out) {
        Ok(n) => writer.write_all(&out[..n]),
        Err(_) => Ok(()),
    }
}
