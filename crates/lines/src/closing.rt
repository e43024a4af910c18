// The last line of a listing: the count of the blocks, or the refusal.
ghost use Rattle.std.specs.Prelude.{◌≤◌};
ghost use Rattle.text.specs.Line.{Put};
ghost use Rattle.lines.specs.Lines.{count_line, refusal_line};
ghost use Rattle.lines.specs.Answers.{closing};

use crate::{ROOM, Said};
use text::{put, put_all, put_decimal};

// The count of the blocks, or the refusal.
pub fn put_closing(line: &mut [u8; ROOM], count: Result<usize, Said>) -> usize
    ensures put { Put line.old 0 (closing count) line.new result }
    ensures end { result ≤ 50 }
{
    match count {
        Ok(n) => put_count(line, n),
        Err(said) => put_refusal(line, said),
    }
}

fn put_count(line: &mut [u8; ROOM], n: usize) -> usize
    ensures put { Put line.old 0 (count_line n) line.new result }
    ensures end { result ≤ 50 }
{
    let at = put_all(line, 0, b"blocks ");
    let end = put_decimal(line, at, n as u64);
    put(line, end, b'\n')
}

fn put_refusal(line: &mut [u8; ROOM], said: Said) -> usize
    ensures put { Put line.old 0 (refusal_line said.number said.place) line.new result }
    ensures end { result ≤ 50 }
{
    let at = put_all(line, 0, b"refused ");
    let number = put_decimal(line, at, said.number as u64);
    let next = put(line, number, b' ');
    let end = put_decimal(line, next, said.place as u64);
    put(line, end, b'\n')
}
