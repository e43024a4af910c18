// A block found by its first row: its own rows are judged and read, and nothing before them is looked at.
ghost use Rattle.std.specs.Prelude.{◌≡◌, ◌≤◌, ◌<◌, length, take};
ghost use Rattle.rows.specs.Answer.{told};
ghost use Rattle.index.specs.Finding.{up_to, own_entry, entry_by};

use reading::Entry;
use reading::records::block_from;
use rows::{Cause, LIMIT, Refusal};
use shorthand::Usable;

// Where the own rows of block n end, on the tape: at the next block's first row, or at the tape's end where that lies behind it or there is none.
fn own_end(tape: &[u8], firsts: &[usize], n: usize) -> usize
    requires { n < length firsts.now }
    ensures { (result ≤ length tape.now) × (take result tape.now ≡ up_to tape.now firsts.now n) }
{
    match firsts.get(n + 1) {
        Some(next) => (*next).min(tape.len()),
        None => tape.len(),
    }
}

// The block that begins at a row: its own rows are the last of the tape.
fn own_entry(tape: &[u8], usable: Usable, first: usize) -> Result<Entry, Refusal>
    ensures { told result ≡ own_entry usable.format tape.now first }
{
    let from = first.min(tape.len());
    // Stays so: no map_err: its closure would owe the sum for every refusal, and not for those of these rows alone
    if let Err(r) = rows::check(&tape[from..]) {
        return Err(r.cause.at(first + r.place));
    }
    block_from(tape, usable, first)
}

// Entry n by the first rows of all blocks.
pub fn find_entry(tape: &[u8], usable: Usable, firsts: &[usize], n: usize) -> Result<Entry, Refusal>
    ensures { told result ≡ entry_by usable.format tape.now firsts.now n }
{
    if LIMIT < tape.len() {
        return Err(Cause::Length.at(LIMIT));
    }
    if firsts.len() <= n {
        return Err(Cause::NoBlock.at(firsts.len()));
    }
    let end = own_end(tape, firsts, n);
    own_entry(&tape[..end], usable, firsts[n])
}
