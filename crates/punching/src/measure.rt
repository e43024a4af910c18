// How many rows a record needs: its parts are judged and their widths summed, and no row is made. Nothing else judges a record.
ghost use Rattle.std.specs.Prelude.{◌≡◌, Bool, ◌≤◌, length};
ghost use Rattle.rows.specs.Answer.{told};
ghost use Rattle.shorthand.specs.declared.Kind.{Kind};
ghost use Rattle.shorthand.specs.declared.Kind.TheVariants.{Plain};
ghost use Rattle.shorthand.specs.Layout.{items_of, way_of, mark_sign};
ghost use Rattle.shorthand.specs.Facts.{Widths};
ghost use Rattle.words.specs.Figures.{may_stand};
ghost use Rattle.reading.specs.Record.{start_of, words_of};
ghost use Rattle.reading.specs.Relation.{start_rows};
ghost use Rattle.punching.specs.Fits.{sequence_fits};
ghost use Rattle.punching.specs.Answers.{measured_for};
ghost use Rattle.punching.specs.Line.{data_measured, words_measured};

use crate::line::magnitude_of;
use reading::Block;
use rows::{Cause, Refusal};
use shorthand::{Figures, Kind, Mark, Usable};
use speeds::ten;
use words::Value;

// Whether an item's words have a sign: in either edition by the mark alone.
pub(crate) fn is_signed(mark: Mark) -> bool
    ensures { (bare : Bool) → result ≡ may_stand (mark_sign mark bare) }
{
    match mark {
        Mark::Unmarked => false,
        Mark::Plus => true,
        Mark::Delta => true,
    }
}

// A plain number: 16 for another kind, 17 for more digits than the item has.
fn measure_plain(n: u8, value: Value, word: usize) -> Result<usize, Refusal>
    requires { n ≤ 9 }
    ensures { told result ≡ data_measured word (Plain n) value }
{
    let Value::Number(v) = value else {
        return Err(Cause::Record.at(word));
    };
    let width = n as usize;
    if ten(width) <= v {
        return Err(Cause::Unfit.at(word));
    }
    Ok(width)
}

// A speed by its exact code: one that has none, rounded or no rate, is 18.
fn measure_speed(k: u8, value: Value, word: usize) -> Result<usize, Refusal>
    requires { (2 ≤ k) × (k ≤ 5) }
    ensures { told result ≡ data_measured word (Kind.Speed k) value }
{
    let Value::Speed(speed) = value else {
        return Err(Cause::Record.at(word));
    };
    let Some(_) = speeds::exact_code(k as u32, speed) else {
        return Err(Cause::InexactSpeed.at(word));
    };
    Ok(k as usize)
}

// A dimension: 17 for too large a magnitude, or a minus where no sign may stand; a sign in every signed item.
fn measure_dimension(d: Figures, value: Value, word: usize) -> Result<usize, Refusal>
    requires { Widths (Kind.Dimension d) }
    ensures { told result ≡ data_measured word (Kind.Dimension d) value }
{
    let Value::Dimension(z) = value else {
        return Err(Cause::Record.at(word));
    };
    let width = d.before as usize + d.after as usize;
    let mark = d.mark;
    let m = magnitude_of(z);
    if ten(width) <= m.size {
        return Err(Cause::Unfit.at(word));
    }
    if is_signed(mark) {
        return Ok(width + 1);
    }
    if m.minus {
        return Err(Cause::Unfit.at(word));
    }
    Ok(width)
}

// The data of word i by its item's kind.
fn measure_data(kind: Kind, value: Value, word: usize) -> Result<usize, Refusal>
    requires { Widths kind }
    ensures { told result ≡ data_measured word kind value }
{
    match kind {
        Kind::Plain(n) => measure_plain(n, value, word),
        Kind::Speed(k) => measure_speed(k, value, word),
        Kind::Dimension(d) => measure_dimension(d, value, word),
    }
}

// The words of a block in the items' order, with tabs up to the last of them.
fn measure_words(usable: Usable, block: Block) -> Result<usize, Refusal>
    requires { block.count ≤ 22 }
    ensures { told result ≡ words_measured 1 (way_of usable.format) (items_of usable.format) (words_of block) }
{
    let format = &usable.format;
    let tab: usize = if format.dots { 1 } else { 0 };
    let address: usize = if format.dots & !format.addresses {
        0
    } else {
        1
    };
    let mut rows: usize = 0;
    // Stays so: i is counted by hand: an item may have no word, so that items and words go on apart
    let mut i: usize = 0;
    for item in &format.items[..format.count] {
        if block.count <= i {
            break;
        }
        rows += tab;
        let word = block.words[i];
        if word.letter == item.letter {
            i += 1;
            rows += address + measure_data(item.kind, word.value, i)?;
        }
    }
    if i < block.count {
        return Err(Cause::Record.at(i + 1));
    }
    Ok(rows)
}

// The number of a block fits its item, or 17; one without number may have none, is no alignment block and has a word, or 16.
fn judge_sequence(usable: Usable, block: Block) -> Result<(), Refusal>
    ensures { told result ≡ sequence_fits usable.format block }
{
    let format = &usable.format;
    if block.numbered {
        if ten(format.sequence as usize) <= block.sequence {
            return Err(Cause::Unfit.at(0));
        }
        return Ok(());
    }
    if format.unnumbered & !block.alignment & (0 < block.count) {
        return Ok(());
    }
    Err(Cause::Record.at(0))
}

// "/" or not, and N or ":" and the number, or no number.
fn measure_start(digits: usize, block: Block) -> usize
    requires { digits ≤ 9 }
    ensures { result ≡ length (start_rows digits (start_of block)) }
{
    let skip: usize = if block.skip { 1 } else { 0 };
    let sequence: usize = if block.numbered { 1 + digits } else { 0 };
    skip + sequence
}

// A whole record: its count, its sequence and then its words are judged, in this order; behind its start and its words stands an LF.
pub fn measure_under(usable: Usable, block: Block) -> Result<usize, Refusal>
    ensures { told result ≡ measured_for usable.format block }
{
    if 22 < block.count {
        return Err(Cause::Record.at(23));
    }
    judge_sequence(usable, block)?;
    let words = measure_words(usable, block)?;
    Ok(measure_start(usable.format.sequence as usize, block) + words + 1)
}
