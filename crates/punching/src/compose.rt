// The rows of a record that was measured, behind one another in a buffer that they fill.
ghost use Rattle.std.specs.Prelude.{◌≡◌, ◌++◌, ◌+◌, ◌≤◌, ◌<◌, length};
ghost use Rattle.rows.specs.Answer.{taken};
ghost use Rattle.shorthand.specs.declared.Kind.{Kind};
ghost use Rattle.shorthand.specs.Layout.{way_by};
ghost use Rattle.shorthand.specs.Facts.{Widths};
ghost use Rattle.reading.specs.Relation.{address};
ghost use Rattle.punching.specs.Rows.{data_rows, words_rows, rows_of};
ghost use Rattle.punching.specs.Fits.{all_fit, record_fits};
ghost use Rattle.punching.specs.Line.{Put, Room, WordRoom, Fitting};

use crate::line::{Line, magnitude_of};
use crate::measure::is_signed;
use parts::Begun;
use reading::Block;
use shorthand::{Figures, Item, Kind, Usable};
use words::Value;

// A speed by its code, which is exact: one that has none was refused.
fn put_speed(line: &mut Line<'_>, k: u8, value: Value)
    requires { (2 ≤ k) × (k ≤ 5) × (Fitting (Kind.Speed k) value) × (Room line.old.rows.now line.old.at (data_rows (Kind.Speed k) value)) }
    ensures lent { line.new.rows.ghost_name ≡ line.old.rows.ghost_name }
    ensures put { Put line.old.rows.now line.old.at (data_rows (Kind.Speed k) value) line.new.rows.now line.new.at }
{
    let Value::Speed(speed) = value else {
        return;
    };
    let Ok(code) = speeds::code_of(k as u32, speed) else {
        return;
    };
    line.put_digits(k as usize, code);
}

// A dimension: a sign in every signed item, plus for zero.
fn put_dimension(line: &mut Line<'_>, d: Figures, value: Value)
    requires { (Widths (Kind.Dimension d)) × (Fitting (Kind.Dimension d) value) × (Room line.old.rows.now line.old.at (data_rows (Kind.Dimension d) value)) }
    ensures lent { line.new.rows.ghost_name ≡ line.old.rows.ghost_name }
    ensures put { Put line.old.rows.now line.old.at (data_rows (Kind.Dimension d) value) line.new.rows.now line.new.at }
{
    let Value::Dimension(z) = value else {
        return;
    };
    let width = d.before as usize + d.after as usize;
    let m = magnitude_of(z);
    if is_signed(d.mark) {
        line.put_either(m.minus, 45, 43);
    }
    line.put_digits(width, m.size);
}

// The data of a word by its item's kind.
fn put_data(line: &mut Line<'_>, kind: Kind, value: Value)
    requires { (Widths kind) × (Fitting kind value) × (Room line.old.rows.now line.old.at (data_rows kind value)) }
    ensures lent { line.new.rows.ghost_name ≡ line.old.rows.ghost_name }
    ensures put { Put line.old.rows.now line.old.at (data_rows kind value) line.new.rows.now line.new.at }
{
    match kind {
        Kind::Plain(n) => {
            let Value::Number(v) = value else {
                return;
            };
            line.put_digits(n as usize, v);
        }
        Kind::Speed(k) => put_speed(line, k, value),
        Kind::Dimension(d) => put_dimension(line, d, value),
    }
}

// A word of its item: the address where words have one, and then the data.
fn put_word(line: &mut Line<'_>, dots: bool, addresses: bool, item: Item, value: Value)
    requires { Widths item.kind × item.letter < 128 × Fitting item.kind value × WordRoom line.old.rows.now line.old.at (way_by dots addresses) item value }
    ensures lent { line.new.rows.ghost_name ≡ line.old.rows.ghost_name }
    ensures put { Put line.old.rows.now line.old.at (address (way_by dots addresses) item ++ data_rows item.kind value) line.new.rows.now line.new.at }
{
    line.put_address(dots, addresses, item);
    put_data(line, item.kind, value);
}

// The words of a block in the items' order, with tabs up to the last of them.
fn put_words(line: &mut Line<'_>, usable: Usable, block: Block)
    requires { block.count ≤ 22 × all_fit usable.format block ≡ taken tt × line.old.at + length (words_rows usable.format block) < length line.old.rows.now }
    ensures lent { line.new.rows.ghost_name ≡ line.old.rows.ghost_name }
    ensures put { Put line.old.rows.now line.old.at (words_rows usable.format block) line.new.rows.now line.new.at }
{
    let format = &usable.format;
    let dots = format.dots;
    let addresses = format.addresses;
    // Stays so: i is counted by hand: an item may have no word, so that items and words go on apart
    let mut i: usize = 0;
    for item in &format.items[..format.count] {
        if block.count <= i {
            break;
        }
        line.put_tab(dots);
        let word = block.words[i];
        if word.letter == item.letter {
            i += 1;
            put_word(line, dots, addresses, *item, word.value);
        }
    }
}

// A whole record, into as many rows as it was measured to have.
pub(crate) fn compose_block(line: &mut [u8], usable: Usable, block: Block)
    requires { (record_fits usable.format block ≡ taken tt) × (length (rows_of usable.format block) ≡ length line.old) }
    ensures { line.new ≡ rows_of usable.format block }
{
    let begun = Begun {
        skip: block.skip,
        alignment: block.alignment,
        numbered: block.numbered,
        sequence: block.sequence,
    };
    let mut line = Line { rows: line, at: 0 };
    line.put_start(usable.format.sequence as usize, begun);
    put_words(&mut line, usable, block);
    line.put(10);
}
