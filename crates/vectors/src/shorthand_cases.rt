// Cases of the crate shorthand.
use crate::answers::{Output, put, put_all, put_decimal, put_number, put_refusal};
use crate::asked::{narrow, rest, terms_of};
use rows::Refusal;
use shorthand::{Figures, Format, Item, Kind, Mark, Missing, Usable};

fn put_mark(out: &mut Output, at: usize, mark: Mark) -> usize {
    match mark {
        Mark::Unmarked => put(out, at, b'.'),
        Mark::Plus => put(out, at, b'+'),
        Mark::Delta => put(out, at, b'D'),
    }
}

fn put_missing(out: &mut Output, at: usize, missing: Missing) -> usize {
    match missing {
        Missing::Nothing => put(out, at, b'='),
        Missing::Leading => put(out, at, b'L'),
        Missing::Trailing => put(out, at, b'T'),
    }
}

fn put_figures(out: &mut Output, start: usize, d: Figures) -> usize {
    let mark = d.mark;
    let missing = d.missing;
    let dimension = put(out, start, b'D');
    let before = put_mark(out, dimension, mark);
    let point = put_decimal(out, before, d.before as u64);
    let after = put(out, point, b'.');
    let at = put_decimal(out, after, d.after as u64);
    let next = put_missing(out, at, missing);
    if d.bare {
        return put(out, next, b'b');
    }
    put(out, next, b's')
}

fn put_digits(out: &mut Output, start: usize, kind: u8, digits: u8) -> usize {
    let at = put(out, start, kind);
    put_decimal(out, at, digits as u64)
}

fn put_item(out: &mut Output, start: usize, item: Item) -> usize {
    let kind = item.kind;
    let letter = put(out, start, b' ');
    let at = put(out, letter, item.letter);
    match kind {
        Kind::Plain(n) => put_digits(out, at, b'P', n),
        Kind::Speed(n) => put_digits(out, at, b'S', n),
        Kind::Dimension(d) => put_figures(out, at, d),
    }
}

fn put_items(out: &mut Output, start: usize, format: Format) -> usize {
    let mut at = start;
    for item in &format.items[..format.count.min(22)] {
        at = put_item(out, at, *item);
    }
    at
}

fn put_dots(out: &mut Output, at: usize, dots: bool, addresses: bool) -> usize {
    if !dots {
        return put_all(out, at, b" plain");
    }
    if addresses {
        return put_all(out, at, b" dots");
    }
    put_all(out, at, b" tabs")
}

// "-" where a block may have no number.
fn put_unnumbered(out: &mut Output, at: usize, unnumbered: bool) -> usize {
    if unnumbered {
        return put(out, at, b'-');
    }
    at
}

fn put_format(out: &mut Output, at: usize, format: Format) -> usize {
    let sequence = put_all(out, at, b" 0 0");
    let bare = put_number(out, sequence, format.sequence as u64);
    let dots = put_unnumbered(out, bare, format.unnumbered);
    let count = put_dots(out, dots, format.dots, format.addresses);
    let items = put_number(out, count, format.count as u64);
    put_items(out, items, format)
}

// A Format, or a refusal with an empty one.
fn put_parsed(out: &mut Output, at: usize, parsed: Result<Usable, Refusal>) -> usize {
    match parsed {
        Ok(usable) => put_format(out, at, usable.format),
        Err(r) => {
            let next = put_refusal(out, at, r);
            put_all(out, next, b" 0 plain 0")
        }
    }
}

// F: the Format of a shorthand under an edition.
pub fn format(asked: &[u8], out: &mut Output, at: usize) -> usize {
    let parsed = shorthand::parse(narrow(asked), rest(asked));
    put_parsed(out, at, parsed)
}

// G: the Format of a shorthand and a profile under an edition.
pub fn agreed(asked: &[u8], out: &mut Output, at: usize) -> usize {
    let parsed = profile::parse(&terms_of(asked));
    put_parsed(out, at, parsed)
}
