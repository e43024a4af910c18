// The line that a block's rows are composed in, and what is put into it.
ghost use Rattle.std.specs.Prelude.{◌≡◌, Bool, true, cond, [], ◌∷◌, ◌+◌, ◌^◌, ◌≤◌, ◌<◌, nat_abs, length};
ghost use Rattle.shorthand.specs.Layout.{way_by};
ghost use Rattle.reading.specs.Relation.{digits, address, tab, skip_rows, start_rows};
ghost use Rattle.punching.specs.Rows.{row_of, minus};
ghost use Rattle.punching.specs.Line.{Put};

use crate::Magnitude;
use parts::Begun;
use shorthand::Item;

// Sign and magnitude of any integer.
pub fn magnitude_of(z: i64) -> Magnitude
    ensures { (result.minus ≡ minus z) × (result.size ≡ nat_abs z) }
{
    Magnitude {
        minus: z < 0,
        size: z.unsigned_abs(),
    }
}

// A character's row.
fn row_of(c: u8) -> u8
    requires { c < 128 }
    ensures { result ≡ row_of c }
{
    if rows::has_even_holes(c) { c } else { c + 128 }
}

// The n digits of v from a row on, put from the last to the first: the remainders by ten give them so, and ten is a divisor that the compiler knows.
fn set_digits(rows: &mut [u8], start: usize, n: usize, v: u64)
    requires { (start + n ≤ length rows.old) × (v < 10 ^ n) }
    ensures { Put rows.old start (digits n v) rows.new (start + n) }
{
    let mut rest = v;
    for i in (0..n).rev() {
        rows[start + i] = row_of(48 + (rest % 10) as u8);
        rest /= 10;
    }
}

// The line that a block's rows are composed in, and how many stand in it: each put adds rows behind those.
#[derive(Drop)]
pub struct Line<'a> {
    pub rows: &'a mut [u8],
    pub at: usize,
}

impl Line<'_> {
    pub fn put(&mut self, c: u8)
        requires { (self.old.at < length self.old.rows.now) × (c < 128) }
        ensures lent { self.new.rows.ghost_name ≡ self.old.rows.ghost_name }
        ensures put { Put self.old.rows.now self.old.at (c ∷ []) self.new.rows.now self.new.at }
    {
        self.rows[self.at] = row_of(c);
        self.at += 1;
    }

    // The n digits of v.
    pub fn put_digits(&mut self, n: usize, v: u64)
        requires { (self.old.at + n ≤ length self.old.rows.now) × (v < 10 ^ n) }
        ensures lent { self.new.rows.ghost_name ≡ self.old.rows.ghost_name }
        ensures put { Put self.old.rows.now self.old.at (digits n v) self.new.rows.now self.new.at }
    {
        set_digits(self.rows, self.at, n, v);
        self.at += n;
    }

    // A tab where the items have dots.
    pub fn put_tab(&mut self, dots: bool)
        requires { self.old.at < length self.old.rows.now }
        ensures lent { self.new.rows.ghost_name ≡ self.old.rows.ghost_name }
        ensures put { (addresses : Bool) → Put self.old.rows.now self.old.at (tab (way_by dots addresses)) self.new.rows.now self.new.at }
    {
        if dots {
            self.put(9);
        }
    }

    // The address of an item's word, or nothing where the item is known by its tab alone.
    pub fn put_address(&mut self, dots: bool, addresses: bool, item: Item)
        requires { (self.old.at < length self.old.rows.now) × (item.letter < 128) }
        ensures lent { self.new.rows.ghost_name ≡ self.old.rows.ghost_name }
        ensures put { Put self.old.rows.now self.old.at (address (way_by dots addresses) item) self.new.rows.now self.new.at }
    {
        if addresses || !dots {
            self.put(item.letter);
        }
    }

    // One of two characters, as a sign or an address.
    pub fn put_either(&mut self, first: bool, a: u8, b: u8)
        requires { (self.old.at < length self.old.rows.now) × (a < 128) × (b < 128) }
        ensures lent { self.new.rows.ghost_name ≡ self.old.rows.ghost_name }
        ensures put { Put self.old.rows.now self.old.at (cond first a b ∷ []) self.new.rows.now self.new.at }
    {
        self.put(if first { a } else { b });
    }

    // "/" or not.
    fn put_skip(&mut self, skip: bool)
        requires { self.old.at < length self.old.rows.now }
        ensures lent { self.new.rows.ghost_name ≡ self.old.rows.ghost_name }
        ensures put { Put self.old.rows.now self.old.at (skip_rows skip) self.new.rows.now self.new.at }
    {
        if skip {
            self.put(47);
        }
    }

    // "/" or not, and N or ":" and the number, or no number.
    pub fn put_start(&mut self, digits: usize, start: Begun)
        requires { (self.old.at + length (start_rows digits start) < length self.old.rows.now) × (start.numbered ≡ true → start.sequence < 10 ^ digits) }
        ensures lent { self.new.rows.ghost_name ≡ self.old.rows.ghost_name }
        ensures put { Put self.old.rows.now self.old.at (start_rows digits start) self.new.rows.now self.new.at }
    {
        self.put_skip(start.skip);
        if start.numbered {
            self.put_either(start.alignment, 58, 78);
            self.put_digits(digits, start.sequence);
        }
    }
}
