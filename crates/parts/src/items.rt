// How an item stands, by how its word is known, and which item is due next: a letter leads straight to its item, so that those left out between are not
// tried one by one.
ghost use Rattle.std.specs.Prelude.{◌≡◌, cond, List, ℕ, length};
ghost use Rattle.shorthand.specs.Layout.{by_letter, by_tab, way_by};
ghost use Rattle.words.specs.Figures.{front_place};
ghost use Rattle.words.specs.Front.{rows_at};
ghost use Rattle.parts.specs.Items.{Standing, begins, standing, Leads, due_at};
ghost use Rattle.parts.specs.Items.{rules_of};
ghost use Rattle.parts.specs.Front.{reach_told};

use crate::{Guide, Reach, Rules};
use rows::Kept;
use shorthand::{Format, Usable};

// Whether the fetched row is the address; the data stand behind it.
#[tactic(auto, using(words::proofs::Fetched::fetched))]
fn at_letter(tape: &[u8], letter: u8, front: Option<Kept>) -> Reach
    ensures { reach_told tape.now result ≡ standing by_letter letter (rows_at tape.now front) }
{
    match front {
        Some(row) if row.character == letter as char => Reach::At(
            row.place,
            rows::next_kept(tape, row.after),
        ),
        _ => Reach::Out(front),
    }
}

// Whether the fetched row is a digit or a sign, with which the data of a word without address begin.
fn at_figure(front: Option<Kept>) -> Reach
    ensures { (t : List ℕ) (c : ℕ) → reach_told t result ≡ cond (begins by_tab c (rows_at t front)) (Standing.at (front_place (rows_at t front)) (rows_at t front)) (Standing.out (rows_at t front)) }
{
    let Some(row) = front else {
        return Reach::Out(front);
    };
    match row.character {
        '0'..='9' | '+' | '-' => Reach::At(row.place, front),
        _ => Reach::Out(front),
    }
}

// How the item of a letter stands: with tabs behind an HT.
#[tactic(auto, using(words::proofs::Fetched::fetched))]
pub fn reach_item(tape: &[u8], rules: Rules, letter: u8, front: Option<Kept>) -> Reach
    ensures { reach_told tape.now result ≡ standing (way_by rules.dots rules.addresses) letter (rows_at tape.now front) }
{
    if rules.dots {
        let Some(row) = front else {
            return Reach::Stops;
        };
        if row.character != '\t' {
            return Reach::Stops;
        }
        let next = rows::next_kept(tape, row.after);
        if rules.addresses {
            return at_letter(tape, letter, next);
        }
        return at_figure(next);
    }
    at_letter(tape, letter, front)
}

// What a step has to know of a Format.
pub fn rules_of(format: Format) -> Rules
    ensures { result ≡ rules_of format }
{
    Rules {
        unnumbered: format.unnumbered,
        digits: format.sequence as usize,
        dots: format.dots,
        addresses: format.addresses,
        items: format.count,
    }
}

// For every character the place of the item with that letter, 22 where there is none.
pub fn lead_letters(usable: Usable) -> [u8; 256]
    ensures { Leads usable.format result }
{
    let mut leads = [22u8; 256];
    for k in 0..usable.format.count {
        let letter = usable.format.items[k].letter as usize;
        leads[letter] = k as u8;
    }
    leads
}

// What guides a walk under a Format, laid out once for a whole tape.
pub fn guide_of(usable: Usable) -> Guide
    ensures rules { result.rules ≡ rules_of usable.format }
    ensures leads { Leads usable.format result.leads }
{
    Guide {
        rules: rules_of(usable.format),
        leads: lead_letters(usable),
    }
}

impl Guide {
    // The first item from item k on that may have a word at the front, or 22; with tabs that is item k itself.
    // Stays so: the definitions Leads and due_at have 22 where there is none
    #[tactic(auto, unfolding(crate::specs::Items::due_at))]
    pub fn due(&self, k: usize, front: Option<Kept>) -> usize
        ensures { (t : List ℕ) → result ≡ due_at self.now.leads self.now.rules.dots k (rows_at t front) }
    {
        if self.rules.dots {
            return k;
        }
        let Some(row) = front else {
            return 22;
        };
        let led = self
            .leads
            .get(row.character as usize)
            .copied()
            .unwrap_or(22) as usize;
        if led < k { 22 } else { led }
    }
}
