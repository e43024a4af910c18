// What settles how blocks move the axes: the profile's last letter, the items' marks, the operator's switch.
ghost use Rattle.std.specs.Prelude.{◌≡◌, ◌&&◌, map, eqb};
ghost use Rattle.profile.specs.Agreement.{is_increment};
ghost use Rattle.slides.specs.Axes.{axes};
ghost use Rattle.slides.specs.Moves.{choosing, is_delta, rule_of};

use crate::axes::AXES;
use crate::{Rule, Travel};
use profile::items::is_increment;
use shorthand::{Item, Kind, Usable};

// A profile that ends in B.
fn is_choosing(profile: &[u8]) -> bool
    ensures { result ≡ choosing profile.now }
{
    profile.last().is_some_and(|letter| *letter == b'B')
}

// A "D" item of a letter.
fn is_delta_item(item: Item, letter: u8) -> bool
    ensures { result ≡ (eqb item.letter letter && is_increment item.kind) }
{
    match item.kind {
        Kind::Dimension(figures) => item.letter == letter && is_increment(figures.mark),
        _ => false,
    }
}

// Whether a letter has a "D" item.
fn is_delta(usable: Usable, letter: u8) -> bool
    ensures { result ≡ is_delta usable.format letter }
{
    let format = &usable.format;
    for item in &format.items[..format.count] {
        if is_delta_item(*item, letter) {
            return true;
        }
    }
    false
}

// Which axes have "D" items. (c) map was tried: its clause does not say that every call of the closure has this same Format.
fn deltas_of(usable: Usable) -> [bool; 14]
    ensures { result ≡ map (is_delta usable.format) axes }
{
    let mut deltas = [false; 14];
    for (a, letter) in AXES.iter().enumerate() {
        deltas[a] = is_delta(usable, *letter);
    }
    deltas
}

pub(crate) fn rule_of(usable: Usable, profile: &[u8], travel: Travel, slashed: bool) -> Rule
    ensures { result ≡ rule_of usable.format profile.now travel slashed }
{
    Rule {
        chooses: is_choosing(profile),
        deltas: deltas_of(usable),
        slashed,
        travel,
    }
}
