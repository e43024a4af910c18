// What agreement asks of the detailed shorthand (document 02, 2/12; refusal 23).
ghost use Rattle.std.specs.Prelude.{◌≡◌, ◌&&◌, not};
ghost use Rattle.shorthand.specs.Layout.{incremental};
ghost use Rattle.profile.specs.Agreement.{is_dimension, is_increment, is_rotary, is_counted, how_many};
ghost use Rattle.profile.specs.Answers.{any_item, dots_agree, moves_agree, agrees};

use crate::General;
use shorthand::{Item, Kind, Mark, Usable};

pub fn is_increment(mark: Mark) -> bool
    ensures { result ≡ incremental mark }
{
    mark == Mark::Delta
}

// A dimension by A, B, C, D or E.
fn is_rotary(item: &Item) -> bool
    ensures { result ≡ is_rotary item.now }
{
    matches!(item.kind, Kind::Dimension(_)) && matches!(item.letter, b'A'..=b'E')
}

// A dimension but I, J and K.
fn is_counted(item: &Item) -> bool
    ensures { result ≡ is_counted item.now }
{
    matches!(item.kind, Kind::Dimension(_)) && !matches!(item.letter, b'I'..=b'K')
}

fn is_step(item: &Item) -> bool
    ensures { result ≡ is_increment item.now.kind }
{
    matches!(item.kind, Kind::Dimension(figures) if is_increment(figures.mark))
}

fn is_absolute(item: &Item) -> bool
    ensures { result ≡ (is_dimension item.now.kind && not (is_increment item.now.kind)) }
{
    matches!(item.kind, Kind::Dimension(figures) if !is_increment(figures.mark))
}

fn any_rotary(items: &[Item]) -> bool
    ensures { result ≡ any_item is_rotary items.now }
{
    items.iter().any(is_rotary)
}

fn count_counted(items: &[Item]) -> usize
    ensures { result ≡ how_many is_counted items.now }
{
    items.iter().filter(|item| is_counted(item)).count()
}

// A has no dots, S and T have them.
fn dots_agree(way: u8, dots: bool) -> bool
    ensures { result ≡ dots_agree way dots }
{
    match way {
        b'A' => !dots,
        b'S' | b'T' => dots,
        _ => true,
    }
}

// Last A: no increments; last I: nothing else.
fn moves_agree(moves: u8, items: &[Item]) -> bool
    ensures { result ≡ moves_agree moves items.now }
{
    match moves {
        b'A' => !items.iter().any(is_step),
        b'I' => !items.iter().any(is_absolute),
        _ => true,
    }
}

#[tactic(auto, using(crate::proofs::Queries::no_items), unfolding(crate::specs::Answers::agrees))]
pub(crate) fn agree(usable: Usable, general: General) -> bool
    ensures { result ≡ agrees usable.format general }
{
    let format = usable.format;
    let items = &format.items[..format.count];
    let rotary = (general.rotary == 0) == !any_rotary(items);
    // Without items there is nothing to say of dots.
    let dots = items.is_empty() || dots_agree(general.way, format.dots);
    let moves = moves_agree(general.moves, items);
    let second = general.second;
    let counted = count_counted(items) == usize::from(second);
    rotary && dots && moves && counted && general.third <= second && second <= general.first
}
