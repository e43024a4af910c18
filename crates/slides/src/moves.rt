// How one block moves the axes.
ghost use Rattle.std.specs.Prelude.{◌≡◌, cond, ◌≤◌, nat_abs};
ghost use Rattle.rows.specs.Answer.{taken, told};
ghost use Rattle.reading.specs.Record.{words_of};
ghost use Rattle.slides.specs.Axes.{farthest, sound};
ghost use Rattle.slides.specs.Moves.{chosen_by, chosen_in, motion_of, put, words_tried, block_tried};
ghost use Rattle.slides.specs.Front.{Full, put_within};

use crate::axes::axis_named;
use crate::{Motion, Rule, Slides};
use reading::Block;
use rows::{Cause, Refusal};
use words::{Value, Word};

// Zero on every axis, and absolute.
pub(crate) const START: Slides = Slides {
    places: [0; 14],
    increments: false,
};

// G90 chooses absolute places, G91 increments.
fn chosen_by(word: Word, old: bool) -> bool
    ensures { result ≡ chosen_by word.letter word.value old }
{
    match (word.letter, word.value) {
        (b'G', Value::Number(90)) => false,
        (b'G', Value::Number(91)) => true,
        _ => old,
    }
}

// What is chosen behind the words of a block, where G90 and G91 choose.
fn choose(chooses: bool, block: Block, old: bool) -> bool
    requires { block.count ≤ 22 }
    ensures { result ≡ cond chooses (chosen_in (words_of block) old) old }
{
    if !chooses {
        return old;
    }
    let mut chosen = old;
    for word in &block.words[..block.count] {
        chosen = chosen_by(*word, chosen);
    }
    chosen
}

// The axis that a word moves, and the value to or by which; or none, and it moves nothing.
fn motion_of(word: Word) -> Option<Motion>
    ensures { result ≡ motion_of word }
{
    let Value::Dimension(value) = word.value else {
        return None;
    };
    let axis = axis_named(word.letter)?;
    Some(Motion { axis, value })
}

// A place within a travel, or none outside it.
fn hold(to: i64, low: i64, high: i64) -> Option<i64>
    ensures { result ≡ put_within low high to }
{
    if (low..=high).contains(&to) {
        Some(to)
    } else {
        None
    }
}

// A value set or added, within a travel. No sum overflows: place and value are one million million million at most.
fn put_axis(adds: bool, z: i64, x: i64, low: i64, high: i64) -> Option<i64>
    requires { (nat_abs z ≤ farthest) × (nat_abs x ≤ farthest) }
    ensures { result ≡ put_within low high (put adds z x) }
{
    if adds {
        return hold(z + x, low, high);
    }
    hold(x, low, high)
}

// Where G90 and G91 choose, by what they chose; elsewhere by the item's mark.
fn is_adding(chooses: bool, increments: bool, delta: bool) -> bool
    ensures { result ≡ cond chooses increments delta }
{
    if chooses { increments } else { delta }
}

// The words of block k, one behind another.
fn move_words(
    rule: Rule,
    increments: bool,
    k: usize,
    block: Block,
    places: [i64; 14],
) -> Result<[i64; 14], Refusal>
    requires full { Full block }
    requires places_value { sound rule.travel places ≡ taken tt }
    ensures { told result ≡ words_tried rule increments k (words_of block) places }
{
    let travel = rule.travel;
    let mut at = places;
    for word in &block.words[..block.count] {
        let Some(motion) = motion_of(*word) else {
            continue;
        };
        let a = motion.axis;
        let adds = is_adding(rule.chooses, increments, rule.deltas[a]);
        let Some(to) = put_axis(adds, at[a], motion.value, travel.low[a], travel.high[a]) else {
            return Err(Cause::Outside.at(k));
        };
        at[a] = to;
    }
    Ok(at)
}

// Block k; one that does not count is passed by wholly.
pub(crate) fn move_block(
    rule: Rule,
    k: usize,
    block: Block,
    slides: Slides,
) -> Result<Slides, Refusal>
    requires full { Full block }
    requires places_value { sound rule.travel slides.places ≡ taken tt }
    ensures { told result ≡ block_tried rule k block slides }
{
    if block.skip && !rule.slashed {
        return Ok(slides);
    }
    let increments = choose(rule.chooses, block, slides.increments);
    let places = move_words(rule, increments, k, block, slides.places)?;
    Ok(Slides { places, increments })
}
