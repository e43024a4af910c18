// Slides: where each axis stands behind block n of a tape, and a warning before one would leave its travel.
#![tactic(auto)]

ghost use Rattle.std.specs.Prelude.{◌≡◌};
ghost use Rattle.rows.specs.Answer.{told};
ghost use Rattle.slides.specs.Answers.{slides_after, slides_stepped};

pub mod axes;
mod following;
mod moves;
mod rules;

use following::{follow_under, step_under};
use profile::Terms;
use rows::Refusal;
use rules::rule_of;

// How far each axis may go, in dimension order: X Y Z U V W P Q R A B C D E.
// Stays so: two arrays beside the places: public structs, whose low, high and places the theorems name (sound, FirstBad, Elsewhere, history)
#[derive(Clone, Copy)]
pub struct Travel {
    pub low: [i64; 14],
    pub high: [i64; 14],
}

// Where each axis stands, in the same order, and whether G91 was chosen last.
#[derive(Clone, Copy)]
pub struct Slides {
    pub places: [i64; 14],
    pub increments: bool,
}

// What settles how blocks move the axes: whether G90 and G91 choose, which axes have "D" items, whether blocks with "/" count, and the travel.
#[derive(Clone, Copy)]
pub struct Rule {
    pub chooses: bool,
    pub deltas: [bool; 14],
    pub slashed: bool,
    pub travel: Travel,
}

// What a word does that moves an axis: to or by a value.
#[derive(Clone, Copy)]
pub struct Motion {
    pub axis: usize,
    pub value: i64,
}

// Where each axis stands behind block n, from zero; with slashed, blocks with "/" count.
#[tactic(auto, unfolding(crate::specs::Answers::slides_after))]
pub fn follow(
    terms: &Terms<'_>,
    tape: &[u8],
    n: usize,
    travel: Travel,
    slashed: bool,
) -> Result<Slides, Refusal>
    ensures { told result ≡ slides_after terms.now.edition terms.now.shorthand.now terms.now.profile.now tape.now n travel slashed }
{
    let usable = profile::parse(terms)?;
    let rule = rule_of(usable, terms.profile, travel, slashed);
    follow_under(tape, usable, rule, n)
}

// Where each axis stands behind block n, from where it stood before that block; the block is found by the first rows of all blocks.
#[tactic(auto, unfolding(crate::specs::Answers::slides_stepped))]
pub fn step(
    terms: &Terms<'_>,
    tape: &[u8],
    firsts: &[usize],
    n: usize,
    slides: Slides,
    travel: Travel,
    slashed: bool,
) -> Result<Slides, Refusal>
    ensures { told result ≡ slides_stepped terms.now.edition terms.now.shorthand.now terms.now.profile.now tape.now firsts.now n slides travel slashed }
{
    let usable = profile::parse(terms)?;
    let rule = rule_of(usable, terms.profile, travel, slashed);
    step_under(tape, usable, rule, firsts, n, slides)
}
