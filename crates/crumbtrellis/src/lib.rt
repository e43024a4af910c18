// The C door: block counts, speed coding and the head, on numbers and byte slices. include/crumbtrellis.h tells a C host how to call it.
#![tactic(auto)]

ghost use Rattle.std.specs.Prelude.{◌≡◌};
ghost use Rattle.rows.specs.Answer.{told, number_of, place_of, value_or};
ghost use Rattle.speeds.specs.Meaning.{speed_for};
ghost use Rattle.speeds.specs.declared.Speed.TheVariants.{Rate};
ghost use Rattle.speeds.specs.Coding.{code_for};
ghost use Rattle.reading.specs.Answers.{counted};
ghost use Rattle.punching.specs.Answers.{head_punched, written, after};
ghost use Rattle.crumbtrellis.specs.Crossing.{kind_of, units_of, handed};
ghost use Rattle.crumbtrellis.specs.Replies.{Says};

use profile::Terms;
use rows::Refusal;
use speeds::Speed;

// What a C host is handed for an answer: the number returned, what is left at `place`, and the value, or what stands for none.
// Stays so: numbers beside a value, and not a Result: the C interface, crumbtrellis_count_blocks and the three others
#[derive(Clone, Copy)]
struct Reply<T> {
    pub number: u32,
    pub place: u64,
    pub value: T,
}

// The kinds of a speed.
// Stays so: numbers, and not an enum: the C interface, crumbtrellis_speed_of and crumbtrellis_code_of
const RATE: u32 = 0;

const STOP: u32 = 1;

const RAPID: u32 = 2;

// A rate that no code has.
const BEYOND: Speed = Speed::Rate(u64::MAX);

// An answer as a C host is handed it, with what stands for no value.
fn tell<T: Copy>(answer: Result<T, Refusal>, none: T) -> Reply<T>
    ensures { Says none (told answer) result }
{
    match answer {
        Ok(value) => Reply {
            number: 0,
            place: 0,
            value,
        },
        Err(refusal) => Reply {
            number: u32::from(refusal.cause),
            place: refusal.place as u64,
            value: none,
        },
    }
}

// A speed's kind.
fn kind_of(speed: Speed) -> u32
    ensures { result ≡ kind_of speed }
{
    match speed {
        Speed::Rate(_) => RATE,
        Speed::Stop => STOP,
        Speed::Rapid => RAPID,
    }
}

// A speed's units, 0 for stop and rapid.
fn units_of(speed: Speed) -> u64
    ensures { result ≡ units_of speed }
{
    match speed {
        Speed::Rate(units) => units,
        Speed::Stop | Speed::Rapid => 0,
    }
}

// The speed that a kind and its units say; what says none cannot be coded.
fn read_speed(kind: u32, units: u64) -> Speed
    ensures { result ≡ handed kind units }
{
    match (kind, units) {
        (RATE, _) => Speed::Rate(units),
        (STOP, 0) => Speed::Stop,
        (RAPID, 0) => Speed::Rapid,
        _ => BEYOND,
    }
}

// The number of blocks of a tape. A profile of no bytes is none.
#[unsafe(no_mangle)]
pub extern "C" fn crumbtrellis_count_blocks(
    edition: u32,
    shorthand: &[u8],
    profile: &[u8],
    tape: &[u8],
    place: &mut u64,
    value: &mut u64,
) -> u32
    ensures number { result ≡ number_of (counted edition shorthand.now profile.now tape.now) }
    ensures place { place.new ≡ place_of (counted edition shorthand.now profile.now tape.now) }
    ensures value { value.new ≡ value_or 0 (counted edition shorthand.now profile.now tape.now) }
{
    let terms = Terms {
        edition,
        shorthand,
        profile,
    };
    let reply = tell(reading::count_blocks(&terms, tape), 0);
    *place = reply.place;
    *value = reply.value as u64;
    reply.number
}

// The speed that a code means: its kind, and its units in ten-millionths.
#[unsafe(no_mangle)]
pub extern "C" fn crumbtrellis_speed_of(
    digits: u32,
    code: u64,
    place: &mut u64,
    kind: &mut u32,
    units: &mut u64,
) -> u32
    ensures number { result ≡ number_of (speed_for digits code) }
    ensures place { place.new ≡ place_of (speed_for digits code) }
    ensures kind { kind.new ≡ kind_of (value_or (Rate 0) (speed_for digits code)) }
    ensures units { units.new ≡ units_of (value_or (Rate 0) (speed_for digits code)) }
{
    let reply = tell(speeds::speed_of(digits, code), Speed::Rate(0));
    *place = reply.place;
    *kind = kind_of(reply.value);
    *units = units_of(reply.value);
    reply.number
}

// A speed's code: of the nearest rate in two digits, of the rate rounded in three to five.
#[unsafe(no_mangle)]
pub extern "C" fn crumbtrellis_code_of(
    digits: u32,
    kind: u32,
    units: u64,
    place: &mut u64,
    value: &mut u64,
) -> u32
    ensures number { result ≡ number_of (code_for digits (handed kind units)) }
    ensures place { place.new ≡ place_of (code_for digits (handed kind units)) }
    ensures value { value.new ≡ value_or 0 (code_for digits (handed kind units)) }
{
    let speed = read_speed(kind, units);
    let reply = tell(speeds::code_of(digits, speed), 0);
    *place = reply.place;
    *value = reply.value;
    reply.number
}

// "%" and LF at the front of the buffer; the value is the number of rows.
#[unsafe(no_mangle)]
pub extern "C" fn crumbtrellis_punch_head(
    buffer: &mut [u8],
    place: &mut u64,
    value: &mut u64,
) -> u32
    ensures buffer { buffer.new ≡ after buffer.old (head_punched buffer.old) }
    ensures number { result ≡ number_of (written (head_punched buffer.old)) }
    ensures place { place.new ≡ place_of (written (head_punched buffer.old)) }
    ensures value { value.new ≡ value_or 0 (written (head_punched buffer.old)) }
{
    let reply = tell(punching::punch_head(buffer), 0);
    *place = reply.place;
    *value = reply.value as u64;
    reply.number
}
