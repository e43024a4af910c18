// Cases of the crate speeds, and how a speed is asked and written.
use crate::answers::{Output, put_all, put_decimal, put_number, put_refused, put_value};
use crate::asked::{first_of, narrow, number, rest};
use speeds::Speed;

// A speed as it is asked: `stop`, `rapid`, or its units.
pub fn speed_of(text: &[u8]) -> Speed {
    match first_of(text) {
        b's' => Speed::Stop,
        b'r' => Speed::Rapid,
        _ => Speed::Rate(number(text)),
    }
}

// And as it is written.
pub fn put_speed(out: &mut Output, at: usize, speed: Speed) -> usize {
    match speed {
        Speed::Stop => put_all(out, at, b"stop"),
        Speed::Rapid => put_all(out, at, b"rapid"),
        Speed::Rate(v) => put_decimal(out, at, v),
    }
}

fn put_said(out: &mut Output, at: usize, speed: Speed) -> usize {
    let next = put_all(out, at, b" 0 0 ");
    put_speed(out, next, speed)
}

// S: the speed of a code.
pub fn speed(asked: &[u8], out: &mut Output, at: usize) -> usize {
    match speeds::speed_of(narrow(asked), number(rest(asked))) {
        Ok(s) => put_said(out, at, s),
        Err(r) => put_refused(out, at, r),
    }
}

// C: the code of a speed.
pub fn code(asked: &[u8], out: &mut Output, at: usize) -> usize {
    match speeds::code_of(narrow(asked), speed_of(rest(asked))) {
        Ok(c) => put_value(out, at, c),
        Err(r) => put_refused(out, at, r),
    }
}

// X: the code that means a speed exactly.
pub fn exact(asked: &[u8], out: &mut Output, at: usize) -> usize {
    match speeds::exact_code(narrow(asked), speed_of(rest(asked))) {
        Some(c) => put_number(out, at, c),
        None => at,
    }
}
