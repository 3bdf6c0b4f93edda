ghost use Rattle.std.specs.Prelude.{◌≡◌, ◌+◌, ◌≤◌, false};
ghost use Rattle.std.specs.Float.{binary64};
ghost use Rattle.std.specs.Float.Ieee.{round, units};
ghost use Rattle.wide_integers.specs.Division.{magnitude, Positive, Proper, Below, Less, Ready, Grows, Stepped, Divided, digits_of};

use crate::number;
use crate::number::Wide;

// A number, doubled some times.
#[derive(Clone, Copy)]
pub struct Grown {
    pub whole: Wide,
    pub power: u64,
}

// The digits of a quotient so far, and what is left.
#[derive(Clone, Copy)]
pub struct Quotient {
    pub word: u64,
    pub rest: Wide,
}

// The largest start · 2^power that is at most limit.
fn doubled(limit: Wide, start: Wide) -> Grown
    requires { Below start limit }
    ensures { Grows (magnitude limit) (magnitude start) result }
{
    let mut whole = start;
    let mut power = 0;
    // A loop: how often is told by the numbers alone.
    loop {
        let room = number::difference(limit, whole);
        if number::below(room, whole) {
            return Grown { whole, power };
        }
        whole = number::sum(whole, whole);
        power += 1;
    }
}

// One more digit.
fn step(at: Quotient, whole: Wide) -> Quotient
    requires { Proper at whole }
    ensures { Stepped (magnitude whole) at result }
{
    let rest = at.rest;
    let room = number::difference(whole, rest);
    if number::below(rest, room) {
        return Quotient {
            word: at.word + at.word,
            rest: number::sum(rest, rest),
        };
    }
    Quotient {
        word: at.word + at.word + 1,
        rest: number::difference(rest, room),
    }
}

// 53 digits of (whole + rest) / whole.
fn digits(rest: Wide, whole: Wide) -> Quotient
    requires { Less rest whole }
    ensures { Divided (magnitude whole) (magnitude whole + magnitude rest) result }
{
    let mut at = Quotient { word: 1, rest };
    for _i in 0u64..52 {
        at = step(at, whole);
    }
    at
}

// The digits, or the next number up, by what is left; at a tie the even one.
fn rounded(at: Quotient, whole: Wide) -> u64
    requires { Ready at whole }
    ensures { result ≡ digits_of (magnitude whole) at }
{
    let rest = at.rest;
    let room = number::difference(whole, rest);
    if number::below(rest, room) {
        return at.word;
    }
    if number::below(room, rest) {
        return at.word + 1;
    }
    at.word + at.word % 2
}

// The float of the rounded digits times 2^k, in units of 2^-1074.
pub fn assembled(at: Quotient, whole: Wide, k: u64) -> f64
    requires { Ready at whole × (k ≤ 1500) }
    ensures { result ≡ units binary64 false (digits_of (magnitude whole) at) k }
{
    f64::from_bits(k * 4503599627370496 + rounded(at, whole))
}

// The float nearest to t / w, digit by digit.
pub fn careful(t: Wide, w: Wide) -> f64
    requires { Positive t × Positive w }
    ensures { result ≡ round binary64 false (magnitude t) (magnitude w) }
{
    if number::at_most(w, t) {
        let up = doubled(t, w);
        let rest = number::difference(t, up.whole);
        return assembled(digits(rest, up.whole), up.whole, up.power + 1022);
    }
    let up = doubled(number::difference(w, number::of_i64(1)), t);
    let room = number::difference(w, up.whole);
    let rest = number::difference(up.whole, room);
    assembled(digits(rest, w), w, 1021 - up.power)
}
