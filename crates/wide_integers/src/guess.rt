ghost use Rattle.std.specs.Prelude.{◌≡◌, ◌*◌, ◌^◌, ◌<◌, ◌≤◌};
ghost use Rattle.wide_integers.specs.Value.{value};
ghost use Rattle.wide_integers.specs.Division.{magnitude, Counts, Positive, fraction_of};
ghost use Rattle.wide_integers.specs.Guess.{Holds, Leaves, Settles, Finds, Answers};

use crate::division::Quotient;
use crate::number::Wide;
use crate::{division, number};

// Near the number. Nothing rests on that.
fn near(a: Wide) -> f64 {
    let high = std::num::nearest_u64_to_f64(std::num::wrapping_sub_u64(
        a.high,
        9223372036854775808,
    ));
    let middle = std::num::nearest_u64_to_f64(a.middle);
    let low = std::num::nearest_u64_to_f64(a.low);
    (high * 18446744073709551616.0 + middle) * 18446744073709551616.0 + low
}

// The pattern of a float near t / w, or 0. Nothing rests on that.
fn near_bits(t: Wide, w: Wide) -> u64 {
    let x = near(t) / near(w);
    if x > 0.0 {
        return f64::to_bits(x);
    }
    0
}

// A whole number near n / d, and seldom above. Nothing rests on that.
fn near_whole(n: Wide, d: Wide) -> u64 {
    arithmetic::rounding::to_u64(near(n) / near(d) - 0.25)
}

// 2^g.
fn two_to(g: u64) -> u64
    requires { g ≤ 62 }
    ensures { result ≡ 2 ^ g }
{
    1u64 << g
}

// a · m, where a is below 2^128 and m below 2^63.
fn multiple(a: Wide, m: u64) -> Option<Wide>
    requires { Counts a (magnitude a) }
    ensures { Holds (magnitude a * m) result }
{
    if a.high > 9223372036854775808 {
        return None;
    }
    if m > 9223372036854775807 {
        return None;
    }
    Some(number::times(a, m as i64))
}

// n - d · m, where that is not below 0.
fn left_of(n: Wide, d: Wide, m: u64) -> Option<Wide>
    requires { Counts n (magnitude n) × Counts d (magnitude d) }
    ensures { Leaves (magnitude n) (magnitude d * m) result }
{
    let part = multiple(d, m)?;
    if number::below(n, part) {
        return None;
    }
    Some(number::difference(n, part))
}

// The digits of n / d, by a guess at them, or one more.
fn settle(n: Wide, d: Wide, guess: u64) -> Option<Quotient>
    requires { Counts n (magnitude n) × Counts d (magnitude d) }
    ensures { Settles (magnitude n) (magnitude d) result }
{
    if guess > 9007199254740992 {
        return None;
    }
    let rest = left_of(n, d, guess)?;
    if number::below(rest, d) {
        return Some(Quotient { word: guess, rest });
    }
    let less = number::difference(rest, d);
    if number::below(less, d) {
        return Some(Quotient {
            word: guess + 1,
            rest: less,
        });
    }
    None
}

// The float of 53 digits of t · 2^g / d, rounded, by a guess at the first of them.
fn seek(t: Wide, d: Wide, first: u64, g: u64, k: u64) -> Option<f64>
    requires { (Counts t (magnitude t) × Counts d (magnitude d)) × ((g ≤ 49) × ((first * 2 ^ g < 2 ^ 53) × (k ≤ 1500))) }
    ensures { Finds (magnitude t) (magnitude d) g k result }
{
    let rest = left_of(t, d, first)?;
    let power = two_to(g);
    let n = multiple(rest, power)?;
    let q = settle(n, d, near_whole(n, d))?;
    let word = first * power + q.word;
    if word < 4503599627370496 {
        return None;
    }
    if word > 9007199254740991 {
        return None;
    }
    let at = Quotient { word, rest: q.rest };
    Some(division::assembled(at, d, k))
}

// The float of 53 digits of t / (w · 2^j), rounded, by a guess at them.
fn seek_whole(t: Wide, w: Wide, first: u64, j: u64, k: u64) -> Option<f64>
    requires { (Counts t (magnitude t) × Positive w) × ((first < 2 ^ 53) × ((j ≤ 8) × (k ≤ 1500))) }
    ensures { Finds (magnitude t) (magnitude w * 2 ^ j) 0 k result }
{
    let power = two_to(j);
    let rest = left_of(t, w, first * power)?;
    let q = settle(rest, w, near_whole(rest, w))?;
    let all = first * power + q.word;
    let word = all / power;
    if word < 4503599627370496 {
        return None;
    }
    if word > 9007199254740991 {
        return None;
    }
    let low = multiple(w, all % power)?;
    let d = multiple(w, power)?;
    let at = Quotient {
        word,
        rest: number::sum(low, q.rest),
    };
    Some(division::assembled(at, d, k))
}

// The float nearest to t / w, by a guess, where t / w is from 2^-23 to 2^61.
fn quick(t: Wide, w: Wide) -> Option<f64>
    requires { Positive t × Positive w }
    ensures { Answers (magnitude t) (magnitude w) result }
{
    let bits = near_bits(t, w);
    let field = bits / 4503599627370496;
    if field < 1000 {
        return None;
    }
    if field > 1083 {
        return None;
    }
    let digits = bits % 4503599627370496 + 4503599627370480;
    if field < 1026 {
        let i = 1049 - field;
        let n = multiple(t, 67108864)?;
        return seek(n, w, digits >> i, i, field - 1);
    }
    if field < 1075 {
        let g = 1075 - field;
        return seek(t, w, digits >> g, g, field - 1);
    }
    seek_whole(t, w, digits, field - 1075, field - 1)
}

// The float nearest to t / w, where t is not below 0 and w is above; else NaN. A guess, and digit by digit where that fails.
pub fn nearest(t: Wide, w: Wide) -> f64
    ensures { result ≡ fraction_of (value t) (value w) }
{
    if number::is_negative(t) {
        return 0.0 / 0.0;
    }
    if number::is_positive(w) {
        if number::is_positive(t) {
            return match quick(t, w) {
                Some(x) => x,
                None => division::careful(t, w),
            };
        }
        return 0.0;
    }
    0.0 / 0.0
}
