ghost use Rattle.std.specs.Prelude.{◌≡◌, ◌^◌, pos, ◌+ℤ◌, ◌-ℤ◌, ◌*ℤ◌, int_le, int_lt};
ghost use Rattle.wide_integers.specs.Sizes.{Sized};
ghost use Rattle.wide_integers.specs.Value.{value, FitsWide};
ghost use Rattle.wide_integers.specs.LongValue.{long_value, FitsLong};

use crate::number::Wide;
use crate::triples::Long;
use crate::{number, triples};

// a + b.
pub fn sum(a: Long, b: Long) -> Long
    requires { FitsLong (long_value a +ℤ long_value b) }
    ensures { long_value result ≡ long_value a +ℤ long_value b }
{
    let low = triples::add(a.low, b.low, 0);
    let high = triples::add(a.high, b.high, low.over);
    let top = triples::signed(high.words);
    Long {
        high: top.words,
        low: low.words,
    }
}

// a - b. Not one function with `sum`, as of `triples::add` and `subtract`.
pub fn difference(a: Long, b: Long) -> Long
    requires { FitsLong (long_value a -ℤ long_value b) }
    ensures { long_value result ≡ long_value a -ℤ long_value b }
{
    let low = triples::subtract(a.low, b.low, 0);
    let high = triples::subtract(a.high, b.high, low.over);
    let top = triples::signed(high.words);
    Long {
        high: top.words,
        low: low.words,
    }
}

// a · b, of any two numbers.
pub fn product(a: Wide, b: Wide) -> Long
    ensures { long_value result ≡ value a *ℤ value b }
{
    let x = triples::signed(a);
    let y = triples::signed(b);
    let whole = triples::multiply(x.words, y.words);
    let once = triples::subtract(whole.high, triples::chosen(y.over, x.words), 0);
    let twice = triples::subtract(once.words, triples::chosen(x.over, y.words), 0);
    let top = triples::signed(twice.words);
    Long {
        high: top.words,
        low: whole.low,
    }
}

// a · b, of two numbers up to 2^126: by two words each.
pub fn pair_product(a: Wide, b: Wide) -> Long
    requires { Sized (2 ^ 126) (value a) × Sized (2 ^ 126) (value b) }
    ensures { long_value result ≡ value a *ℤ value b }
{
    let s = 9223372036854775808 - a.high;
    let t = 9223372036854775808 - b.high;
    let whole = triples::multiply_pairs(a.middle, a.low, b.middle, b.low);
    let once = triples::subtract_pair(whole.w3, whole.w2, t * a.middle, t * a.low);
    let twice = triples::subtract_pair(once.words.high, once.words.low, s * b.middle, s * b.low);
    let sign = twice.words.high / 9223372036854775808;
    Long {
        high: Wide {
            high: 9223372036854775808 - sign,
            middle: sign * 18446744073709551615,
            low: twice.words.high,
        },
        low: Wide {
            high: twice.words.low,
            middle: whole.w1,
            low: whole.w0,
        },
    }
}

// a, where three words hold it.
pub fn narrow(a: Long) -> Wide
    requires { FitsWide (long_value a) }
    ensures { value result ≡ long_value a }
{
    triples::signed(a.low).words
}

// a · b, of two numbers up to 2^126, where three words hold it.
pub fn short_pair_product(a: Wide, b: Wide) -> Wide
    requires { (Sized (2 ^ 126) (value a) × Sized (2 ^ 126) (value b)) × FitsWide (value a *ℤ value b) }
    ensures { value result ≡ value a *ℤ value b }
{
    narrow(pair_product(a, b))
}

// Whether a is less than b.
pub fn below(a: Long, b: Long) -> bool
    ensures { result ≡ int_lt (long_value a) (long_value b) }
{
    a < b
}

// Whether a is at most b.
pub fn at_most(a: Long, b: Long) -> bool
    ensures { result ≡ int_le (long_value a) (long_value b) }
{
    !below(b, a)
}

pub fn is_negative(a: Long) -> bool
    ensures { result ≡ int_lt (long_value a) (pos 0) }
{
    number::is_negative(a.high)
}
