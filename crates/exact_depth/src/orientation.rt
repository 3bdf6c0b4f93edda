ghost use Rattle.std.specs.Prelude.{◌≡◌};
ghost use Rattle.wide_integers.specs.Sizes.{Sized, Sized61};
ghost use Rattle.wide_integers.specs.Determinant.{determinant};
ghost use Rattle.exact_depth.specs.Orientation.{LimbsOf, LimbsSized, SignOf, high_part, middle_part, low_part};

// A number as high · 2^31 + low, with low from 0 to below 2^31.
// A type of its own: Double and Long of wide_integers are read by other bases, which one type would not say.
#[derive(Clone, Copy)]
pub struct Limbs {
    pub high: i64,
    pub low: i64,
}

// The limbs of a number.
fn limbs_of(x: i64) -> Limbs
    requires { Sized 9223372034707292160 x }
    ensures { LimbsOf x result }
{
    let high = x >> 31;
    Limbs {
        high,
        low: x - high * 2147483648,
    }
}

// The determinant a d - b c is high · 2^62 + middle · 2^31 + low: the high part ..
fn high_part(a: Limbs, b: Limbs, c: Limbs, d: Limbs) -> i64
    requires { (LimbsSized a × LimbsSized b) × (LimbsSized c × LimbsSized d) }
    ensures { (result ≡ high_part a b c d) × Sized61 result }
{
    a.high * d.high - b.high * c.high
}

// .. the middle part ..
fn middle_part(a: Limbs, b: Limbs, c: Limbs, d: Limbs) -> i64
    requires { (LimbsSized a × LimbsSized b) × (LimbsSized c × LimbsSized d) }
    ensures { (result ≡ middle_part a b c d) × Sized 9223372032559808512 result }
{
    a.high * d.low + a.low * d.high - (b.high * c.low + b.low * c.high)
}

// .. and the low part.
fn low_part(a: Limbs, b: Limbs, c: Limbs, d: Limbs) -> i64
    requires { (LimbsSized a × LimbsSized b) × (LimbsSized c × LimbsSized d) }
    ensures { (result ≡ low_part a b c d) × Sized 4611686014132420609 result }
{
    a.low * d.low - b.low * c.low
}

// A number with the sign of the determinant a d - b c: the high part, with the carries of the two below it, where it is not 0.
pub fn sign_of_determinant(a: i64, b: i64, c: i64, d: i64) -> i64
    requires { (Sized61 a × Sized61 b) × (Sized61 c × Sized61 d) }
    ensures { SignOf result (determinant a b c d) × Sized 2305843013508661248 result }
{
    let p = limbs_of(a);
    let q = limbs_of(b);
    let r = limbs_of(c);
    let s = limbs_of(d);
    let low = limbs_of(low_part(p, q, r, s));
    let middle = limbs_of(middle_part(p, q, r, s) + low.high);
    let high = high_part(p, q, r, s) + middle.high;
    if high == 0 {
        return middle.low + low.low;
    }
    high
}
