ghost use Rattle.std.specs.Prelude.{◌≡◌, [], ◌∷◌, ◌+◌, ◌<◌, ◌≤◌, length};
ghost use Rattle.record_text.specs.Text.{glyph, digits, places_of, decimal, hexadecimal, printed_bits, Put};

// The functions that store a text in an area take the place of its first byte and return the place behind its last.

// The ASCII code of a digit.
#[tactic(auto, unfolding(crate::specs::Text::glyph))]
fn glyph(digit: u64) -> u8
    requires { digit < 16 }
    ensures { result ≡ glyph digit }
{
    if digit < 10 {
        return 48 + digit as u8;
    }
    87 + digit as u8
}

// One byte at a place.
pub fn put_byte(out: &mut [u8], at: usize, byte: u8) -> usize
    requires { at + 1 ≤ length out.old }
    ensures { Put out.old at (byte ∷ []) out.new result }
{
    out[at] = byte;
    at + 1
}

// A text from a place on.
pub fn put_text(out: &mut [u8], at: usize, text: &[u8]) -> usize
    requires { at + length text.now ≤ length out.old }
    ensures { Put out.old at text.now out.new result }
{
    let end = at + text.len();
    out[at..end].copy_from_slice(text);
    end
}

// The last k digits of a number.
fn put_digits(out: &mut [u8], at: usize, n: u64, base: u64, k: usize) -> usize
    requires { (at + k ≤ length out.old) × ((1 < base) × (base ≤ 16)) }
    ensures { Put out.old at (digits base k n) out.new result }
{
    if k == 0 {
        return at;
    }
    let next = put_digits(out, at, n / base, base, k - 1);
    put_byte(out, next, glyph(n % base))
}

// How many decimal digits a number has, if no more than `most`.
fn places(n: u64, most: usize) -> usize
    ensures { result ≡ places_of most n }
{
    if most == 0 {
        return 0;
    }
    if n < 10 {
        return 1;
    }
    places(n / 10, most - 1) + 1
}

// A number in at most 20 decimal digits, from a place on.
#[tactic(auto, using(crate::proofs::Places::places_at_most), unfolding(crate::specs::Text::decimal))]
pub fn put_decimal(out: &mut [u8], at: usize, n: u64) -> usize
    requires { at + 20 ≤ length out.old }
    ensures { Put out.old at (decimal n) out.new result }
{
    let k = places(n, 20);
    put_digits(out, at, n, 10, k)
}

// A number in 16 hexadecimal digits, from a place on.
#[tactic(auto, unfolding(crate::specs::Text::hexadecimal))]
pub fn put_hexadecimal(out: &mut [u8], at: usize, n: u64) -> usize
    requires { at + 16 ≤ length out.old }
    ensures { Put out.old at (hexadecimal n) out.new result }
{
    put_digits(out, at, n, 16, 16)
}

// The bits that are printed for a float: its own, and of one NaN for every NaN.
#[tactic(auto, using(arithmetic::proofs::Order::ne_self_is_nan), unfolding(crate::specs::Text::printed_bits))]
pub fn printed_bits(x: f64) -> u64
    ensures { result ≡ printed_bits x }
{
    if x != x {
        return 0x7ff8_0000_0000_0000;
    }
    f64::to_bits(x)
}
