ghost use Rattle.std.specs.Prelude.{◌≡◌, ◌+◌, ◌-◌, ◌*◌, ◌/◌, ◌%◌, ◌^◌, ◌<◌, ◌≤◌, true, false, from_bits, nat_le, Float};
ghost use Rattle.std.specs.Float.{binary64};
ghost use Rattle.std.specs.Float.Ieee.Exact.{HasValue};
ghost use Rattle.arithmetic.specs.Root.{root_of, NearestRoot, CloseRoot, RootGuessed};

// Whether t * t is at most m * 2^54. The halves of t keep each product within 64 digits.
fn square_at_most(t: u64, m: u64) -> bool
    requires { t ≤ 2 ^ 54 }
    ensures { result ≡ nat_le (t * t) (m * 2 ^ 54) }
{
    let a = t / 134217728;
    let b = t % 134217728;
    let cross = a * b;
    let low = cross % 67108864 * 268435456 + b * b;
    let units = a * a + cross / 67108864 + (low + 18014398509481983) / 18014398509481984;
    units <= m
}

// The whole number nearest to the root of m * 2^52, by halving an interval that holds the root of m * 2^54, which is twice as large.
fn halved_root(m: u64) -> u64
    requires { (2 ^ 52 ≤ m) × (m < 2 ^ 54) }
    ensures { NearestRoot (m * 2 ^ 52) result }
{
    let mut low = 9007199254740992;
    let mut high = 18014398509481984;
    // The test of each middle says which half is left, so that the interval itself is what is gone through.
    while high - low > 1 {
        let middle = low + (high - low) / 2;
        if square_at_most(middle, m) {
            low = middle;
        } else {
            high = middle;
        }
    }
    (low + 1) / 2
}

// The root of the float whose value is m * 2^52 * 4^k in units of 2^-2148. The leading digit of the root adds one to the exponent's field.
fn scaled_root(m: u64, k: u64) -> f64
    requires { (2 ^ 52 ≤ m) × (m ≤ 2 ^ 54 - 2) × (k ≤ 1533) }
    ensures { (x : Float) → HasValue x false (m * 2 ^ 52 * (2 ^ k * 2 ^ k)) (2 ^ 2148) → result ≡ root_of x }
{
    f64::from_bits(k * 4503599627370496 + halved_root(m))
}

// The root of the subnormal number with the pattern b.
fn subnormal_root(b: u64) -> f64
    requires { (0 < b) × (b < 2 ^ 52) }
    ensures { result ≡ root_of (from_bits binary64 b) }
{
    let mut m = b;
    let mut k = 511;
    // How often depends on the digits.
    while m < 4503599627370496 {
        m *= 4;
        k -= 1;
    }
    scaled_root(m, k)
}

// The digits of a normal number, the leading one included, twice if the lowest digit of its exponent, the highest of c, is set.
fn even_digits(c: u64) -> u64
    requires { c < 2 ^ 53 }
    ensures { result ≡ (c % 2 ^ 52 + 2 ^ 52) * (1 + c / 2 ^ 52) }
{
    if c < 4503599627370496 {
        return c + 4503599627370496;
    }
    c + c
}

// The root of the number with the pattern b, by halving. With 1021 added to the exponent's field of a normal number, half of that is the
// root's.
fn careful_root(b: u64) -> f64
    requires { (0 < b) × (b < 2047 * 2 ^ 52) }
    ensures { result ≡ root_of (from_bits binary64 b) }
{
    if b < 4503599627370496 {
        return subnormal_root(b);
    }
    let raised = b + 0x3fd0_0000_0000_0000;
    scaled_root(
        even_digits(raised % 9007199254740992),
        raised / 9007199254740992,
    )
}

// a + slope * x + c * x²
#[derive(Clone, Copy)]
struct Parabola(f64, f64, f64);

// Near 1/(2 * sqrt(x)) on a piece, of 32 from 1 to 2 and 32 from 2 to 4. A match is compiled to a table. An array would be copied at each
// call.
fn near_parabola(piece: u64) -> Parabola {
    match piece {
        0 => Parabola(0.930312121, -0.610707073, 0.180394808),
        1 => Parabola(0.916318678, -0.583562885, 0.167231125),
        2 => Parabola(0.902938352, -0.558371677, 0.155374008),
        3 => Parabola(0.890127632, -0.534942226, 0.14466133),
        4 => Parabola(0.877847215, -0.513106732, 0.134954891),
        5 => Parabola(0.866061492, -0.492717396, 0.126136354),
        6 => Parabola(0.854738114, -0.473643587, 0.118103959),
        7 => Parabola(0.843847617, -0.455769464, 0.110769842),
        8 => Parabola(0.833363105, -0.438991977, 0.104057853),
        9 => Parabola(0.82325996, -0.423219186, 0.09790175),
        10 => Parabola(0.813515608, -0.40836883, 0.092243711),
        11 => Parabola(0.804109302, -0.394367109, 0.087033101),
        12 => Parabola(0.795021935, -0.381147645, 0.082225434),
        13 => Parabola(0.786235881, -0.36865059, 0.077781517),
        14 => Parabola(0.777734847, -0.356821856, 0.073666714),
        15 => Parabola(0.769503749, -0.345612454, 0.069850338),
        16 => Parabola(0.761528594, -0.334977917, 0.066305128),
        17 => Parabola(0.753796388, -0.3248778, 0.063006804),
        18 => Parabola(0.74629504, -0.315275244, 0.059933695),
        19 => Parabola(0.739013286, -0.306136597, 0.057066407),
        20 => Parabola(0.731940615, -0.297431076, 0.054387551),
        21 => Parabola(0.72506721, -0.289130476, 0.051881498),
        22 => Parabola(0.718383886, -0.281208912, 0.049534177),
        23 => Parabola(0.711882039, -0.273642586, 0.047332892),
        24 => Parabola(0.705553602, -0.266409588, 0.045266165),
        25 => Parabola(0.699391001, -0.259489716, 0.043323603),
        26 => Parabola(0.693387117, -0.252864315, 0.041495777),
        27 => Parabola(0.687535252, -0.246516135, 0.03977412),
        28 => Parabola(0.681829097, -0.240429204, 0.038150831),
        29 => Parabola(0.676262703, -0.234588713, 0.036618802),
        30 => Parabola(0.670830456, -0.228980917, 0.035171539),
        31 => Parabola(0.665527053, -0.22359304, 0.033803108),
        32 => Parabola(0.65783001, -0.215917556, 0.031889598),
        33 => Parabola(0.647935151, -0.206320637, 0.029562566),
        34 => Parabola(0.638473831, -0.197414199, 0.027466504),
        35 => Parabola(0.629415285, -0.189130638, 0.025572752),
        36 => Parabola(0.620731719, -0.181410625, 0.02385688),
        37 => Parabola(0.612397954, -0.174201906, 0.022297968),
        38 => Parabola(0.604391116, -0.167458296, 0.020878028),
        39 => Parabola(0.596690373, -0.161138839, 0.019581527),
        40 => Parabola(0.589276703, -0.155207102, 0.018395003),
        41 => Parabola(0.5821327, -0.149630578, 0.017306748),
        42 => Parabola(0.575242403, -0.144380184, 0.016306538),
        43 => Parabola(0.56859114, -0.139429828, 0.015385424),
        44 => Parabola(0.562165401, -0.134756042, 0.014535541),
        45 => Parabola(0.555952723, -0.130337666, 0.013749959),
        46 => Parabola(0.549941585, -0.126155577, 0.013022558),
        47 => Parabola(0.544121319, -0.122192455, 0.012347912),
        48 => Parabola(0.538482033, -0.118432578, 0.011721201),
        49 => Parabola(0.533014538, -0.114861648, 0.011138135),
        50 => Parabola(0.527710283, -0.111466631, 0.010594881),
        51 => Parabola(0.522561306, -0.108235632, 0.010088011),
        52 => Parabola(0.517560172, -0.105157765, 0.009614452),
        53 => Parabola(0.512699941, -0.10222306, 0.00917144),
        54 => Parabola(0.507974117, -0.099422364, 0.008756488),
        55 => Parabola(0.503376617, -0.096747264, 0.008367352),
        56 => Parabola(0.498901737, -0.094190013, 0.008002003),
        57 => Parabola(0.49454412, -0.091743469, 0.007658603),
        58 => Parabola(0.490298733, -0.089401036, 0.007335486),
        59 => Parabola(0.486160839, -0.087156615, 0.007031137),
        60 => Parabola(0.482125978, -0.08500456, 0.006744178),
        61 => Parabola(0.478189943, -0.082939635, 0.006473351),
        62 => Parabola(0.474348764, -0.08095698, 0.006217508),
        _ => Parabola(0.470598692, -0.079052077, 0.005975602),
    }
}

// A guess at the root of the float x, from 1 to 4, with the pattern b. h is near 1/(2 * sqrt(x)). t is near the root and has 26 digits, so
// that its square is exact, and so is the rest; two terms of the series in the rest mend it. Of a hundred thousand guesses one or two are
// not the float nearest to the root. Nothing rests on that.
fn guessed_root(b: u64) -> f64
    requires { (0x3ff0_0000_0000_0000 ≤ b) × (b < 0x3ff0_0000_0000_0000 + 2 ^ 53) }
{
    let x = f64::from_bits(b);
    let Parabola(a, slope, c) = near_parabola((b - 0x3ff0_0000_0000_0000) / 140737488355328);
    let h = a + slope * x + x * x * c;
    let s = (x + x) * h;
    if s < 2.0 {
        let t = f64::from_bits(f64::to_bits(s) % 4611686018427387904 / 134217728 * 134217728);
        let rest = x - t * t;
        return t + rest * h * (2.0 - (t + t) * h - rest * (h * h));
    }
    0.0
}

// Whether q is the whole number nearest to the root of m * 2^52: rest, m * 2^52 - q * q, lies from 1 - q to q. Its lowest 64 digits are
// enough, since q is close, and the halves of q keep each product within them.
fn is_nearest(m: u64, q: u64) -> bool
    requires { (0 < q) × CloseRoot m q }
    ensures { result ≡ true → NearestRoot (m * 2 ^ 52) q }
{
    let a = q / 4294967296;
    let b = q % 4294967296;
    let square = std::num::wrapping_add_u64(a * b % 2147483648 * 8589934592, b * b);
    let rest = std::num::wrapping_sub_u64(m % 4096 * 4503599627370496, square);
    std::num::wrapping_add_u64(rest, q - 1) < 2 * q
}

// Whether a guess is the root of the float with the pattern b, which is m * 2^-52, from 1 to 4. Its square, rounded, must be less than
// 2^-43 from that, which 2^-86 tells of the distance's square; then its digits tell. From 1 to 2 they are the pattern less 1022 * 2^52.
fn is_root(m: u64, b: u64, guess: f64) -> bool
    requires { (2 ^ 52 ≤ m) × (m < 2 ^ 54) × (0x3ff0_0000_0000_0000 ≤ b) × (b < 0x3ff0_0000_0000_0000 + 2 ^ 53)
        × HasValue (from_bits binary64 b) false m (2 ^ 52) }
    ensures { result ≡ true → RootGuessed m guess }
{
    let off = f64::from_bits(b) - guess * guess;
    if off * off < 1.2924697071141057e-26 {
        let digits = std::num::wrapping_sub_u64(f64::to_bits(guess), 0x3ff0_0000_0000_0000);
        if digits < 4503599627370496 {
            return is_nearest(m, digits + 4503599627370496);
        }
    }
    false
}

// The root of the normal number with the pattern b: a guess, and with care where that fails. A jump tells that the guess is the root, and a
// product with a power of two is exact, so that what is divided by the root waits for neither the test nor the pattern.
fn normal_root(b: u64) -> f64
    requires { (2 ^ 52 ≤ b) × (b < 2047 * 2 ^ 52) }
    ensures { result ≡ root_of (from_bits binary64 b) }
{
    let raised = b + 0x3fd0_0000_0000_0000;
    let low = raised % 9007199254740992;
    let x = low + 0x3ff0_0000_0000_0000;
    let guess = guessed_root(x);
    if is_root(even_digits(low), x, guess) {
        return guess * f64::from_bits((raised / 9007199254740992 + 1) * 4503599627370496);
    }
    careful_root(b)
}

// The square root: a zero keeps its sign, and a number below zero gives NaN.
pub fn root(x: f64) -> f64
    ensures { result ≡ root_of x }
{
    if x > 0.0 {
        let b = f64::to_bits(x);
        if b < 4503599627370496 {
            return careful_root(b);
        }
        if b < 9218868437227405312 {
            return normal_root(b);
        }
        return x;
    }
    if x == 0.0 {
        return x;
    }
    0.0 / 0.0
}
