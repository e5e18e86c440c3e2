// The numeric floor: small functions on f64 as Rust has them, and this project's sine, cosine and powers.
// Every public function is total; its contract is one equation with a definition of specs/.
#![tactic(auto)]

ghost use Rattle.std.specs.Prelude.{◌≡◌, ◌≤◌, min, not, T, if◌then◌else◌};
ghost use Rattle.std.specs.Float.Ieee as Ieee;
ghost use Rattle.std.specs.Float.{binary64};
ghost use Rattle.laws.specs.Float.{is_fin, one};
ghost use Rattle.numeric.specs.Basic.{fabs_of, clamp_of, min_of, max_of, whole_of, real_of};
ghost use Rattle.numeric.specs.Floor.{floor_of};
ghost use Rattle.numeric.specs.Draw.{draw_of, bipolar_of};
ghost use Rattle.numeric.specs.Power.{six_of, exp_part, scale_of, mid_of, exp2_of, pow3000_of};
ghost use Rattle.numeric.specs.Trig.{pairs_of, kernel_sin, kernel_cos, is_near, rest_of, quadrant, turned_of, far_of, sin_of, cos_of};

// core::f64::consts: half a turn and a whole one in radians.
pub const PI: f64 = 3.141592653589793;

pub const TAU: f64 = 6.283185307179586;

// ---- small functions

// Neither an infinity nor a NaN: only those are not 0 less themselves.
// Kept: a public function, of which Settled speaks; the library's body is the same test.
pub fn is_finite(x: f64) -> bool
    ensures { result ≡ is_fin x }
{
    x - x == 0.0
}

// The sign cleared. 0.0 - x is -x, and +0.0 for both zeros.
// Kept: a public function, of which Settled speaks; the library's `abs` asks twice where this asks once.
pub fn fabs(x: f64) -> f64
    ensures { result ≡ fabs_of x }
{
    if x > 0.0 { x } else { 0.0 - x }
}

// A NaN passes, and -0.0 is kept.
// Kept: the library's `clamp` asks of its caller that lo isn't above hi, and this one's contract nothing.
pub fn clamp(x: f64, lo: f64, hi: f64) -> f64
    ensures { result ≡ clamp_of x lo hi }
{
    if x < lo {
        lo
    } else if x > hi {
        hi
    } else {
        x
    }
}

// The smaller; with one NaN the other number.
// Kept: here and in `max` min_of and max_of say which of 0.0 and -0.0 it is, and the library's contract leaves that open.
pub fn min(a: f64, b: f64) -> f64
    ensures { result ≡ min_of a b }
{
    if a < b {
        a
    } else if b != b {
        a
    } else {
        b
    }
}

// The larger; with one NaN the other number.
pub fn max(a: f64, b: f64) -> f64
    ensures { result ≡ max_of a b }
{
    if b < a {
        a
    } else if b != b {
        a
    } else {
        b
    }
}

// The smaller of two whole numbers.
// Kept: a public function, of which Settled speaks; its body is the library's.
pub fn least(a: usize, b: usize) -> usize
    ensures { result ≡ min a b }
{
    a.min(b)
}

// Rust's `as u64`: toward zero, a NaN to 0, saturating.
pub fn to_u64(x: f64) -> u64
    ensures { result ≡ whole_of x }
{
    std::num::saturating_f64_to_u64(x)
}

// Rust's `as usize`, of 64 bits.
pub fn to_usize(x: f64) -> usize
    ensures { result ≡ whole_of x }
{
    std::num::saturating_f64_to_usize(x)
}

// Rust's `as f64`.
pub fn of_u64(n: u64) -> f64
    ensures { result ≡ real_of n }
{
    std::num::nearest_u64_to_f64(n)
}

// The bits of x, any NaN as 7FF8000000000000.
pub fn bits(x: f64) -> u64
    ensures { result ≡ Ieee.to_bits binary64 x }
{
    if x != x {
        0x7ff8_0000_0000_0000
    } else {
        f64::to_bits(x)
    }
}

// The number that bits stand for, every NaN pattern the one NaN.
pub fn of_bits(b: u64) -> f64
    ensures { result ≡ Ieee.of_bits binary64 b }
{
    if b % 0x8000_0000_0000_0000 <= 0x7ff0_0000_0000_0000 {
        f64::from_bits(b)
    } else {
        0.0 / 0.0
    }
}

// ---- the floor

// r is a whole number next to x: the one that isn't above x, and x itself where they are equal (-0.0).
fn pick(x: f64, r: f64) -> f64
    ensures { result ≡ (if Ieee.lt x r then Ieee.sub binary64 r one else (if Ieee.eq r x then x else r)) }
{
    if r > x {
        r - 1.0
    } else if r == x {
        x
    } else {
        r
    }
}

// The largest whole number that isn't above x. A sum with 2^52 has no room for a fraction; from 2^52 on x has none.
// Kept: a public function, of which Settled speaks; the library's `floor` makes two roundings of the size and chooses by the sign, this one rounds once.
pub fn floor(x: f64) -> f64
    ensures { result ≡ floor_of x }
{
    if x < 0.0 {
        if x > -4503599627370496.0 {
            pick(x, (x - 4503599627370496.0) + 4503599627370496.0)
        } else {
            x
        }
    } else if x < 4503599627370496.0 {
        pick(x, (x + 4503599627370496.0) - 4503599627370496.0)
    } else {
        x
    }
}

// ---- the noise draw

// 2^-53, the step between two draws.
const STEP: f64 = 1.1102230246251565e-16;

// k * 2^-53. Of a k below 2^53 the cast loses nothing, and no digit of the draw is rounded; any other k is rounded once.
pub fn draw(k: u64) -> f64
    ensures { result ≡ draw_of k }
{
    if k < 9007199254740992 {
        (k as f64) * STEP
    } else {
        of_u64(k) * STEP
    }
}

// Twice that less 1: exact too.
pub fn bipolar(k: u64) -> f64
    ensures { result ≡ bipolar_of k }
{
    draw(k) * 2.0 - 1.0
}

// ---- powers

// A polynomial of degree 5, in pairs.
fn six(z: f64, c0: f64, c1: f64, c2: f64, c3: f64, c4: f64, c5: f64) -> f64
    ensures { result ≡ six_of z c0 c1 c2 c3 c4 c5 }
{
    let w = z * z;
    (c0 + z * c1) + w * ((c2 + z * c3) + w * (c4 + z * c5))
}

// 2^f for an f from -1/2 to 1/2: the even powers and the odd ones.
fn exp_part(f: f64) -> f64
    ensures { result ≡ exp_part f }
{
    let z = f * f;
    six(
        z,
        1.0,
        0.24022650695910097,
        0.009618129107606888,
        0.0001540353044173605,
        1.321544258792169e-06,
        7.072585949269223e-09,
    ) + f
        * six(
            z,
            0.6931471805599453,
            0.0555041086648216,
            0.0013333558146416936,
            1.525273382983612e-05,
            1.0178062445845774e-07,
            4.4549605981865186e-10,
        )
}

// The power of two whose exponent's field stands in the lowest bits of t.
fn scale(t: f64) -> f64
    requires { T (not (Ieee.is_nan t)) }
    ensures { result ≡ scale_of t }
{
    f64::from_bits(f64::to_bits(t) % 4096 * 4503599627370496)
}

// 2^x for an x from -1022 to 1023: the whole number nearest to x is split off.
fn mid(x: f64) -> f64
    requires { T (not (Ieee.is_nan x)) }
    ensures { result ≡ mid_of x }
{
    let t = x + 6755399441056767.0;
    exp_part(x - (t - 6755399441056767.0)) * scale(t)
}

// 2^x. Up to 1024 the nearest whole number may be 1024, whose power is no float: twice 2^(x - 1).
pub fn exp2(x: f64) -> f64
    ensures { result ≡ exp2_of x }
{
    if x < 1023.0 {
        if x >= -1022.0 { mid(x) } else { 0.0 }
    } else if x < 1024.0 {
        mid(x - 1.0) * 2.0
    } else if x >= 1024.0 {
        1.0 / 0.0
    } else {
        0.0 / 0.0
    }
}

// 3000^r.
pub fn pow3000(r: f64) -> f64
    ensures { result ≡ pow3000_of r }
{
    if r == 1.0 {
        3000.0
    } else {
        exp2(r * 11.550746785383243)
    }
}

// ---- sine and cosine

// A polynomial of degree 6 with alternating signs, in pairs.
fn pairs(z: f64, c1: f64, c2: f64, c3: f64, c4: f64, c5: f64, c6: f64, c7: f64) -> f64
    ensures { result ≡ pairs_of z c1 c2 c3 c4 c5 c6 c7 }
{
    let w = z * z;
    (c1 - z * c2) + w * ((c3 - z * c4) + w * ((c5 - z * c6) + w * c7))
}

// Taylor's terms of the sine up to the 15th power.
fn kernel_sin(r: f64) -> f64
    ensures { result ≡ kernel_sin r }
{
    let z = r * r;
    r - r
        * (z * pairs(
            z,
            0.16666666666666666,
            0.008333333333333333,
            0.0001984126984126984,
            2.7557319223985893e-06,
            2.505210838544172e-08,
            1.6059043836821613e-10,
            7.647163731819816e-13,
        ))
}

// Taylor's terms of the cosine up to the 14th power.
fn kernel_cos(r: f64) -> f64
    ensures { result ≡ kernel_cos r }
{
    let z = r * r;
    1.0 - z
        * pairs(
            z,
            0.5,
            0.041666666666666664,
            0.001388888888888889,
            2.48015873015873e-05,
            2.755731922398589e-07,
            2.08767569878681e-09,
            1.1470745597729725e-11,
        )
}

// At most a half right angle.
fn is_near(x: f64) -> bool
    ensures { result ≡ is_near x }
{
    if x <= 0.7853981633974483 {
        x >= -0.7853981633974483
    } else {
        false
    }
}

// x less k right angles; the first part of a right angle is short enough that k times it is exact.
fn rest(x: f64, k: f64) -> f64
    ensures { result ≡ rest_of x k }
{
    (x - k * 1.5707963267941523) - k * 7.443547480486623e-13
}

// The sine of r and q right angles.
fn quadrant_of(q: u64, r: f64) -> f64
    ensures { result ≡ quadrant q r }
{
    if q == 0 {
        kernel_sin(r)
    } else if q == 1 {
        kernel_cos(r)
    } else if q == 2 {
        -kernel_sin(r)
    } else {
        -kernel_cos(r)
    }
}

// The sine of x and `ahead` right angles, x in right angles rounded by a sum.
fn turned(ahead: u64, x: f64) -> f64
    requires { (ahead ≤ 1) × T (not (Ieee.is_nan x)) }
    ensures { result ≡ turned_of ahead x }
{
    let t = x * 0.6366197723675814 + 6755399441055744.0;
    let q = f64::to_bits(t) % 4;
    quadrant_of((q + ahead) % 4, rest(x, t - 6755399441055744.0))
}

// Beyond 512 NaN.
fn far(ahead: u64, x: f64) -> f64
    requires { ahead ≤ 1 }
    ensures { result ≡ far_of ahead x }
{
    if x <= 512.0 {
        if x >= -512.0 {
            turned(ahead, x)
        } else {
            0.0 / 0.0
        }
    } else {
        0.0 / 0.0
    }
}

// The sine of x radians.
pub fn sin(x: f64) -> f64
    ensures { result ≡ sin_of x }
{
    if is_near(x) { kernel_sin(x) } else { far(0, x) }
}

// The cosine of x radians.
pub fn cos(x: f64) -> f64
    ensures { result ≡ cos_of x }
{
    if is_near(x) { kernel_cos(x) } else { far(1, x) }
}
