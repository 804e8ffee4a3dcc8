// Narrowing to 32 bits, rounding to a whole number, and whole numbers as floats, worked out from the bits of an f64.
// That a float is finite stays a clause, `T (finite x)`: a float in a struct of its own would be made for each call and opened in it.
#![tactic(auto)]

ghost use Rattle.std.specs.Prelude.{◌≡◌, ℕ, ◌+◌, ◌-◌, ◌*◌, ◌/◌, ◌%◌, ◌^◌, ◌<◌, ◌≤◌, T, if◌then◌else◌, to_bits, unsigned_abs};
ghost use Rattle.std.specs.Float.{binary64};
ghost use Rattle.std.specs.Float.Ieee.Scale.{finite};
ghost use Rattle.base_numbers.specs.Numbers.{near, half_of, long_of, narrow_of, double_of, of_words, bits_of, whole_at, PartsOf};

use std::cmp::Ordering;

// Where the half between two whole numbers goes: the rule for ties is a parameter of every rounding here. (An enum, though it has
// one rule: contracts name the rule, which a closure would hide.)
#[derive(Clone, Copy)]
pub enum Halves {
    Even,
}

// A finite f64 is sig * 2 ^ exp of the smallest positive one, 2 ^ -1074.
#[derive(Clone, Copy)]
pub struct Parts {
    pub neg: bool,
    pub exp: u64,
    pub sig: u64,
}

// The half above q.
fn at_half(h: Halves, q: u64) -> u64
    requires { q < 2 ^ 63 }
    ensures { result ≡ half_of h q }
{
    match h {
        Halves::Even => q + q % 2,
    }
}

// The whole number nearest to n / d.
fn near_ratio(h: Halves, n: u64, d: u64) -> u64
    requires { (0 < d) × (d < 2 ^ 63) × (n < 2 ^ 63) }
    ensures { result ≡ near h n d }
{
    let q = n / d;
    match (n % d * 2).cmp(&d) {
        Ordering::Less => q,
        Ordering::Equal => at_half(h, q),
        Ordering::Greater => q + 1,
    }
}

// The whole number nearest to sig / 2 ^ shift: from 55 places on it is below a half.
fn near_shift(h: Halves, sig: u64, shift: u64) -> u64
    requires { sig < 2 ^ 53 }
    ensures { result ≡ near h sig (2 ^ shift) }
{
    if shift >= 55 {
        return 0;
    }
    near_ratio(h, sig, 1 << shift)
}

// The fields of the bits: an exponent's field of 0 has no leading digit, and counts as 1.
fn take_apart(x: f64) -> Parts
    requires { T (finite x) }
    ensures { PartsOf x result.neg result.exp result.sig }
{
    let b = f64::to_bits(x);
    let neg = b >= 9223372036854775808;
    let field = b % 9223372036854775808 / 4503599627370496;
    let t = b % 4503599627370496;
    if field == 0 {
        Parts {
            neg,
            exp: 0,
            sig: t,
        }
    } else {
        Parts {
            neg,
            exp: field - 1,
            sig: 4503599627370496 + t,
        }
    }
}

// x rounded to a whole number, its range tested after rounding. An exponent above 1055 is 2 ^ 33 or more.
pub fn to_long(h: Halves, x: f64) -> Option<i64>
    requires { T (finite x) }
    ensures { result ≡ long_of h x }
{
    let p = take_apart(x);
    let exp = p.exp;
    if exp > 1055 {
        return None;
    }
    let n = near_shift(h, p.sig, 1074 - exp);
    // one more below 0 than above it
    if n > 2147483647 + u64::from(p.neg) {
        return None;
    }
    let z = n as i64;
    Some(if p.neg { -z } else { z })
}

fn sign_bit(neg: bool) -> u64
    ensures { result ≡ (if neg then 2147483648 else 0) }
{
    if neg { 2147483648 } else { 0 }
}

// x narrowed to 32 bits, given back at 64. The leading digit, and a carry out of the digits, run into the exponent's field by themselves.
pub fn to_single(x: f64) -> Option<f64>
    requires { T (finite x) }
    ensures { result ≡ narrow_of x }
{
    let p = take_apart(x);
    let exp = p.exp;
    if exp >= 1150 {
        return None;
    }
    // how far the exponent lies above that of 32 bits' smallest normal numbers: 0 for those that are subnormal there
    let k = exp.saturating_sub(896);
    let q = near_shift(Halves::Even, p.sig, 925 + k - exp);
    let b = k * 8388608 + q;
    if b >= 2139095040 {
        return None;
    }
    Some(f32::from_bits((sign_bit(p.neg) + b) as u32) as f64)
}

// A whole number as a float, exact up to 2 ^ 53 either way.
pub fn to_double(z: i64) -> f64
    ensures { result ≡ double_of z }
{
    std::num::nearest_i64_to_f64(z)
}

// By two comparisons: the library's `is_finite` promises the same by another definition than the contracts here cite.
pub fn is_finite(x: f64) -> bool
    ensures { result ≡ finite x }
{
    let top = f64::from_bits(0x7ff0_0000_0000_0000);
    x < top && -top < x
}

// 64 bits as two words, the low first.
#[derive(Clone, Copy, Debug, PartialEq, Eq)]
pub struct TwoWords {
    pub low: u32,
    pub high: u32,
}

impl From<u64> for TwoWords {
    ghost from_gives = { λ n w. (w.low ≡ n % 4294967296) × (w.high ≡ n / 4294967296) };

    fn from(bits: u64) -> TwoWords {
        TwoWords {
            low: (bits % 4294967296) as u32,
            high: (bits / 4294967296) as u32,
        }
    }
}

impl From<TwoWords> for u64 {
    ghost from_gives = { λ w n. n ≡ w.high * 4294967296 + w.low };

    fn from(words: TwoWords) -> u64 {
        u64::from(words.high) * 4294967296 + u64::from(words.low)
    }
}

// A float's words and back: no From, since both ask for a finite float.
pub fn words_of(x: f64) -> TwoWords
    requires { T (finite x) }
    ensures { (result.low ≡ to_bits binary64 x % 4294967296) × (result.high ≡ to_bits binary64 x / 4294967296) }
{
    TwoWords::from(x.to_bits())
}

pub fn of_words(words: TwoWords) -> f64
    requires { T (finite (of_words words.low words.high)) }
    ensures { result ≡ of_words words.low words.high }
{
    f64::from_bits(u64::from(words))
}

// A whole number's words, two's complement.
pub fn whole_words(z: i64) -> TwoWords
    requires { unsigned_abs z < 4294967296 }
    ensures { (result.low ≡ bits_of z % 4294967296) × (result.high ≡ bits_of z / 4294967296) }
{
    TwoWords::from(z.cast_unsigned())
}

// And back.
pub fn of_whole_words(words: TwoWords) -> i64
    ensures { result ≡ whole_at words.low words.high }
{
    u64::from(words).cast_signed()
}
