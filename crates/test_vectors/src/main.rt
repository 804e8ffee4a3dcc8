// Replays vectors of narrowing, rounding and whole numbers as floats, made by the machine's own conversions (make.c says how), and prints how
// many of each group come out as they say.
#![tactic(auto)]

ghost use Rattle.std.specs.Prelude.{◌≡◌, ℕ, ◌+◌, ◌/◌, ◌%◌, ◌<◌, ◌≤◌, T, length, ◌==◌};
ghost use Rattle.std.specs.Float.Ieee.Scale.{finite};

use base_numbers::{Halves, TwoWords};
use std::io;

// A line is a letter, two numbers of 16 hexadecimal digits, each after a blank, and a line end.
const LINE: usize = 36;

// A hexadecimal digit, from 0 or from a on; a line holds no other byte. (Not the library's `to_digit`: it reads capitals too.)
fn digit(b: u8) -> u32 {
    match b {
        0..=47 => 0,
        48..=96 => u32::from(b) - 48,
        _ => u32::from(b) - 87,
    }
}

// Hexadecimal digits, of which the last eight count.
fn word(digits: &[u8]) -> u32 {
    let mut w: u32 = 0;
    for &b in digits {
        w = (w << 4).wrapping_add(digit(b));
    }
    w
}

// Sixteen digits.
fn words(digits: &[u8]) -> TwoWords
    requires { length digits.now ≡ 16 }
{
    TwoWords {
        low: word(&digits[8..]),
        high: word(&digits[..8]),
    }
}

fn not_finite(w: TwoWords) -> bool
    ensures { result ≡ (w.high / 1048576 % 2048 == 2047) }
{
    w.high / 1048576 % 2048 == 2047
}

// The float of two words; 0 for those that aren't a finite one's.
fn float(w: TwoWords) -> f64
    ensures { T (finite result) }
{
    if not_finite(w) {
        0.0
    } else {
        base_numbers::of_words(w)
    }
}

fn bits(x: f64) -> TwoWords {
    if base_numbers::is_finite(x) {
        base_numbers::words_of(x)
    } else {
        TwoWords { low: 0, high: 0 }
    }
}

fn narrows(x: TwoWords, y: TwoWords) -> bool {
    match base_numbers::to_single(float(x)) {
        Some(v) => bits(v) == y,
        None => not_finite(y),
    }
}

fn rounds(x: TwoWords, y: TwoWords) -> bool {
    match base_numbers::to_long(Halves::Even, float(x)) {
        Some(z) => z == base_numbers::of_whole_words(y),
        None => y.high == 2147483648,
    }
}

fn widens(x: TwoWords, y: TwoWords) -> bool {
    bits(base_numbers::to_double(base_numbers::of_whole_words(x))) == y
}

// Whether a line's second number is what becomes of the first.
fn right(line: &[u8]) -> bool
    requires { length line.now ≡ LINE }
{
    let x = words(&line[2..18]);
    let y = words(&line[19..35]);
    match line[0] {
        b'n' => narrows(x, y),
        b'r' => rounds(x, y),
        b'w' => widens(x, y),
        _ => false,
    }
}

// How many lines begin with this letter, and how many of them are right. (`test_replay` has a `Score` of its own: a crate for two fields would be no plainer.)
#[derive(Clone, Copy)]
struct Score {
    all: usize,
    right: usize,
}

fn count(s: &[u8], letter: u8) -> Score {
    let mut score = Score { all: 0, right: 0 };
    for line in s.chunks_exact(LINE) {
        if line[0] == letter {
            score.all += 1;
            score.right += usize::from(right(line));
        }
    }
    score
}

fn print(rt: &impl Print, name: &str, c: Score) -> io::Result<()> {
    println!(rt; "{name} {} of {}", c.right, c.all)
}

fn main(rt: HostRuntime) -> io::Result<()> {
    let mut buffer: [u8; 65536] = base_input::room(0);
    let n = base_input::read_full(&mut rt.stdin(), &mut buffer)?;
    let s = &buffer[..n];
    print(&rt, "narrowed", count(s, b'n'))?;
    print(&rt, "rounded", count(s, b'r'))?;
    print(&rt, "whole", count(s, b'w'))
}
