// Writes text into a lent buffer, as much as fits. A writer's state is one place in it; a place past the end says that not all fitted.
// `out` and `at` stay two: a struct of both would hold a `&mut`, so that each writer would promise besides that it still lends the same bytes.
// By hand and no `Display`: the text goes into lent bytes, without a heap, as much as fits, and its place is counted.
#![tactic(auto)]

ghost use Rattle.std.specs.Prelude.{◌≡◌, [], ◌∷◌, ◌+◌, ◌-◌, ◌≤◌, ◌<◌, length, take, drop, replicate, leb};
ghost use Rattle.std.proofs.lemmas.List.Edits.{sets};
ghost use Rattle.base_words.specs.Word.{pick};
ghost use Rattle.base_text.specs.Text.{digit as digit_of, hex8, pair, decimal};
ghost use Rattle.base_text.specs.Wrote.{Wrote};

pub fn put_byte(out: &mut [u8], at: usize, b: u8) -> usize
    ensures { Wrote (b ∷ []) out.old out.new at result }
{
    if at < out.len() {
        out[at] = b;
        return at + 1;
    }
    out.len() + 1
}

// n bytes of s from `from` on. (The library's `copy_from_slice`, under the promise that the laws of writing cite.)
pub fn copy(out: &mut [u8], at: usize, s: &[u8], from: usize, n: usize)
    requires { (at + n ≤ length out.old) × (from + n ≤ length s.now) }
    ensures { out.new ≡ sets out.old at (take n (drop from s.now)) }
{
    out[at..at + n].copy_from_slice(&s[from..from + n]);
}

// The bytes of s from `from` up to `to`, or to its end.
pub fn put_part(out: &mut [u8], at: usize, s: &[u8], from: usize, to: usize) -> usize
    ensures { Wrote (take (to - from) (drop from s.now)) out.old out.new at result }
{
    let end = to.min(s.len());
    if end < from || out.len() < at {
        return at;
    }
    let size = end - from;
    let n = size.min(out.len() - at);
    copy(out, at, s, from, n);
    if n < size { out.len() + 1 } else { at + n }
}

pub fn put_bytes(out: &mut [u8], at: usize, s: &[u8]) -> usize
    ensures { Wrote s.now out.old out.new at result }
{
    put_part(out, at, s, 0, s.len())
}

fn digit(n: u32) -> u8
    requires { n < 16 }
    ensures { result ≡ digit_of n }
{
    if n < 10 {
        b'0' + n as u8
    } else {
        b'a' + (n - 10) as u8
    }
}

// The two digits of each byte, one byte after the other.
static PAIRS: [u8; 512] = *b"\
000102030405060708090a0b0c0d0e0f101112131415161718191a1b1c1d1e1f\
202122232425262728292a2b2c2d2e2f303132333435363738393a3b3c3d3e3f\
404142434445464748494a4b4c4d4e4f505152535455565758595a5b5c5d5e5f\
606162636465666768696a6b6c6d6e6f707172737475767778797a7b7c7d7e7f\
808182838485868788898a8b8c8d8e8f909192939495969798999a9b9c9d9e9f\
a0a1a2a3a4a5a6a7a8a9aaabacadaeafb0b1b2b3b4b5b6b7b8b9babbbcbdbebf\
c0c1c2c3c4c5c6c7c8c9cacbcccdcecfd0d1d2d3d4d5d6d7d8d9dadbdcdddedf\
e0e1e2e3e4e5e6e7e8e9eaebecedeeeff0f1f2f3f4f5f6f7f8f9fafbfcfdfeff";

fn lay_pair(out: &mut [u8], at: usize, b: u8)
    requires { at + 2 ≤ length out.old }
    ensures { out.new ≡ sets out.old at (pair b) }
{
    let k = 2 * usize::from(b);
    out[at] = PAIRS[k];
    out[at + 1] = PAIRS[k + 1];
}

// A word as eight hexadecimal digits after a blank, where there is room for it.
pub fn lay_word(out: &mut [u8], at: usize, w: u32)
    requires { at + 9 ≤ length out.old }
    ensures { Wrote (32 ∷ hex8 w) out.old out.new at (at + 9) }
{
    let [first, second, third, last] = w.to_be_bytes();
    out[at] = b' ';
    lay_pair(out, at + 1, first);
    lay_pair(out, at + 3, second);
    lay_pair(out, at + 5, third);
    lay_pair(out, at + 7, last);
}

// The same, as much as fits. Most words fit, and are laid without a second copy.
pub fn put_word(out: &mut [u8], at: usize, w: u32) -> usize
    ensures { Wrote (32 ∷ hex8 w) out.old out.new at result }
{
    if at < out.len() && 9 <= out.len() - at {
        lay_word(out, at, w);
        return at + 9;
    }
    let mut word = [0; 9];
    lay_word(&mut word, 0, w);
    put_bytes(out, at, &word)
}

pub fn put_decimal(out: &mut [u8], at: usize, n: u32) -> usize
    ensures { Wrote (decimal n) out.old out.new at result }
{
    if n < 10 {
        return put_byte(out, at, digit(n));
    }
    let next = put_decimal(out, at, n / 10);
    put_byte(out, next, digit(n % 10))
}

// Ends a text: its length, or 0 and zeros where it didn't fit.
pub fn finish(out: &mut [u8], at: usize) -> usize
    ensures { (result ≡ pick (leb at (length out.old)) at 0) × (out.new ≡ pick (leb at (length out.old)) out.old (replicate (length out.old) 0)) }
{
    if at <= out.len() {
        return at;
    }
    out.fill(0);
    0
}
