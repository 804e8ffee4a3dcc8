// A program's image taken apart.
#![tactic(auto)]

ghost use Rattle.std.specs.Prelude.{◌≡◌, ◌++◌, ◌+◌, ◌*◌, ◌≤◌, ◌<◌, length, drop, MatchOption};
ghost use Rattle.list_image.specs.Image.{word_at, words_at, last_end, zeros, opened};

use base_words::{MAX_BYTES, MAX_ERASED, MAX_STRINGS, MAX_WORDS};

// How many strings, tree words, erased names and string bytes an image has.
#[derive(Clone, Copy)]
pub struct Shape {
    pub strings: usize,
    pub words: usize,
    pub erased: usize,
    pub bytes: usize,
}

// The little-endian word at a byte.
#[tactic(auto, unfolding(crate::specs::Image::word_at))]
pub fn word(image: &[u8], at: usize) -> u32
    requires { at + 4 ≤ length image.now }
    ensures { result ≡ word_at image.now at }
{
    u32::from_le_bytes([image[at], image[at + 1], image[at + 2], image[at + 3]])
}

// The count at a byte, where it is at most `most`.
fn count(image: &[u8], at: usize, most: usize) -> Option<usize>
    requires { at + 4 ≤ length image.now }
    ensures { MatchOption result (most < word_at image.now at) (λ n. (n ≡ word_at image.now at) × (n ≤ most)) }
{
    let n = word(image, at) as usize;
    (n <= most).then_some(n)
}

fn last_end(image: &[u8], strings: usize) -> usize
    requires { 12 + 4 * strings ≤ length image.now }
    ensures { result ≡ last_end (words_at image.now 12 strings) }
{
    if strings == 0 {
        0
    } else {
        word(image, 8 + 4 * strings) as usize
    }
}

// Whether zeros alone stand from there on. (Crate `rows_lent` has the same for words: one function over both would ask for the element's type, its zero and its equality, for a line.)
fn zero_from(image: &[u8], from: usize) -> bool
    requires { from ≤ length image.now }
    ensures { result ≡ zeros (drop from image.now) }
{
    image[from..].iter().all(|&b| b == 0)
}

// Whether the bytes are an image, and the counts of one.
pub fn open(image: &[u8]) -> Option<Shape>
    ensures { result ≡ opened image.now }
{
    let n = image.len();
    if n < 12 {
        return None;
    }
    let strings = count(image, 0, MAX_STRINGS)?;
    let words = count(image, 4, MAX_WORDS)?;
    let erased = count(image, 8, MAX_ERASED)?;
    let at = 12 + 4 * strings + 4 * words + 4 * erased;
    if n < at {
        return None;
    }
    let bytes = last_end(image, strings);
    if MAX_BYTES < bytes || n != at + (bytes + 3) / 4 * 4 || !zero_from(image, at + bytes) {
        return None;
    }
    Some(Shape {
        strings,
        words,
        erased,
        bytes,
    })
}

// n words of the image from `from` on.
pub fn read_words(image: &[u8], from: usize, n: usize, words: &mut [u32])
    requires { (from + 4 * n ≤ length image.now) × (n ≤ length words.old) }
    ensures { words.new ≡ words_at image.now from n ++ drop n words.old }
{
    for i in 0..n {
        words[i] = word(image, from + 4 * i);
    }
}
