// Replays a kept list of images with the original's listings, on standard input, and prints how many come out alike (docs/ORACLE.md says how the
// list was made). A record is the image's length, the image, the listing's length, the listing; lengths are 32 bits, little-endian.
#![tactic(auto)]

ghost use Rattle.std.specs.Prelude.{◌≤◌, length, IfOk, IfSome};

use std::io;
use std::io::Read;

// No more records are read than this.
const MOST: u64 = 1000000;

// A length in little-endian bytes, at most `most`.
fn length_of(b: &[u8], most: usize) -> usize
    requires { 4 ≤ length b.now }
    ensures { result ≤ most }
{
    (list_image::word(b, 0) as usize).min(most)
}

// The next length of the input, at most `most`, or none where it ends.
fn read_length<R: Read>(input: &mut R, b: &mut [u8], most: usize) -> io::Result<Option<usize>>
    ensures { IfOk result (λ n. IfSome n (λ n. n ≤ most)) }
{
    if b.len() < 4 || !base_input::read_part(input, b, 4)? {
        return Ok(None);
    }
    Ok(Some(length_of(b, most)))
}

// How many records were read, and how many of them came out alike.
#[derive(Clone, Copy)]
struct Score {
    all: u64,
    right: u64,
}

// Whether the listing of the image in `image` is the one in `kept`.
fn judge(image: &[u8], kept: &[u8], out: &mut [u8]) -> bool {
    let k = listing::patskneli_listing(image, out);
    &out[..k] == kept
}

// The next record, read and judged: whether it came out alike, or none where the input ends.
fn next<R: Read>(
    input: &mut R,
    image: &mut [u8],
    kept: &mut [u8],
    out: &mut [u8],
) -> io::Result<Option<bool>> {
    let Some(n) = read_length(input, image, image.len())? else {
        return Ok(None);
    };
    if !base_input::read_part(input, image, n)? {
        return Ok(None);
    }
    let Some(m) = read_length(input, kept, kept.len())? else {
        return Ok(None);
    };
    // no listing is empty: such a record ends the list
    if m == 0 || !base_input::read_part(input, kept, m)? {
        return Ok(None);
    }
    Ok(Some(judge(&image[..n], &kept[..m], out)))
}

fn replay<R: Read>(
    input: &mut R,
    image: &mut [u8],
    kept: &mut [u8],
    out: &mut [u8],
) -> io::Result<Score> {
    let mut right = 0;
    for all in 0..MOST {
        let Some(alike) = next(input, image, kept, out)? else {
            return Ok(Score { all, right });
        };
        right += u64::from(alike);
    }
    Ok(Score { all: MOST, right })
}

fn main(rt: HostRuntime) -> io::Result<()> {
    let mut image: [u8; 65536] = base_input::room(0);
    let mut kept: [u8; 1048576] = base_input::room(0);
    let mut out: [u8; 1048576] = base_input::room(0);
    let s = replay(&mut rt.stdin(), &mut image, &mut kept, &mut out)?;
    println!(rt; "{} of {}", s.right, s.all)
}
