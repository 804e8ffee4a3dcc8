// What more than one of the programs needs: room for the longest listing and for a file, the input or a part of it.
#![tactic(auto)]

ghost use Rattle.std.specs.Prelude.{◌≡◌, ◌≤◌, length};
ghost use Rattle.std.specs.Io.{ReadsAtMost};

use std::io;
use std::io::Read;

// Room for a listing or a file: a function's result, of which the length alone is known, so that no proof counts a million bytes.
pub fn room<T: Copy, const N: usize>(fill: T) -> [T; N]
    ensures { N ≡ length result }
{
    [fill; N]
}

// The input into the buffer's beginning, until the buffer is full or the input ends: how many bytes.
pub fn read_full<R: Read>(input: &mut R, b: &mut [u8]) -> io::Result<usize>
    ensures { ReadsAtMost result b.new }
{
    let mut done = 0;
    // A `while`: it counts bytes, of which one read may give any number.
    while done < b.len() {
        let n = input.read(&mut b[done..])?;
        if n == 0 {
            break;
        }
        done += n;
    }
    Ok(done)
}

// So many bytes into the buffer's beginning: whether the input had them.
pub fn read_part<R: Read>(input: &mut R, b: &mut [u8], n: usize) -> io::Result<bool>
    requires { n ≤ length b.old }
{
    let got = read_full(input, &mut b[..n])?;
    Ok(got == n)
}
