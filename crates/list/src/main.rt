// Prints the listing of the image on standard input. No image is longer than 57,356 bytes, so that a longer file is told from one by its
// first 65,536 bytes, and no more are read.
#![tactic(auto)]

ghost use Rattle.std.specs.Prelude.{◌≡◌, ◌≤◌, length, take};
ghost use Rattle.listing.specs.Listing.{listing as listing_of};

use std::io;

// No listing is longer than 722,946 bytes, so that it is never cut: as many bytes as are answered are the listing.
fn put_whole(image: &[u8], out: &mut [u8]) -> usize
    requires { 722946 ≤ length out.old }
    ensures { (result ≡ length (listing_of image.now)) × (take result out.new ≡ listing_of image.now) }
{
    listing::patskneli_listing(image, out)
}

fn main(rt: HostRuntime) -> io::Result<()> {
    let mut image: [u8; 65536] = base_input::room(0);
    let n = base_input::read_full(&mut rt.stdin(), &mut image)?;
    let mut out: [u8; 1048576] = base_input::room(0);
    let k = put_whole(&image[..n], &mut out);
    rt.write_all(&out[..k])
}
