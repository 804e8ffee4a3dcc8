// The listing for C: the archive's one function.
#![tactic(auto)]

ghost use Rattle.std.specs.Prelude.{◌≡◌};
ghost use Rattle.base_text.specs.Wrote.{size, laid};
ghost use Rattle.listing.specs.Listing.{listing as listing_of};

// The listing's length; or 0, and `out` zero, where it doesn't fit. Bytes past the listing stay.
#[unsafe(no_mangle)]
pub extern "C" fn patskneli_listing(image: &[u8], out: &mut [u8]) -> usize
    ensures { (result ≡ size (listing_of image.now) out.old) × (out.new ≡ laid (listing_of image.now) out.old) }
{
    listing::patskneli_listing(image, out)
}
