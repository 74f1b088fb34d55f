// The listing, for C.
ghost use Rattle.show_text.specs.Text.{Puts};
ghost use Rattle.show_listing.specs.Listing.{listing_of};

// Puts the listing of an input at the buffer's start, as much of it as there is room for, and answers how many bytes that is.
#[unsafe(no_mangle)]
pub extern "C" fn dp8_listing(input: &[u8], buf: &mut [u8]) -> usize
    ensures { Puts buf.old 0 (listing_of input.now) buf.new result }
{
    show_listing::listing_text(input, buf)
}
