// The listing.
ghost use Rattle.std.specs.Prelude.{◌≡◌};
ghost use Rattle.listing.specs.Call.{length_on};
ghost use Rattle.overlay.specs.Lent.{lent};
ghost use Rattle.c_replies.specs.Listings.{listed_reply};
ghost use Rattle.torvaskin.specs.Listings.{listing_reply};

use c_replies::ListingReply;
use overlay::Storage;
use overlay_blocks::COUNTERS;

// The listing at the start of the output: 22, 19, or its length.
#[unsafe(no_mangle)]
pub extern "C" fn tvk_listing(
    words: &[u64],
    bytes: &[u8],
    counters: &[u64; COUNTERS],
    out: &mut [u8],
) -> ListingReply
    ensures { record { out = out.new; reply = result }
        ≡ listing_reply out.old (lent words.now bytes.now counters.now) }
{
    let storage = Storage {
        words,
        bytes,
        counters,
    };
    ListingReply::from(listing::list(&storage, out))
}

// How long the listing is, so that a caller lends enough: 22, or its length; 19 where no output is long enough.
#[unsafe(no_mangle)]
pub extern "C" fn tvk_listing_length(
    words: &[u64],
    bytes: &[u8],
    counters: &[u64; COUNTERS],
) -> ListingReply
    ensures { result ≡ listed_reply (length_on (lent words.now bytes.now counters.now)) }
{
    let storage = Storage {
        words,
        bytes,
        counters,
    };
    ListingReply::from(listing::listing_length(&storage))
}
