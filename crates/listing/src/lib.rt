// The listing of an overlay into lent bytes: one walk that measures, and the same walk that writes.
#![tactic(auto)]

ghost use Rattle.std.specs.Prelude.{◌≡◌, true};
ghost use Rattle.base.specs.Bytes.{all};
ghost use Rattle.little.specs.Little.{is_byte};
ghost use Rattle.overlay.specs.Lent.{overlay_seen};
ghost use Rattle.listing.specs.Pieces.{pieces_of};
ghost use Rattle.listing.specs.Call.{listing_on, length_on};

use kind::Kind;
use listing_rows::KindLines;
use overlay::Storage;
use print::{Printable, Printer};
use refusal::Refusal;

// The lines of an overlay.
#[derive(Clone, Copy)]
struct Page<'a> {
    storage: Storage<'a>,
}

impl Printable for Page<'_> {
    ghost pieces = { λ page. pieces_of (overlay_seen page.storage) };

    // "Kinds n, w, r in that order"
    fn print(&self, printer: &mut Printer<'_>) {
        let strings = self.storage.strings();
        for kind in [Kind::Node, Kind::Way, Kind::Relation] {
            let lines = KindLines {
                strings,
                storage: self.storage.kind_storage(kind),
            };
            lines.print(printer);
        }
    }
}

// The bytes of a lent slice are bytes. It is called for the proof alone, which knows this of a slice that a function is given, and not of a struct's field.
fn known_bytes(bytes: &[u8])
    ensures { all is_byte bytes.now ≡ true }
{
    let _ = bytes.len();
}

// The listing of an overlay at the start of the output: 22, 19, or its length.
pub fn list(storage: &Storage<'_>, out: &mut [u8]) -> Result<usize, Refusal>
    ensures { record { out = out.new; answer = result } ≡ listing_on out.old (overlay_seen storage.now) }
{
    storage.check_sound()?;
    known_bytes(storage.bytes);
    let page = Page { storage: *storage };
    print::print_whole(&page, out).ok_or(Refusal::ShortOutput)
}

// How long the listing is: 22, or its length. It is measured by a printer that is lent no bytes, as `print_whole` measures first. 19 where it has more bytes than a word of 64 bits counts,
// since no output has so many.
pub fn listing_length(storage: &Storage<'_>) -> Result<usize, Refusal>
    ensures { result ≡ length_on (overlay_seen storage.now) }
{
    storage.check_sound()?;
    known_bytes(storage.bytes);
    let mut measure = Printer {
        out: &mut [],
        cap: usize::MAX,
        room: Some(usize::MAX),
    };
    Page { storage: *storage }.print(&mut measure);
    let left = measure.room.ok_or(Refusal::ShortOutput)?;
    Ok(usize::MAX - left)
}
