// The fields of a live line, printed from a record's bytes: metadata, place or refs or members, tags.
#![tactic(auto)]

ghost use Rattle.std.specs.Prelude.{◌≡◌, [], ◌∷◌};
ghost use Rattle.text.specs.Escape.{escape};
ghost use Rattle.line.specs.Decimal.{number_text};
ghost use Rattle.interner.specs.Lent.{store_seen};
ghost use Rattle.model.specs.Swap.{swap_meta};
ghost use Rattle.compact.specs.Held.{meta_of};
ghost use Rattle.listing_page.specs.Listing.{meta_fields};
ghost use Rattle.print.specs.Print.{tabs};
ghost use Rattle.print.specs.Printer.{Prints};
ghost use Rattle.listing_fields.specs.Fields.{text_held, held_member, tag_fields_from, body_fields_at, record_fields_at};

use compact::{
    ArenaMeta, CompactMember, CompactNode, CompactRelation, CompactWay, RecordHead, TagPlace,
};
use interner::Strings;
use kind::Kind;
use print::{Escaped, Integer, Printable, Printer};

// A record at the front of some bytes, with the strings that its handles name. It prints each of its fields after a tab.
#[derive(Clone, Copy)]
pub struct HeldRecord<'a> {
    pub strings: Strings<'a>,
    pub kind: Kind,
    pub bytes: &'a [u8],
}

// What the three kinds of records print between metadata and tags.
trait Body: RecordHead {
    fn put_body(self, held: &HeldRecord<'_>, printer: &mut Printer<'_>)
        ensures { Prints (tabs (body_fields_at (text_held (store_seen held.now.strings)) Self.kind (Self.says self) held.now.bytes.now))
            printer.old printer.new };
}

impl HeldRecord<'_> {
    // The text of a handle; of one that is not held the empty text.
    fn text(&self, handle: u32) -> Escaped<'_>
        ensures { result.0.now ≡ text_held (store_seen self.now.strings) handle }
    {
        let texts = self.strings.texts();
        match self.strings.resolve(u64::from(handle)) {
            Some(span) => Escaped(&texts.bytes[span.start..][..span.len]),
            None => Escaped(b""),
        }
    }

    // "flags, version, timestamp, changeset, uid, user"
    fn put_meta(&self, printer: &mut Printer<'_>, meta: ArenaMeta)
        ensures { Prints (tabs (meta_fields (swap_meta (text_held (store_seen self.now.strings)) (meta_of meta)))) printer.old printer.new }
    {
        printer.put(&u64::from(meta.flags));
        printer.put(&Integer::from_bits_32(meta.version));
        printer.put(&Integer(meta.timestamp));
        printer.put(&Integer(meta.changeset));
        printer.put(&Integer::from_bits_32(meta.uid));
        printer.put(&self.text(meta.user));
    }

    // "type (0 to 2), ref, role"
    fn put_member(&self, printer: &mut Printer<'_>, member: CompactMember)
        ensures { Prints (tabs (held_member (text_held (store_seen self.now.strings)) member)) printer.old printer.new }
    {
        printer.put(&u64::from(member.kind));
        printer.put(&Integer(member.reference));
        printer.put(&self.text(member.role));
    }

    // "the tag count and each key and value", from a place on
    fn put_tags(&self, printer: &mut Printer<'_>, first: TagPlace)
        ensures { Prints
            (tabs (number_text first.remaining ∷ tag_fields_from (text_held (store_seen self.now.strings)) self.now.bytes.now first.offset first.remaining))
            printer.old printer.new }
    {
        printer.put(&u64::from(first.remaining));
        let mut place = first;
        while let Ok(Some(tag)) = place.next(self.bytes) {
            printer.put(&self.text(tag.key));
            printer.put(&Escaped(&self.bytes[tag.start..][..tag.len]));
        }
    }

    // The fields, of the kind of a head.
    fn put_fields<H: Body>(&self, printer: &mut Printer<'_>)
        ensures { Prints (tabs (record_fields_at (text_held (store_seen self.now.strings)) H.kind self.now.bytes.now)) printer.old printer.new }
    {
        let head = H::read(self.bytes);
        self.put_meta(printer, compact::read_meta(self.bytes, H::LEN));
        head.put_body(self, printer);
        let first = TagPlace {
            offset: head.tags_at(),
            remaining: head.tag_count(),
        };
        self.put_tags(printer, first);
    }
}

impl Body for CompactNode {
    // "node: lat7, lon7"
    fn put_body(self, held: &HeldRecord<'_>, printer: &mut Printer<'_>) {
        printer.put(&Integer::from_bits_32(self.lat));
        printer.put(&Integer::from_bits_32(self.lon));
    }
}

impl Body for CompactWay {
    // "ref count, refs"
    fn put_body(self, held: &HeldRecord<'_>, printer: &mut Printer<'_>) {
        printer.put(&u64::from(self.ref_count));
        for i in 0..self.ref_count {
            printer.put(&Integer(compact::ref_at(held.bytes, i)));
        }
    }
}

impl Body for CompactRelation {
    // "member count, then type (0 to 2), ref, role each"
    fn put_body(self, held: &HeldRecord<'_>, printer: &mut Printer<'_>) {
        printer.put(&u64::from(self.member_count));
        for i in 0..self.member_count {
            held.put_member(printer, compact::member_at(held.bytes, i));
        }
    }
}

impl Printable for HeldRecord<'_> {
    ghost pieces = { λ held. tabs (record_fields_at (text_held (store_seen held.strings)) held.kind held.bytes.now) };

    fn print(&self, printer: &mut Printer<'_>) {
        match self.kind {
            Kind::Node => self.put_fields::<CompactNode>(printer),
            Kind::Way => self.put_fields::<CompactWay>(printer),
            Kind::Relation => self.put_fields::<CompactRelation>(printer),
        }
    }
}
