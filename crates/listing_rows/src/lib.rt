// The lines of one kind's rows, printed: "kind; id; `+` live or `-` deleted; known version or `?`", and of a live one its record's fields.
#![tactic(auto)]

ghost use Rattle.std.specs.Prelude.{◌≡◌, [], ◌∷◌};
ghost use Rattle.line.specs.Decimal.{integer_text};
ghost use Rattle.interner.specs.Lent.{store_seen};
ghost use Rattle.listing_page.specs.Listing.{kind_field, version_field};
ghost use Rattle.print.specs.Print.{tabs, line_pieces};
ghost use Rattle.print.specs.Printer.{Prints};
ghost use Rattle.kind_store.specs.Lent.{kind_seen};
ghost use Rattle.listing_fields.specs.Fields.{text_held};
ghost use Rattle.listing_rows.specs.Lines.{sign_of, last_at, row_fields_at, kind_pieces};

use interner::Strings;
use kind::Kind;
use kind_store::KindStorage;
use kind_table::Row;
use listing_fields::HeldRecord;
use print::{Escaped, Integer, Printable, Printer};

// "Kinds n, w, r". No method of Kind: nothing but the listing has these letters.
fn put_kind(printer: &mut Printer<'_>, kind: Kind)
    ensures { Prints (kind_field kind ∷ []) printer.old printer.new }
{
    printer.put_bytes(match kind {
        Kind::Node => b"n",
        Kind::Way => b"w",
        Kind::Relation => b"r",
    });
}

// "`+` live or `-` deleted"
fn put_sign(printer: &mut Printer<'_>, live: bool)
    ensures { Prints (tabs (sign_of live ∷ [])) printer.old printer.new }
{
    printer.put(&Escaped(if live { b"+" } else { b"-" }));
}

// "known version or `?`"
fn put_version(printer: &mut Printer<'_>, version: Option<i32>)
    ensures { Prints (tabs (version_field version ∷ [])) printer.old printer.new }
{
    match version {
        Some(version) => printer.put(&Integer::from(version)),
        None => printer.put(&Escaped(b"?")),
    }
}

// "kind; id; `+` live or `-` deleted; known version or `?`"
fn put_key(printer: &mut Printer<'_>, kind: Kind, id: i64, live: bool, version: Option<i32>)
    ensures { Prints (kind_field kind ∷ tabs (integer_text id ∷ sign_of live ∷ version_field version ∷ [])) printer.old printer.new }
{
    put_kind(printer, kind);
    printer.put(&Integer::from(id));
    put_sign(printer, live);
    put_version(printer, version);
}

// The lines of one kind's rows: those counted, as far as the words go. Of the kind's arena the used bytes are read.
#[derive(Clone, Copy)]
pub struct KindLines<'a> {
    pub strings: Strings<'a>,
    pub storage: KindStorage<'a>,
}

impl KindLines<'_> {
    // "A deleted line ends there. A live one goes on"
    fn put_last(&self, printer: &mut Printer<'_>, row: Row)
        ensures { Prints (tabs (last_at (text_held (store_seen self.now.strings)) self.now.storage.kind self.now.storage.arena.now row.offset))
            printer.old printer.new }
    {
        if let Some(offset) = row.record_offset() {
            let at = little::lesser(offset as usize, self.storage.arena.len());
            let record = HeldRecord {
                strings: self.strings,
                kind: self.storage.kind,
                bytes: &self.storage.arena[at..],
            };
            record.print(printer);
        }
    }

    // A row's line.
    fn put_line(&self, printer: &mut Printer<'_>, row: Row)
        ensures { Prints (line_pieces (row_fields_at (text_held (store_seen self.now.strings)) self.now.storage.kind self.now.storage.arena.now row))
            printer.old printer.new }
    {
        put_key(
            printer,
            self.storage.kind,
            osm_id::osm_id_of_rank(row.rank),
            row.record_offset().is_some(),
            self.storage.row_version(row),
        );
        self.put_last(printer, row);
        printer.put_bytes(b"\n");
    }
}

impl Printable for KindLines<'_> {
    ghost pieces = { λ lines. kind_pieces (text_held (store_seen lines.strings)) lines.storage.kind (kind_seen lines.storage) };

    fn print(&self, printer: &mut Printer<'_>) {
        let used = little::lesser(self.storage.used as usize, self.storage.arena.len());
        let lines = KindLines {
            strings: self.strings,
            storage: KindStorage {
                arena: &self.storage.arena[..used],
                ..self.storage
            },
        };
        let table = self.storage.rows();
        for words in table.rows() {
            lines.put_line(printer, Row::from(*words));
        }
    }
}
