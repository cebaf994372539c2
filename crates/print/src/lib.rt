// Printing into lent bytes, piece by piece: numbers, integers and escaped texts, each after a tab.
#![tactic(auto)]

ghost use Rattle.std.specs.Prelude.{◌≡◌, true, List, [], ◌∷◌, ◌+◌, ◌≤◌, length, IfSome};
ghost use Rattle.std.specs.Int.{w32, w64};
ghost use Rattle.std.proofs.Common.{to_z};
ghost use Rattle.base.specs.Bytes.{Bytes, all};
ghost use Rattle.text.specs.Escape.{escaped, escape};
ghost use Rattle.line.specs.Decimal.{number_text, integer_text};
ghost use Rattle.little.specs.Little.{over};
ghost use Rattle.print.specs.Print.{joined_pieces, tab};
ghost use Rattle.print.specs.Piece.{whole_over, escaped_by, is_plain};
ghost use Rattle.print.specs.Printer.{IsSame, TakesRoom, Prints};

// Lent bytes, and the room that is left of `cap` bytes, none once a piece did not fit. Lent no bytes, a printer only measures.
#[derive(Drop)]
pub struct Printer<'a> {
    pub out: &'a mut [u8],
    pub cap: usize,
    pub room: Option<usize>,
}

// What prints as pieces, one after the other.
pub trait Printable {
    ghost pieces: { Self → List Bytes };

    fn print(&self, printer: &mut Printer<'_>)
        ensures { Prints (pieces self.now) printer.old printer.new };
}

impl Printer<'_> {
    // Takes the room of a piece of n bytes. The answer is the piece's place, behind those before it, where it lies within the output.
    fn take_room(&mut self, n: usize) -> Option<usize>
        ensures same { IsSame self.old self.new }
        ensures taken { TakesRoom n self.old self.new result }
        ensures fits { IfSome result (λ at. at + n ≤ length self.new.out.now) }
    {
        let room = self.room?;
        self.room = room.checked_sub(n);
        self.room?;
        let at = self.cap.saturating_sub(room);
        let end = at.checked_add(n)?;
        if end <= self.out.len() {
            Some(at)
        } else {
            None
        }
    }

    // A piece of bytes.
    pub fn put_bytes(&mut self, piece: &[u8])
        ensures { Prints (piece.now ∷ []) self.old self.new }
    {
        if let Some(at) = self.take_room(piece.len()) {
            little::copy_in(&mut self.out[at..], piece);
        }
    }

    // A tab and a field.
    pub fn put<F: Printable>(&mut self, field: &F)
        ensures { Prints (tab ∷ F.pieces field.now) self.old self.new }
    {
        self.put_bytes(b"\t");
        field.print(self);
    }
}

// All of what prints at the start of what is lent, where it fits: its length. It is measured first, by a printer that is lent no bytes, and then written;
// else nothing is written.
pub fn print_whole<P: Printable>(page: &P, out: &mut [u8]) -> Option<usize>
    ensures { record { out = out.new; length = result } ≡ whole_over out.old (joined_pieces (P.pieces page.now)) }
{
    let cap = out.len();
    let mut measure = Printer {
        out: &mut [],
        cap,
        room: Some(cap),
    };
    page.print(&mut measure);
    let left = measure.room?;
    let mut printer = Printer {
        out,
        cap,
        room: Some(cap),
    };
    page.print(&mut printer);
    Some(cap - left)
}

// ---- numbers

impl Printable for u64 {
    ghost pieces = { λ number. number_text number ∷ [] };

    fn print(&self, printer: &mut Printer<'_>) {
        let n = decimal::number_length(*self);
        if let Some(at) = printer.take_room(n) {
            decimal::put_measured(&mut printer.out[at..], n, *self);
        }
    }
}

// An integer of 64 bits, given by its bits.
#[derive(Clone, Copy, PartialEq, Eq, Debug)]
pub struct Integer(pub u64);

impl Integer {
    // An integer of 32 bits, given by its bits.
    pub fn from_bits_32(bits: u32) -> Integer
        ensures { to_z w64 result.0 ≡ to_z w32 bits }
    {
        Integer(decimal::widened(bits))
    }
}

impl From<i64> for Integer {
    ghost from_gives = { λ number integer. to_z w64 integer.0 ≡ number };

    fn from(number: i64) -> Integer {
        Integer(number.cast_unsigned())
    }
}

impl From<i32> for Integer {
    ghost from_gives = { λ number integer. to_z w64 integer.0 ≡ number };

    fn from(number: i32) -> Integer {
        Integer::from(i64::from(number))
    }
}

// How many bytes an integer has, with its minus sign.
fn integer_length(bits: u64) -> usize
    ensures { result ≡ length (integer_text (to_z w64 bits)) }
{
    if bits < 0x8000_0000_0000_0000 {
        return decimal::number_length(bits);
    }
    1 + decimal::number_length((0xffff_ffff_ffff_ffff - bits) + 1)
}

impl Printable for Integer {
    ghost pieces = { λ integer. integer_text (to_z w64 integer.0) ∷ [] };

    fn print(&self, printer: &mut Printer<'_>) {
        if let Some(at) = printer.take_room(integer_length(self.0)) {
            decimal::put_integer(&mut printer.out[at..], self.0);
        }
    }
}

// ---- texts

// A text that prints with its escapes.
#[derive(Clone, Copy)]
pub struct Escaped<'a>(pub &'a [u8]);

// The letter that stands for a byte after a backslash, none for a byte that stands for itself.
fn letter(b: u8) -> Option<u8>
    ensures { escaped b ≡ escaped_by b result }
{
    match b {
        b'\t' => Some(b't'),
        b'\n' => Some(b'n'),
        b'\r' => Some(b'r'),
        b'\\' => Some(b'\\'),
        _ => None,
    }
}

// By how many bytes the escape of a byte is longer than the byte.
fn longer(b: u8) -> usize
    ensures { (length (escaped b) ≡ 1 + result) × (result ≤ 1) }
{
    usize::from(letter(b).is_some())
}

// Whether a byte surely stands for itself: of the bytes up to 13 none is said to.
fn is_plain(b: u8) -> bool
    ensures { result ≡ is_plain b }
{
    (b'\r' < b) & (b != b'\\')
}

// Whether each byte of a text surely stands for itself. It looks at all bytes, so that many are looked at together: no early end. The function with a predicate
// is the library's fold, as in `text::plain`; another one above it would say no more.
fn all_plain(text: &[u8]) -> bool
    ensures { result ≡ all is_plain text.now }
{
    text.iter().fold(true, |ok, b| ok & is_plain(*b))
}

// By how many bytes the escape of a text is longer than the text. It adds in a loop: that the number stays below the text's length is its invariant, which a fold's closure would have to promise.
fn text_longer(text: &[u8]) -> usize
    ensures value { length (escape text.now) ≡ length text.now + result }
    ensures bound { result ≤ length text.now }
{
    let mut n = 0;
    for b in text {
        n += longer(*b);
    }
    n
}

// The escape of a byte, one or two bytes, at the start of what is lent: how many they are.
fn put_escaped(out: &mut [u8], b: u8) -> usize
    requires { length (escaped b) ≤ length out.old }
    ensures { (out.new ≡ over out.old 0 (escaped b)) × (result ≡ length (escaped b)) }
{
    match letter(b) {
        Some(letter) => {
            out[0] = b'\\';
            out[1] = letter;
            2
        }
        None => {
            out[0] = b;
            1
        }
    }
}

// The escape of a text at the start of what is lent.
fn put_escape(out: &mut [u8], text: &[u8])
    requires { length (escape text.now) ≤ length out.old }
    ensures { out.new ≡ over out.old 0 (escape text.now) }
{
    let mut at = 0;
    for b in text {
        at += put_escaped(&mut out[at..], *b);
    }
}

impl Printable for Escaped<'_> {
    ghost pieces = { λ text. escape text.0.now ∷ [] };

    // A copy of the text where each byte stands for itself.
    fn print(&self, printer: &mut Printer<'_>) {
        if all_plain(self.0) {
            printer.put_bytes(self.0);
            return;
        }
        let n = self.0.len() + text_longer(self.0);
        if let Some(at) = printer.take_room(n) {
            put_escape(&mut printer.out[at..], self.0);
        }
    }
}
