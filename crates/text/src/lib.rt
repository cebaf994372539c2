// Legal text: well-formed UTF-8 of XML 1.0 characters.
#![tactic(auto)]

ghost use Rattle.std.specs.Prelude.{◌≡◌, ◌+◌, ◌*◌, ◌<◌, ◌≤◌, cond, leb, drop, Some, None, IfSome};
ghost use Rattle.std.specs.Option.{unwrap_or};
ghost use Rattle.base.specs.Bytes.{all, both};
ghost use Rattle.text.specs.Char.{xml_char};
ghost use Rattle.text.specs.Check.{byte_at, joined_bits, Starting, Measured, is_text, is_plain};

pub mod search;

// The class of each first byte: how many bytes a legal character has that starts with it, 0 where none does.
// A row has sixteen first bytes.
const CLASS: [u8; 256] = *b"\
    \x00\x00\x00\x00\x00\x00\x00\x00\x00\x01\x01\x00\x00\x01\x00\x00\
    \x00\x00\x00\x00\x00\x00\x00\x00\x00\x00\x00\x00\x00\x00\x00\x00\
    \x01\x01\x01\x01\x01\x01\x01\x01\x01\x01\x01\x01\x01\x01\x01\x01\
    \x01\x01\x01\x01\x01\x01\x01\x01\x01\x01\x01\x01\x01\x01\x01\x01\
    \x01\x01\x01\x01\x01\x01\x01\x01\x01\x01\x01\x01\x01\x01\x01\x01\
    \x01\x01\x01\x01\x01\x01\x01\x01\x01\x01\x01\x01\x01\x01\x01\x01\
    \x01\x01\x01\x01\x01\x01\x01\x01\x01\x01\x01\x01\x01\x01\x01\x01\
    \x01\x01\x01\x01\x01\x01\x01\x01\x01\x01\x01\x01\x01\x01\x01\x01\
    \x00\x00\x00\x00\x00\x00\x00\x00\x00\x00\x00\x00\x00\x00\x00\x00\
    \x00\x00\x00\x00\x00\x00\x00\x00\x00\x00\x00\x00\x00\x00\x00\x00\
    \x00\x00\x00\x00\x00\x00\x00\x00\x00\x00\x00\x00\x00\x00\x00\x00\
    \x00\x00\x00\x00\x00\x00\x00\x00\x00\x00\x00\x00\x00\x00\x00\x00\
    \x00\x00\x02\x02\x02\x02\x02\x02\x02\x02\x02\x02\x02\x02\x02\x02\
    \x02\x02\x02\x02\x02\x02\x02\x02\x02\x02\x02\x02\x02\x02\x02\x02\
    \x03\x03\x03\x03\x03\x03\x03\x03\x03\x03\x03\x03\x03\x03\x03\x03\
    \x04\x04\x04\x04\x04\x00\x00\x00\x00\x00\x00\x00\x00\x00\x00\x00";

// The bits of a character so far with the six of the byte at a place; none where no byte stands there that continues a character. It is given the whole and a
// place, as `long` is.
fn join(v: u32, s: &[u8], at: usize) -> Option<u32>
    requires { v < 0x10000 }
    ensures joined { unwrap_or result 0 ≡ joined_bits v (byte_at s.now at) }
    ensures bound { IfSome result (λ r. r ≤ v * 64 + 63) }
{
    match *s.get(at)? {
        b @ 0x80..=0xbf => Some(v * 64 + u32::from(b - 0x80)),
        _ => None,
    }
}

// Whether a code point from the blank on is a legal character.
fn legal(v: u32) -> bool
    requires { 0x20 ≤ v }
    ensures { result ≡ xml_char v }
{
    matches!(v, 0x20..=0xd7ff | 0xe000..=0xfffd | 0x10000..=0x10ffff)
}

// `k` where the code point is legal and not below the least of `k` bytes.
fn size(k: usize, least: u32, v: u32) -> Option<usize>
    requires { 0x20 ≤ least }
    ensures { result ≡ cond (both (leb least v) (xml_char v)) (Some k) None }
{
    (least <= v && legal(v)).then_some(k)
}

// The length of the character that begins at a place with a byte of class `k`, other than 1; none where none does.
// It is given the whole and a place, and not the rest from there on: with that the check of mixed text was a third slower.
fn long(s: &[u8], at: usize, k: u8) -> Option<usize>
    requires starting { Starting s.now at k }
    requires not_one { k ≡ 1 → ⊥ }
    ensures { Measured (drop at s.now) result }
{
    let first = u32::from(s[at]);
    match k {
        2 => {
            let x = join(first % 32, s, at + 1)?;
            size(2, 0x80, x)
        }
        3 => {
            let x = join(first % 16, s, at + 1)?;
            let y = join(x, s, at + 2)?;
            size(3, 0x800, y)
        }
        4 => {
            let x = join(first % 8, s, at + 1)?;
            let y = join(x, s, at + 2)?;
            let z = join(y, s, at + 3)?;
            size(4, 0x10000, z)
        }
        _ => None,
    }
}

// How many bytes of a long run are looked at together.
const TOGETHER: usize = 64;

// Whether every byte is a tab or one from the blank to the tilde. It looks at all bytes, so that many are looked at together: no early end, and no branch.
fn plain_together(s: &[u8]) -> bool
    ensures { result ≡ all is_plain s.now }
{
    s.iter().fold(true, |plain, b| plain & search::is_plain(*b))
}

// The same of a run of any length, to its end or to where one is not.
// The loop is no `for` over `chunks`: what is left behind the last of them is looked at in another way.
pub fn plain(s: &[u8]) -> bool
    ensures { result ≡ all is_plain s.now }
{
    let mut rest = s;
    while TOGETHER <= rest.len() {
        let (front, back) = rest.split_at(TOGETHER);
        if !plain_together(front) {
            return false;
        }
        rest = back;
    }
    search::plain_length(rest) == rest.len()
}

// Whether bytes are legal text, character by character.
// The loop is no `for`: it goes on by the length of each character.
fn walk(s: &[u8]) -> bool
    ensures { result ≡ is_text s.now }
{
    let class = CLASS;
    let mut at: usize = 0;
    while at < s.len() {
        let k = class[usize::from(s[at])];
        if k == 1 {
            at += 1;
            continue;
        }
        let Some(n) = long(s, at, k) else {
            return false;
        };
        at += n;
    }
    true
}

// Whether bytes are legal text: plain bytes are.
pub fn is_text(s: &[u8]) -> bool
    ensures { result ≡ is_text s.now }
{
    plain(s) || walk(s)
}
