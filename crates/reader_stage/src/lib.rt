// The parts of an element that a reader is putting together, in lent bytes: refs or members first, then tags.
#![tactic(auto)]

ghost use Rattle.std.specs.Prelude.{◌≡◌, ◌+◌, ◌-◌, ◌≤◌, ◌++◌, length, take, min};
ghost use Rattle.reader_stage.specs.Stage.{staged, ref_part, member_part, tag_numbers};

use compact::CompactMember;

// The bytes that are lent for an element so far: the most that the parts of a push take.
pub const STAGED: usize = 44432;

// ---- the numbers of a part

// The bytes of a ref. No `to_le_bytes`: the contracts speak of a record's bytes by little's `le`, as those of the two below do.
pub fn ref_bytes(reference: u64) -> [u8; 8]
    ensures { result ≡ ref_part reference }
{
    let mut out = [0; 8];
    little::put_at(&mut out, 0, 8, reference);
    out
}

// The bytes of a member.
pub fn member_bytes(member: CompactMember) -> [u8; 13]
    ensures { result ≡ member_part member }
{
    let mut out = [0; 13];
    little::put_at(&mut out, 0, 8, member.reference);
    little::put_at(&mut out, 8, 1, u64::from(member.kind));
    little::put_at(&mut out, 9, 4, u64::from(member.role));
    out
}

// The bytes of a tag before its value: the handle of its key, and how long the value is.
pub fn tag_bytes(key: u32, value: usize) -> [u8; 8]
    ensures { result ≡ tag_numbers key value }
{
    let mut out = [0; 8];
    little::put_at(&mut out, 0, 4, u64::from(key));
    little::put_at(&mut out, 4, 4, value as u64);
    out
}

// ---- a part more

// A part put before the bytes of a room, which move up to its end: its numbers, and the bytes of a value behind them. It is not inlined: where the compiler sees that the numbers lie in an array of the
// caller's it asks for `memcpy`, and the archive asks for `memmove` and `memset` alone.
#[inline(never)]
fn put_before(room: &mut [u8], numbers: &[u8], value: &[u8])
    requires { length numbers.now + length value.now ≤ length room.old }
    ensures { room.new ≡ (numbers.now ++ value.now) ++ take (length room.old - (length numbers.now + length value.now)) room.old }
{
    let n = numbers.len() + value.len();
    let kept = room.len() - n;
    room.copy_within(..kept, n);
    little::copy_in(room, numbers);
    little::copy_in(&mut room[numbers.len()..], value);
}

// The bytes that are lent for the parts of an element, and how many of them the parts take so far.
#[derive(Drop)]
pub struct Staged<'a> {
    pub parts: &'a mut [u8],
    pub used: usize,
}

impl Staged<'_> {
    // A part more, at a place among those before it: its numbers, and the bytes of a value behind them. What stands behind the place moves up. Where there is no such place or
    // no room, the part is counted and no byte changes.
    pub fn insert(&mut self, at: usize, numbers: &[u8], value: &[u8])
        ensures same { self.new.parts.ghost_name ≡ self.old.parts.ghost_name }
        ensures used { self.new.used ≡ min (self.old.used + length (numbers.now ++ value.now)) usize.MAX }
        ensures staged { self.new.parts.now ≡ staged self.old.parts.now self.old.used at (numbers.now ++ value.now) }
    {
        let n = numbers.len() + value.len();
        let used = self.used;
        self.used = used.saturating_add(n);
        if at <= used {
            if let Some(end) = little::end_within(used, n, self.parts.len()) {
                put_before(&mut self.parts[at..end], numbers, value);
            }
        }
    }
}
