// The lines of lent bytes, where they lie, and the unfinished line kept for the next piece of an input.
#![tactic(auto)]

ghost use Rattle.std.specs.Prelude.{◌≡◌};
ghost use Rattle.input_lines.specs.Place.{keep_rest};

// The whole lines of a run, each with its line feed. What follows the last of them is no line.
#[derive(Clone, Copy, Debug)]
pub struct RunLines<'a> {
    pub rest: &'a [u8],
}

impl<'a> Iterator for RunLines<'a> {
    ghost use Rattle.std.specs.Iterator.{YieldsFirstRef, item_count};
    ghost use Rattle.input_lines.specs.Place.{lines_left};

    type Item = &'a [u8];

    ghost next_gives = { YieldsFirstRef lines_left };

    ghost remaining = { item_count lines_left };

    fn next(&mut self) -> Option<&'a [u8]> {
        let i = text::search::byte_position(self.rest, b'\n')?;
        let line = &self.rest[..i + 1];
        self.rest = &self.rest[i + 1..];
        Some(line)
    }
}

// The bytes from one place up to another moved to the front of their buffer; those past its end are left out. The answer is how many they are. The places stay: a part of a buffer cannot be
// lent beside the buffer.
pub fn keep_rest(buffer: &mut [u8], from: usize, to: usize) -> usize
    ensures { record { buffer = buffer.new; kept = result } ≡ keep_rest buffer.old from to }
{
    let end = to.min(buffer.len());
    if end <= from {
        return 0;
    }
    buffer.copy_within(from..end, 0);
    end - from
}
