// The fields of a question.
ghost use Rattle.std.specs.Prelude.{◌≡◌, ◌<◌, ◌/◌, length, min, IfSome, option_map};
ghost use Rattle.std.specs.List.{slice_get};
ghost use Rattle.line.specs.Line.{fields};

// The field of a line by its number, from 0 on, if there is one.
pub fn field(line: &[u8], n: usize) -> Option<&[u8]>
    ensures { option_map (λ f. f.now) result ≡ slice_get (fields line.now) n }
{
    line.split(|b| *b == b'\t').nth(n)
}

// The value of a hexadecimal digit in lower case. The UTF-8 vectors have theirs in upper case, and neither program takes the other's.
fn digit(b: u8) -> Option<u8>
    ensures { IfSome result (λ d. d < 16) }
{
    match b {
        b'0'..=b'9' => Some(b - b'0'),
        b'a'..=b'f' => Some(b - b'a' + 10),
        _ => None,
    }
}

// The byte that two hexadecimal digits write; 0 stands for what is no digit.
fn byte([high, low]: &[u8; 2]) -> u8 {
    digit(*high).unwrap_or(0) * 16 + digit(*low).unwrap_or(0)
}

// Puts the bytes that pairs of hexadecimal digits write at the start of `bytes`, as far as there is room, and answers how many they are.
pub fn bytes_of(digits: &[u8], bytes: &mut [u8; 64]) -> usize
    ensures { result ≡ min (length digits.now / 2) 64 }
{
    let (pairs, _) = digits.as_chunks::<2>();
    for (place, pair) in bytes.iter_mut().zip(pairs) {
        *place = byte(pair);
    }
    pairs.len().min(bytes.len())
}
