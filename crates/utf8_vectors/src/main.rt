// Runs published UTF-8 vectors on text::is_text, and counts what it takes of all short sequences.
#![tactic(auto)]

ghost use Rattle.std.specs.Prelude.{◌≡◌, ◌+◌, ◌<◌, ◌≤◌, length, IfOk, IfSome};

use std::io;
use std::io::Read;

// What a line of the input says: how many bytes its sequence has, and whether they are text.
#[derive(Clone, Copy, PartialEq, Eq, Debug)]
struct Line {
    length: usize,
    text: bool,
}

// How many lines were tried, and how many of them the check judged otherwise.
#[derive(Clone, Copy, Default)]
struct Tally {
    vectors: u64,
    mismatches: u64,
}

// The value of a hexadecimal digit in upper case. The questions of `replay` have theirs in lower case, and neither program takes the other's.
fn digit(b: u8) -> Option<u8>
    ensures { IfSome result (λ d. d < 16) }
{
    match b {
        b'0'..=b'9' => Some(b - b'0'),
        b'A'..=b'F' => Some(b - b'A' + 10),
        _ => None,
    }
}

// The byte that two hexadecimal digits write.
fn byte([high, low]: &[u8; 2]) -> Option<u8> {
    Some(digit(*high)? * 16 + digit(*low)?)
}

// Puts the bytes that pairs of hexadecimal digits write at the start of `bytes`, and answers how many they are; nothing where they are more than 32, or there is anything else.
fn sequence(digits: &[u8], bytes: &mut [u8; 32]) -> Option<usize>
    ensures { IfSome result (λ n. (n ≤ 32) × (n + n ≡ length digits.now)) }
{
    let (pairs, []) = digits.as_chunks::<2>() else {
        return None;
    };
    if bytes.len() < pairs.len() {
        return None;
    }
    for (place, pair) in bytes.iter_mut().zip(pairs) {
        *place = byte(pair)?;
    }
    Some(pairs.len())
}

// A line is pairs of hexadecimal digits, of at most 32 bytes, a tab, 0 or 1, and a line feed. Its sequence is put at the start of `bytes`.
fn read_line(line: &[u8], bytes: &mut [u8; 32]) -> Option<Line>
    ensures { IfSome result (λ l. (l.length ≤ 32) × (l.length + l.length + 3 ≡ length line.now)) }
{
    let [digits @ .., b'\t', flag, b'\n'] = line else {
        return None;
    };
    let text = match flag {
        b'0' => false,
        b'1' => true,
        _ => return None,
    };
    let length = sequence(digits, bytes)?;
    Some(Line { length, text })
}

// Whether the check judges a sequence as its line says; nothing where the line is none.
fn is_right(line: &[u8]) -> Option<bool>
    ensures { IfSome result (λ r. (3 ≤ length line.now) × (length line.now ≤ 67)) }
{
    let mut bytes = [0u8; 32];
    let l = read_line(line, &mut bytes)?;
    Some(text::is_text(&bytes[..l.length]) == l.text)
}

// The bytes up to the first line feed and with it, and those after it.
fn cut_line(s: &[u8]) -> (&[u8], &[u8])
    requires { 0 < length s.now }
    ensures whole { length result.0.now + length result.1.now ≡ length s.now }
    ensures some { 0 < length result.0.now }
{
    match s.iter().position(|b| *b == b'\n') {
        Some(end) => s.split_at(end + 1),
        None => (s, &[]),
    }
}

// Writes a line that was judged otherwise.
fn mismatch(rt: &impl Print, line: &[u8]) -> io::Result<()> {
    rt.write_all(b"mismatch\t")?;
    rt.write_all(line)
}

// Every line of the input. A line that is none takes the rest of the input, and counts as judged otherwise.
fn vectors(rt: &impl Print, input: &[u8]) -> io::Result<Tally> {
    let mut tally = Tally::default();
    let mut rest = input;
    while !rest.is_empty() {
        let (line, after) = cut_line(rest);
        match is_right(line) {
            Some(true) => rest = after,
            Some(false) => {
                mismatch(rt, line)?;
                tally.mismatches += 1;
                rest = after;
            }
            None => {
                mismatch(rt, rest)?;
                tally.mismatches += 1;
                rest = &[];
            }
        }
        tally.vectors += 1;
    }
    Ok(tally)
}

// How many numbers of so many bytes, the first byte first, are text.
fn accepted(bytes: usize) -> usize
    requires { bytes ≤ 3 }
{
    let end = 1u32 << (8 * bytes);
    (0..end)
        .filter(|i| text::is_text(&i.to_be_bytes()[4 - bytes..]))
        .count()
}

// Writes how many of the sequences of so many bytes are text.
fn count(rt: &impl Print, bytes: usize) -> io::Result<()>
    requires { bytes ≤ 3 }
{
    let accepted = accepted(bytes);
    println!(rt; "bytes\t{bytes}\taccepted\t{accepted}")
}

// Reads until the buffer is full or the input ends, and answers how many bytes it put at the buffer's start. It stands in `replay` too: std's `read_to_end` wants a heap, and no crate of the library reads input.
fn read_full(input: &mut impl Read, buf: &mut [u8]) -> io::Result<usize>
    ensures { IfOk result (λ n. n ≤ length buf.new) }
{
    let mut done = 0;
    while done < buf.len() {
        let n = input.read(&mut buf[done..])?;
        if n == 0 {
            break;
        }
        done += n;
    }
    Ok(done)
}

// Of the input the first 65,536 bytes are read. The program has no heap; where a read or a write fails, it ends with that error.
fn main(rt: HostRuntime) -> io::Result<()> {
    let mut input = [0u8; 65_536];
    let n = read_full(&mut rt.stdin(), &mut input)?;
    let t = vectors(&rt, &input[..n])?;
    println!(rt; "vectors\t{}\tmismatches\t{}", t.vectors, t.mismatches)?;
    for bytes in 1..=3 {
        count(&rt, bytes)?;
    }
    Ok(())
}
