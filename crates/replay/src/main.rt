// Answers the questions of the judge's fixed list by the library's own functions. It reads the questions on standard input and
// writes each line whole, question and answer. It judges nothing: the gate compares what it writes with the list, which holds
// the answers of the published Rust (judge/README.md, "The fixed list").
#![tactic(auto)]

mod answers;
mod fields;
mod write;

ghost use Rattle.std.specs.Prelude.{◌≤◌, length, IfOk};

use std::io;
use std::io::Read;

// A question and its answer; a word that is not on the list gets no answer.
fn whole_line(rt: &impl Print, line: &[u8]) -> io::Result<()> {
    rt.write_all(line)?;
    if let Some(answer) = answers::answer_to(line) {
        answer.write_fields(rt)?;
    }
    rt.write_all(b"\n")
}

// Every line that a line feed ends.
fn replay(rt: &impl Print, input: &[u8]) -> io::Result<()> {
    for line in input.split_inclusive(|b| *b == b'\n') {
        if let [line @ .., b'\n'] = line {
            whole_line(rt, line)?;
        }
    }
    Ok(())
}

// Reads until the buffer is full or the input ends, and answers how many bytes it put at the buffer's start. It stands in `utf8_vectors` too: std's `read_to_end` wants a heap, and no crate of the library reads input.
fn read_full(input: &mut impl Read, buf: &mut [u8]) -> io::Result<usize>
    ensures { IfOk result (λ n. n ≤ length buf.new) }
{
    let mut done = 0;
    while done < buf.len() {
        let n = input.read(&mut buf[done..])?;
        if n == 0 {
            break;
        }
        done += n;
    }
    Ok(done)
}

// The questions are some 57,000 bytes; what stands past 131,072 is not read, and is missing from what is written. The program has no heap; where a read or a write fails, it ends with that error.
fn main(rt: HostRuntime) -> io::Result<()> {
    let mut input = [0u8; 131_072];
    let n = read_full(&mut rt.stdin(), &mut input)?;
    replay(&rt, &input[..n])
}
