// The program: an OsmChange file from standard input, the listing or the `refused` line to standard output. What it takes in and prints is proved in `file_reader` and
// `file_page`; here is what it lends, and what it reads and writes.
#![tactic(auto)]

use file_lexer::FILE_BYTES;
use file_page::{BYTES, MAX_OUTPUT, WORDS};
use file_reader::FileReader;
use overlay_blocks::COUNTERS;
use program_ending::Ended;
use reader::ReaderState;
use reader_stage::STAGED;
use std::io;
use std::io::Read;

// How many bytes are read at a time.
const PIECE: usize = 65536;

// A line on standard error: what failed, and why, in the system's words. Where that cannot be written either, there is nobody to tell.
fn fail(rt: &impl Eprint, what: &str, why: io::Error) {
    let _ = eprintln!(rt; "roadfile: {what}: {why}");
}

// Pieces up to the end of the file, or to the first refusal: then the reader is stopped, and a further piece changes nothing. A proved loop has to end, and nothing says that an input
// does: so it counts up to a number that no run reaches (a read takes time).
fn read_all(
    input: &mut impl Read,
    state: &mut ReaderState<'_>,
    file: &mut FileReader<'_>,
    piece: &mut [u8; PIECE],
) -> Result<(), io::Error> {
    for _ in 0..u64::MAX {
        let n = input.read(piece)?;
        if n == 0 {
            break;
        }
        if file_reader::piece_untested(state, file, &piece[..n]).is_err() {
            break;
        }
    }
    Ok(())
}

// What is to be printed, and a word on standard error where it is not the listing.
fn write_out(rt: &(impl Print + Eprint), out: &[u8], ended: Ended) {
    let n = little::lesser(ended.written, out.len());
    if let Err(why) = rt.write_all(&out[..n]) {
        fail(rt, "standard output", why);
        return;
    }
    if ended.refusal.is_some() {
        let _ = eprintln!(rt;
            "roadfile: the input was refused; standard output has the number, the line and the version held."
        );
    }
}

// The overlay is set up empty and the file's reader is before the first byte, so what each piece needs holds from the start on (file_page, proofs/Printed).
fn read_and_print(
    rt: &(impl Print + Eprint),
    input: &mut impl Read,
    words: &mut [u64; WORDS],
    bytes: &mut [u8; BYTES],
    counters: &mut [u64; COUNTERS],
    parts: &mut [u8; STAGED],
    held: &mut [u8; FILE_BYTES],
    piece: &mut [u8; PIECE],
    out: &mut [u8; MAX_OUTPUT],
) {
    let started = file_page::start(words, bytes, counters, parts, held);
    let mut state = ReaderState {
        words,
        bytes,
        counters,
        parts,
        reader: started.reader,
    };
    let mut file = FileReader {
        bytes: held,
        lexer: started.lexer,
        named: started.named,
    };
    if let Err(why) = read_all(input, &mut state, &mut file, piece) {
        fail(rt, "standard input", why);
        return;
    }
    let ended = file_page::finish(&state.view(), &file.view(), out);
    write_out(rt, out, ended);
}

// What is lent. The arrays are lent whole, and become parts of a reader in a function of its own: the check does not end where so large an array is lent as a slice by the
// function that has it.
fn main(rt: HostRuntime) {
    let mut words = [0u64; WORDS];
    let mut bytes = [0u8; BYTES];
    let mut counters = [0u64; COUNTERS];
    let mut parts = [0u8; STAGED];
    let mut held = [0u8; FILE_BYTES];
    let mut piece = [0u8; PIECE];
    let mut out = [0u8; MAX_OUTPUT];
    read_and_print(
        &rt,
        &mut rt.stdin(),
        &mut words,
        &mut bytes,
        &mut counters,
        &mut parts,
        &mut held,
        &mut piece,
        &mut out,
    );
}
