// The program: event lines from standard input, the listing or the `refused` line to standard output. What it takes in and prints is proved in `input_pieces` and `roadlist_page`; here is what
// it lends, and what it reads and writes.
#![tactic(auto)]

use input_pieces::{BUFFER, InputBuffer, MAX_PIECE};
use overlay_blocks::COUNTERS;
use program_ending::Ended;
use reader::ReaderState;
use reader_stage::STAGED;
use roadlist_page::{BYTES, MAX_OUTPUT, WORDS};
use std::io;
use std::io::Read;

// A line on standard error: what failed, and why, in the system's words. Where that cannot be written either, there is nobody to tell.
fn fail(rt: &impl Eprint, what: &str, why: io::Error) {
    let _ = eprintln!(rt; "roadlist: {what}: {why}");
}

// Pieces up to the end of the input, or to the first refusal: then the reader is stopped, and a further piece changes nothing. A proved loop has to end, and nothing says that an input does: so it
// counts up to a number that no run reaches (a read takes time).
fn read_all(
    input: &mut impl Read,
    state: &mut ReaderState<'_>,
    buffer: &mut InputBuffer<'_>,
    piece: &mut [u8; MAX_PIECE],
) -> Result<(), io::Error> {
    for _ in 0..u64::MAX {
        let n = input.read(piece)?;
        if n == 0 {
            break;
        }
        if input_pieces::feed(state, buffer, &piece[..n]).is_err() {
            break;
        }
    }
    Ok(())
}

// What is to be printed, and a word on standard error where it is not the listing.
fn write_out(rt: &(impl Print + Eprint), out: &[u8], ended: Ended) {
    let n = little::lesser(ended.written, out.len());
    if let Err(why) = rt.write_all(&out[..n]) {
        fail(rt, "standard output", why);
        return;
    }
    if ended.refusal.is_some() {
        let _ = eprintln!(rt;
            "roadlist: the input was refused; standard output has the number, the line and the version held."
        );
    }
}

fn read_and_print(
    rt: &(impl Print + Eprint),
    input: &mut impl Read,
    state: &mut ReaderState<'_>,
    buffer: &mut InputBuffer<'_>,
    piece: &mut [u8; MAX_PIECE],
    out: &mut [u8; MAX_OUTPUT],
) {
    if let Err(why) = read_all(input, state, buffer, piece) {
        fail(rt, "standard input", why);
        return;
    }
    let ended = roadlist_page::finish(state, buffer, out);
    write_out(rt, out, ended);
}

// The overlay is set up empty and the reader is fresh, so what each piece needs holds from the start on (roadlist_page, proofs/Printed).
fn main(rt: HostRuntime) {
    let mut words = [0u64; WORDS];
    let mut bytes = [0u8; BYTES];
    let mut counters = [0u64; COUNTERS];
    let mut parts = [0u8; STAGED];
    let mut unfinished = [0u8; BUFFER];
    let mut piece = [0u8; MAX_PIECE];
    let mut out = [0u8; MAX_OUTPUT];
    let reader = roadlist_page::start(&mut words, &bytes, &mut counters, &parts);
    let mut state = ReaderState {
        words: &mut words,
        bytes: &mut bytes,
        counters: &mut counters,
        parts: &mut parts,
        reader,
    };
    let mut buffer = InputBuffer {
        bytes: &mut unfinished,
        held: 0,
    };
    read_and_print(
        &rt,
        &mut rt.stdin(),
        &mut state,
        &mut buffer,
        &mut piece,
        &mut out,
    );
}
