// What a program prints at the end of its input: the listing, or the line `refused`.
#![tactic(auto)]

ghost use Rattle.std.specs.Prelude.{◌≡◌, true, ◌≤◌, Ok, length};
ghost use Rattle.overlay.specs.Lent.{overlay_seen};
ghost use Rattle.overlay.specs.Sound.{is_sound};
ghost use Rattle.reader.specs.Lent.{state_seen};
ghost use Rattle.reader.specs.State.{state_sound};
ghost use Rattle.program_ending.specs.Ending.{refused_ending, page_ending, ending_by, end_output};

use overlay::Storage;
use reader::{ReaderView, RefusedAt};
use refusal::{Refusal, Reply};

// What is printed at the end: how many bytes of the output, and the refusal that they tell, none where they are the listing. A count and no slice: the contract says what all
// of the output holds then.
#[derive(Clone, Copy, PartialEq, Eq, Debug)]
pub struct Ended {
    pub written: usize,
    pub refusal: Option<Refusal>,
}

// The line of a refusal at the start of the output, where its 44 bytes fit.
fn put_refusal(out: &mut [u8], refusal: Refusal, line: u64) -> Ended
    ensures { 44 ≤ length out.old
        → record { out = out.new; written = result.written; refusal = result.refusal } ≡ end_output out.old (refused_ending refusal line) }
{
    // read for the proof alone: the version held is an `i32`, so 44 bytes hold the line
    let _reply = Reply::from(refusal);
    Ended {
        written: roadlist_report::put_refused(out, refusal, line).unwrap_or(0),
        refusal: Some(refusal),
    }
}

// The listing, or 19 at that line.
fn put_page(storage: &Storage<'_>, out: &mut [u8], line: u64) -> Ended
    ensures { 44 ≤ length out.old → is_sound (overlay_seen storage.now) ≡ true
        → record { out = out.new; written = result.written; refusal = result.refusal } ≡ end_output out.old (page_ending (length out.old) (overlay_seen storage.now) line) }
{
    match listing::list(storage, out) {
        Ok(written) => Ended {
            written,
            refusal: None,
        },
        Err(refusal) => put_refusal(out, refusal, line),
    }
}

// What is printed after an end's answer: the line of its refusal; or, of an end that is accepted, which is that of a sound state, the listing. An output of 44 bytes has
// room for each line.
pub fn put_ending(state: &ReaderView<'_>, answer: Result<(), RefusedAt>, out: &mut [u8]) -> Ended
    ensures { 44 ≤ length out.old → (answer ≡ Ok tt → state_sound (state_seen state.now) ≡ true)
        → record { out = out.new; written = result.written; refusal = result.refusal } ≡ end_output out.old (ending_by (length out.old) answer (state_seen state.now)) }
{
    match answer {
        Ok(()) => put_page(&state.storage(), out, state.reader.lines.saturating_add(1)),
        Err(at) => put_refusal(out, at.refusal, at.line),
    }
}
