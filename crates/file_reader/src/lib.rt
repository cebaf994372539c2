// A reader of files, in pieces of any size: each markup is an event by the line that it stands for, or 25 or 26; and the end of the file.
#![tactic(auto)]

ghost use Rattle.std.specs.Prelude.{◌≡◌, ◌≤◌, ◌+◌, true, length, take, drop};
ghost use Rattle.base.specs.Bytes.{all};
ghost use Rattle.little.specs.Little.{is_byte};
ghost use Rattle.text_index.specs.Chained.{StoreChained, ChainsServe};
ghost use Rattle.text_index.specs.Lent.{chains_seen, chains_held, IsSameChains};
ghost use Rattle.overlay.specs.Given.{head_fits, meta_fits};
ghost use Rattle.markup_steps.specs.Held.{ended_meaning};
ghost use Rattle.file_lexer.specs.Lexing.{lex_run};
ghost use Rattle.file_lexer.specs.Held.{where_of, told_of};
ghost use Rattle.reader.specs.Lent.{state_seen, state_held, IsSameState};
ghost use Rattle.reader.specs.State.{state_sound};
ghost use Rattle.reader.specs.Table.{is_done};
ghost use Rattle.reader.specs.Given.{StateGiven};
ghost use Rattle.reader_events.specs.Runs.{RunGiven};
ghost use Rattle.file_reader.specs.File.{is_open, open_at, lexing_in, with_lexing, markup_event, markup_refused, start_tag_ends, end_tag_ends, skipped, markup_ended, markup_malformed, file_bytes};
ghost use Rattle.file_reader.specs.Calls.{place_sound, file_sound, piece_on, file_end_on};
ghost use Rattle.file_reader.specs.Held.{file_held, file_seen};
ghost use Rattle.file_reader.specs.Tags.{written_in, line_in, room_behind, named_behind_tag, twice_at, close_event, named_behind_close, name_sound};

use file_lexer::{Before, FILE_BYTES, FilePlace, KEPT, LINE, Lexed, Lexer, Told, WORD};
use markup_steps::Ended;
use nesting::{Level, Place};
use reader::{Pending, ReaderState, ReaderView, RefusedAt};
use reader_stage::STAGED;
use refusal::Refusal;
use text_index::{BUCKETS, Chains, ChainsMut, HANDLES};

mod tags;

// What a file's reader has beside a reader of events: where it stands in the file, and the lent bytes with the line of the event that is being read, and with the name of the open element.
#[derive(Drop)]
pub struct FileReader<'a> {
    pub bytes: &'a mut [u8; FILE_BYTES],
    pub lexer: Lexer,
    pub named: usize,
}

// The same to be read.
#[derive(Clone, Copy)]
pub struct FileView<'a> {
    pub bytes: &'a [u8; FILE_BYTES],
    pub lexer: Lexer,
    pub named: usize,
}

impl FileReader<'_> {
    // The same to be read.
    pub fn view(&self) -> FileView<'_>
        ensures bytes { result.bytes.now ≡ self.now.bytes.now }
        ensures lexer { result.lexer ≡ self.now.lexer }
        ensures named { result.named ≡ self.now.named }
    {
        FileView {
            bytes: self.bytes,
            lexer: self.lexer,
            named: self.named,
        }
    }
}

// Behind a markup.
const BEHIND_MARKUP: Lexer = Lexer {
    place: FilePlace::Text(Before::Text),
    feeds: 0,
    used: 0,
};

// ---- an event of a markup

// The line of a refusal that says that an event's line is none, which of a markup's line says that an attribute stands there twice.
#[tactic(auto, unfolding(crate::specs::Tags::twice_at))]
fn twice_at(answer: Result<(), RefusedAt>) -> Option<u64>
    ensures { result ≡ twice_at answer }
{
    match answer {
        Err(
            RefusedAt {
                refusal: Refusal::NotEventLine,
                line,
            },
        ) => Some(line),
        _ => None,
    }
}

// A line as the event of a markup: an attribute twice is markup that is not well formed.
fn markup_event(
    state: &mut ReaderState<'_>,
    chains: &Chains<'_>,
    line: &[u8],
) -> Result<(), RefusedAt>
    ensures same { IsSameState state.new state.old }
    ensures value { RunGiven (state_held state.old) → ChainsServe (chains_seen chains.now) (state_held state.old).overlay.texts
        → record { state = state_held state.new; answer = result } ≡ markup_event line.now (state_held state.old) }
{
    let answer = reader_events::line_event(state, chains, line);
    let Some(line) = twice_at(answer) else {
        return answer;
    };
    let stop = RefusedAt {
        refusal: Refusal::NotMarkup,
        line,
    };
    state.reader.stop = Some(stop);
    Err(stop)
}

// A markup that is refused: 22 where the count of line feeds is at its largest; else the reader stops.
fn refuse(state: &mut ReaderState<'_>, refusal: Refusal) -> Result<(), RefusedAt>
    ensures same { IsSameState state.new state.old }
    ensures value { RunGiven (state_held state.old)
        → record { state = state_held state.new; answer = result } ≡ markup_refused refusal (state_held state.old) }
{
    if state.reader.lines < u64::MAX {
        let at = RefusedAt {
            refusal,
            line: state.reader.lines + 1,
        };
        state.reader.stop = Some(at);
        return Err(at);
    }
    Err(RefusedAt {
        refusal: Refusal::Unsound,
        line: 0,
    })
}

// ---- a start tag

// Its line, put together in the lent bytes, as an event.
fn tag_event(
    state: &mut ReaderState<'_>,
    chains: &Chains<'_>,
    bytes: &mut [u8],
    used: usize,
    empty: bool,
) -> Result<(), RefusedAt>
    requires { WORD + used ≤ length bytes.old }
    ensures same { IsSameState state.new state.old }
    ensures bytes { bytes.new ≡ written_in empty used bytes.old }
    ensures value { RunGiven (state_held state.old) → ChainsServe (chains_seen chains.now) (state_held state.old).overlay.texts
        → record { state = state_held state.new; answer = result } ≡ markup_event (line_in empty used (written_in empty used bytes.old)) (state_held state.old) }
{
    tags::write_line(bytes, used, empty);
    markup_event(state, chains, tags::line_in(bytes, used, empty))
}

// That, and behind it the name of its element where one is to be kept. The answer is that of the event, and how long the kept name is.
fn tag_event_named(
    state: &mut ReaderState<'_>,
    chains: &Chains<'_>,
    bytes: &mut [u8],
    named: usize,
    used: usize,
    empty: bool,
) -> (Result<(), RefusedAt>, usize)
    requires used { WORD + used ≤ length bytes.old }
    requires room { LINE ≤ length bytes.old }
    ensures same { IsSameState state.new state.old }
    ensures bytes { bytes.new ≡ room_behind result.0 state.new.reader.place.level used (written_in empty used bytes.old) }
    ensures named { result.1 ≡ named_behind_tag result.0 state.new.reader.place.level named used (written_in empty used bytes.old) }
    ensures value { RunGiven (state_held state.old) → ChainsServe (chains_seen chains.now) (state_held state.old).overlay.texts
        → record { state = state_held state.new; answer = result.0 } ≡ markup_event (line_in empty used (written_in empty used bytes.old)) (state_held state.old) }
{
    let answer = tag_event(state, chains, bytes, used, empty);
    match answer {
        Ok(()) => {
            let level = state.reader.place.level;
            (answer, tags::name_behind(level, bytes, used))
        }
        Err(_) => (answer, named),
    }
}

// A start tag or an empty-element tag, at its end.
fn start_tag_ends(
    state: &mut ReaderState<'_>,
    chains: &Chains<'_>,
    file: &mut FileReader<'_>,
    empty: bool,
) -> Result<(), RefusedAt>
    ensures same { IsSameState state.new state.old }
    ensures same_bytes { file.new.bytes.ghost_name ≡ file.old.bytes.ghost_name }
    ensures value { RunGiven (state_held state.old) → ChainsServe (chains_seen chains.now) (state_held state.old).overlay.texts
        → record { file = file_held state.new file.new; answer = result } ≡ start_tag_ends empty (file_held state.old file.old) }
{
    let lines = state.reader.lines;
    let used = little::lesser(file.lexer.used, FILE_BYTES - WORD);
    let named = file.named;
    state.reader.lines = file.lexer.feeds;
    let (answer, named) = tag_event_named(state, chains, file.bytes, named, used, empty);
    state.reader.lines = lines;
    file.named = named;
    file.lexer = BEHIND_MARKUP;
    answer
}

// ---- an end tag

// It closes the open element, or is refused where its name is not that one's.
fn close_event(
    state: &mut ReaderState<'_>,
    chains: &Chains<'_>,
    matched: bool,
) -> Result<(), RefusedAt>
    ensures same { IsSameState state.new state.old }
    ensures value { RunGiven (state_held state.old) → ChainsServe (chains_seen chains.now) (state_held state.old).overlay.texts
        → record { state = state_held state.new; answer = result } ≡ close_event matched (state_held state.old) }
{
    if matched {
        return reader_events::line_event(state, chains, b"close\n".as_slice());
    }
    refuse(state, Refusal::UnmatchedEndTag)
}

// How long the kept name is behind an end tag: none is kept where it was accepted.
fn named_behind(answer: Result<(), RefusedAt>, named: usize) -> usize
    ensures { result ≡ named_behind_close answer named }
{
    match answer {
        Ok(()) => 0,
        Err(_) => named,
    }
}

// Whether the name of an end tag is that of the open element.
fn name_is_open(place: Place, file: &FileView<'_>) -> bool
    ensures { result ≡ is_open (take file.now.lexer.used (drop WORD file.now.bytes.now)) (open_at place.level place (take file.now.named (drop LINE file.now.bytes.now))) }
{
    let bytes = file.bytes;
    tags::open_name_is(place, bytes, file.named, file.lexer.used)
}

// An end tag, at its end.
fn end_tag_ends(
    state: &mut ReaderState<'_>,
    chains: &Chains<'_>,
    file: &mut FileReader<'_>,
) -> Result<(), RefusedAt>
    ensures same { IsSameState state.new state.old }
    ensures same_bytes { file.new.bytes.ghost_name ≡ file.old.bytes.ghost_name }
    ensures value { RunGiven (state_held state.old) → ChainsServe (chains_seen chains.now) (state_held state.old).overlay.texts
        → record { file = file_held state.new file.new; answer = result } ≡ end_tag_ends (file_held state.old file.old) }
{
    let lines = state.reader.lines;
    let matched = name_is_open(state.reader.place, &file.view());
    state.reader.lines = file.lexer.feeds;
    let answer = close_event(state, chains, matched);
    state.reader.lines = lines;
    file.named = named_behind(answer, file.named);
    file.lexer = BEHIND_MARKUP;
    answer
}

// ---- a markup

// A markup at its end. Comments and instructions are none of our events.
fn markup_ended(
    state: &mut ReaderState<'_>,
    chains: &Chains<'_>,
    file: &mut FileReader<'_>,
    ended: Ended,
) -> Result<(), RefusedAt>
    ensures same { IsSameState state.new state.old }
    ensures same_bytes { file.new.bytes.ghost_name ≡ file.old.bytes.ghost_name }
    ensures value { RunGiven (state_held state.old) → ChainsServe (chains_seen chains.now) (state_held state.old).overlay.texts
        → record { file = file_held state.new file.new; answer = result } ≡ markup_ended (ended_meaning ended) (file_held state.old file.old) }
{
    match ended {
        Ended::StartTag(empty) => start_tag_ends(state, chains, file, empty),
        Ended::EndTag => end_tag_ends(state, chains, file),
        Ended::Skipped => {
            file.lexer = BEHIND_MARKUP;
            Ok(())
        }
    }
}

// Bytes that are no markup.
fn markup_malformed(state: &mut ReaderState<'_>, file: &mut FileReader<'_>) -> Result<(), RefusedAt>
    ensures same { IsSameState state.new state.old }
    ensures same_bytes { file.new.bytes.ghost_name ≡ file.old.bytes.ghost_name }
    ensures value { RunGiven (state_held state.old)
        → record { file = file_held state.new file.new; answer = result } ≡ markup_malformed (file_held state.old file.old) }
{
    let lines = state.reader.lines;
    state.reader.lines = file.lexer.feeds;
    let answer = refuse(state, Refusal::NotMarkup);
    state.reader.lines = lines;
    file.lexer = BEHIND_MARKUP;
    answer
}

// ---- bytes

// Bytes up to the end of the first markup, or to where no legal markup goes on: where the reader stands then is kept.
fn lex_on(state: &mut ReaderState<'_>, file: &mut FileReader<'_>, run: &[u8]) -> Lexed
    ensures same { IsSameState state.new state.old }
    ensures same_bytes { file.new.bytes.ghost_name ≡ file.old.bytes.ghost_name }
    ensures file { file_held state.new file.new
        ≡ with_lexing (file_held state.old file.old) (lex_run (lexing_in (file_held state.old file.old)) run.now).lexing }
    ensures told { told_of result.told ≡ (lex_run (lexing_in (file_held state.old file.old)) run.now).told }
    ensures rest { drop result.taken run.now ≡ (lex_run (lexing_in (file_held state.old file.old)) run.now).rest }
    ensures taken_in_bounds { result.taken ≤ length run.now }
{
    let lexed = file_lexer::lex(file.lexer, state.reader.lines, file.bytes, run);
    file.lexer = lexed.lexer;
    state.reader.lines = lexed.lines;
    lexed
}

// All bytes, by chains of handles that are brought up to date before each markup.
fn bytes_by(
    state: &mut ReaderState<'_>,
    chains: &mut ChainsMut<'_>,
    file: &mut FileReader<'_>,
    piece: &[u8],
) -> Result<(), RefusedAt>
    ensures same { IsSameState state.new state.old }
    ensures same_chains { IsSameChains chains.new chains.old }
    ensures same_bytes { file.new.bytes.ghost_name ≡ file.old.bytes.ghost_name }
    ensures value { RunGiven (state_held state.old) → StoreChained (chains_held chains.old) (state_held state.old).overlay.texts
        → record { file = file_held state.new file.new; answer = result } ≡ file_bytes piece.now (file_held state.old file.old) }
{
    let mut rest = piece;
    loop {
        let lexed = lex_on(state, file, rest);
        match lexed.told {
            Told::More => return Ok(()),
            Told::NotMarkup => return markup_malformed(state, file),
            Told::Markup(ended) => {
                overlay_store::chain_texts(chains, &state.view().storage());
                let answer = markup_ended(state, &chains.chains(), file, ended);
                if answer.is_err() {
                    return answer;
                }
                rest = &rest[lexed.taken..];
            }
        }
    }
}

// The same as `piece_on` with no test of soundness or of the stop mark before the first byte: for a caller who knows that the state is sound but for its count of line feeds.
pub fn piece_untested(
    state: &mut ReaderState<'_>,
    file: &mut FileReader<'_>,
    piece: &[u8],
) -> Result<(), RefusedAt>
    ensures same { IsSameState state.new state.old }
    ensures same_bytes { file.new.bytes.ghost_name ≡ file.old.bytes.ghost_name }
    ensures value { RunGiven (state_held state.old)
        → record { file = file_held state.new file.new; answer = result } ≡ file_bytes piece.now (file_held state.old file.old) }
{
    // the library has no heap
    let mut lasts = [0u16; BUCKETS];
    let mut befores = [0u16; HANDLES];
    let mut chains = ChainsMut {
        lasts: &mut lasts,
        befores: &mut befores,
        handles: 0,
    };
    bytes_by(state, &mut chains, file, piece)
}

// ---- what is tested once

// The bytes of a lent slice are bytes. It is called for the proof alone, as listing's is.
fn known_bytes(bytes: &[u8]) -> usize
    ensures { all is_byte bytes.now ≡ true }
{
    little::lesser(bytes.len(), STAGED)
}

// The numbers of an element are numbers of their types.
fn known_pending(pending: Pending) -> usize
    ensures head { head_fits pending.head ≡ true }
    ensures meta { meta_fits pending.meta ≡ true }
{
    pending.used
}

// Whether overlay and reader are sound; and what they are because they are lent.
fn state_tested(state: &ReaderView<'_>) -> bool
    ensures value { result ≡ state_sound (state_seen state.now) }
    ensures state_given { StateGiven (state_seen state.now) }
{
    let (bytes, parts) = (state.bytes, state.parts);
    known_bytes(bytes);
    known_bytes(parts);
    known_pending(state.reader.pending);
    reader_sound::state_sound(state)
}

// Whether a reader's place in a file and its count of line feeds are ones that it can have.
#[tactic(auto, unfolding(base::specs::Bytes::both))]
fn place_is_sound(state: &ReaderView<'_>, file: &FileView<'_>) -> bool
    ensures { result ≡ place_sound (where_of file.now.lexer.place) (file_seen state.now file.now) }
{
    let Lexer { place, feeds, used } = file.lexer;
    match place {
        FilePlace::Text(_) => feeds == 0 && used == 0,
        FilePlace::Markup(_, _) => feeds <= state.reader.lines && used <= KEPT,
    }
}

// Whether the name of an open element is within its room, and none where none is to be kept.
#[tactic(auto, unfolding(base::specs::Bytes::both, base::specs::Bytes::either))]
fn name_is_sound(level: Level, named: usize) -> bool
    ensures { result ≡ name_sound level named }
{
    named <= FILE_BYTES - LINE && (tags::keeps_name(level) || named == 0)
}

// Whether a reader of a file is sound; and what its overlay and reader are because they are lent.
#[tactic(auto, unfolding(base::specs::Bytes::both, crate::specs::Calls::file_sound))]
fn file_tested(state: &ReaderView<'_>, file: &FileView<'_>) -> bool
    ensures value { result ≡ file_sound (file_seen state.now file.now) }
    ensures state_given { StateGiven (state_seen state.now) }
{
    let sound = state_tested(state);
    sound && place_is_sound(state, file) && name_is_sound(state.reader.place.level, file.named)
}

// ---- the calls

// A piece of a file. Whatever it holds: 22, or the stop mark. Then its markups, each at its end or where no legal markup goes on, up to the first that is refused.
pub fn piece_on(
    state: &mut ReaderState<'_>,
    file: &mut FileReader<'_>,
    piece: &[u8],
) -> Result<(), RefusedAt>
    ensures same { IsSameState state.new state.old }
    ensures same_bytes { file.new.bytes.ghost_name ≡ file.old.bytes.ghost_name }
    ensures value { record { file = file_held state.new file.new; answer = result } ≡ piece_on piece.now (file_held state.old file.old) }
{
    let sound = file_tested(&state.view(), &file.view());
    reader_sound::check_going(sound, state.reader.stop)?;
    piece_untested(state, file, piece)
}

// The end of a file: 22, the stop mark, 25 within a markup, or 18 where the level is not Done. It changes nothing.
pub fn end_on(state: &ReaderView<'_>, file: &FileView<'_>) -> Result<(), RefusedAt>
    ensures { record { file = file_seen state.now file.now; answer = result } ≡ file_end_on (file_seen state.now file.now) }
{
    let sound = file_tested(state, file);
    reader_sound::check_going(sound, state.reader.stop)?;
    match file.lexer.place {
        FilePlace::Text(_) => reader_calls::end_on(state),
        FilePlace::Markup(_, _) => Err(RefusedAt {
            refusal: Refusal::NotMarkup,
            line: file.lexer.feeds + 1,
        }),
    }
}
