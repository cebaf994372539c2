// The buffer of an input in pieces: a piece behind the bytes that are held, and the unfinished line moved to the front.
#![tactic(auto)]

ghost use Rattle.std.specs.Prelude.{◌≡◌, ◌+◌, min, length};
ghost use Rattle.little.specs.Little.{over};
ghost use Rattle.input_buffer.specs.Fronts.{kept_front};

use reader::RefusedAt;

// A piece behind the bytes that are held, as far as there is room. The answer is how many there are then. How many are held goes beside the buffer, whose rest is room.
pub fn join_piece(buffer: &mut [u8], held: usize, piece: &[u8]) -> usize
    ensures buffer_after { buffer.new ≡ over buffer.old held piece.now }
    ensures value { result ≡ min (held + length piece.now) (length buffer.old) }
{
    let room = buffer.len();
    little::copy_at(buffer, held, piece);
    let before = little::lesser(held, room);
    before + little::lesser(piece.len(), room - before)
}

// What is held after lines that lay in a buffer: the bytes from a place on, moved to its front; after a refusal none.
pub fn keep_front(buffer: &mut [u8], answer: Result<(), RefusedAt>, from: usize) -> usize
    ensures { record { buffer = buffer.new; kept = result } ≡ kept_front answer buffer.old from }
{
    // `map_or` was tried: of a buffer that a closure holds which is not called, a proof learns nothing
    match answer {
        Ok(()) => {
            let end = buffer.len();
            input_lines::keep_rest(buffer, from, end)
        }
        Err(_) => 0,
    }
}
