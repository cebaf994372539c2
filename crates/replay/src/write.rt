// Fields to standard output, each after a tab. The arrays are fixed ones, since the program has no heap.
use std::io;

// What stands in a field; nothing where there was no room for it.
fn field(rt: &impl Print, text: Option<&[u8]>) -> io::Result<()> {
    rt.write_all(b"\t")?;
    match text {
        Some(text) => rt.write_all(text),
        None => Ok(()),
    }
}

// 20 bytes are the most that a number of 64 bits asks for, with its sign.
pub fn number(rt: &impl Print, v: u64) -> io::Result<()> {
    let mut bytes = [0u8; 20];
    let length = decimal::put_number(&mut bytes, v);
    field(rt, length.and_then(|n| bytes.get(..n)))
}

// An integer of 64 bits, by its bits.
pub fn integer(rt: &impl Print, bits: u64) -> io::Result<()> {
    let mut bytes = [0u8; 20];
    let length = decimal::put_integer(&mut bytes, bits);
    field(rt, length.and_then(|n| bytes.get(..n)))
}
