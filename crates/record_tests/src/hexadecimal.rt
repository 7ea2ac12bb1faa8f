// Bytes written down in hexadecimal.
use std::alloc::Global;
use std::test::Fail;

// Room for the longest record and some bytes more.
pub const ROOM: usize = 200;

// The bytes that a text writes, with blanks between them.
pub fn bytes_of(text: &str, heap: Global) -> Result<Vec<u8>, Fail> {
    let mut bytes = Vec::new(heap);
    for word in text.split_whitespace() {
        let written = hex::decode(heap, word)?;
        bytes.extend_from_slice(&written)?;
    }
    Ok(bytes)
}

// Lays bytes over memory from a place on.
pub fn lay(bytes: &[u8], at: usize, memory: &mut [u8]) {
    for (slot, byte) in memory.iter_mut().skip(at).zip(bytes) {
        *slot = *byte;
    }
}
