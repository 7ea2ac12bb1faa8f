// Memory that records are laid into and rows are written to.
use std::array::from_fn;

// Room for the longest record and some bytes more.
pub const ROOM: usize = 200;

// Bytes at the front of memory, and behind them what stands there: no two neighbours alike.
pub fn memory_with(front: &[u8]) -> [u8; ROOM] {
    let mut memory = from_fn(|i| 0xA5 ^ i as u8);
    lay(front, &mut memory, 0);
    memory
}

// Lays bytes into memory from a place on, as far as it reaches.
pub fn lay(bytes: &[u8], memory: &mut [u8], place: usize) {
    for (slot, byte) in memory.iter_mut().skip(place).zip(bytes) {
        *slot = *byte;
    }
}
