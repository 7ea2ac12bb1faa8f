// What can happen to a record on its way.

// The bytes without the last one.
pub fn cut(record: &[u8]) -> &[u8] {
    match record {
        [front @ .., _] => front,
        [] => record,
    }
}

// Sets the lowest bit of the map's upper byte, which no field has.
pub fn unknown_bit(record: &mut [u8]) {
    if let Some(byte) = record.get_mut(3) {
        *byte |= 1;
    }
}
