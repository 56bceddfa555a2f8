// Words of four bytes, low byte first. Places are counted in words.
ghost use Rattle.std.specs.Prelude.{◌+◌, ◌<◌, ◌≤◌, length};

// The largest place.
pub const MOST: usize = 1000000;

// The word whose lowest byte is byte `at`.
pub fn four(bytes: &[u8], at: usize) -> u32
    requires { at + 3 < length bytes.now }
{
    u32::from_le_bytes([bytes[at], bytes[at + 1], bytes[at + 2], bytes[at + 3]])
}

// Word `at` of `data`, or 0 past its end.
pub fn word_or_0(data: &[u8], at: usize) -> u32 {
    if at < data.len() / 4 {
        four(data, at * 4)
    } else {
        0
    }
}

// The place `count` words after `at`, or the largest.
pub fn after(at: usize, count: usize) -> usize
    ensures { result ≤ 1000000 }
{
    if at > MOST {
        return MOST;
    }
    if count > MOST - at {
        return MOST;
    }
    at + count
}

// Writes word `at` of `room`, or nothing past its end.
pub fn put_word(room: &mut [u8], at: usize, word: u32) {
    if at < room.len() / 4 {
        let bytes = word.to_le_bytes();
        room[at * 4..at * 4 + 4].copy_from_slice(&bytes);
    }
}

// The bytes from `start` to `end`, or none if they are not there.
pub fn part(bytes: &[u8], start: usize, end: usize) -> &[u8] {
    if start > end || end > bytes.len() {
        return &bytes[0..0];
    }
    &bytes[start..end]
}
