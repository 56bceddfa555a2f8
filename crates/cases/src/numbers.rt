// Short numbers. One below 255 is a byte; any other is the byte 255 and four bytes, low byte first. Places are counted in bytes.

// A number, and the place after it.
#[derive(Clone, Copy, Debug, PartialEq, Eq)]
pub struct Number {
    pub value: u32,
    pub next: usize,
}

// The number at place `at`; 0, and the same place, if there is none.
// It stays a number and a place, and no Option: a case reads what is past its end as 0, and one test of its place tells that it is malformed.
pub fn number_at(data: &[u8], at: usize) -> Number {
    if at >= data.len() {
        return Number { value: 0, next: at };
    }
    match &data[at..] {
        [255, a, b, c, d, ..] => Number {
            value: u32::from_le_bytes([*a, *b, *c, *d]),
            next: at + 5,
        },
        [255, ..] | [] => Number { value: 0, next: at },
        [first, ..] => Number {
            value: u32::from(*first),
            next: at + 1,
        },
    }
}
