// The numbers of a line, as they are read: an array and their number, since there is no heap.
ghost use Rattle.std.specs.Prelude.{◌≡◌, ◌<◌, ◌≤◌, true, IfSome};

#[derive(Clone, Copy)]
pub struct Numbers {
    // each in base 16, its low byte
    pub bytes: [u8; 24],
    pub count: usize,
    // the last but one, decimal
    pub before: u32,
    // the last, decimal and in base 16
    pub last: u32,
    pub hex: u16,
    // whether the character before was a digit
    pub reading: bool,
    ghost within: { count ≤ 24 },
    ghost begun: { reading ≡ true → 0 < count },
}

impl Numbers {
    pub fn new() -> Self {
        Numbers {
            bytes: [0; 24],
            count: 0,
            before: 0,
            last: 0,
            hex: 0,
            reading: false,
        }
    }

    // One more character of the line; a new line starts with none.
    pub fn read(&mut self, c: u8) {
        let Some(digit) = digit_of(c) else {
            self.reading = false;
            if c == b'\n' {
                self.count = 0;
            }
            return;
        };
        if !self.reading {
            self.before = self.last;
            self.last = 0;
            self.hex = 0;
            self.count = (self.count + 1).min(24);
            self.reading = true;
        }
        // Of a longer number the last ten digits count, modulo 2^32.
        self.last = (self.last % 1000000000)
            .wrapping_mul(10)
            .wrapping_add(u32::from(digit));
        self.hex = self.hex % 4096 * 16 + u16::from(digit);
        let [low, _] = self.hex.to_le_bytes();
        self.bytes[self.count - 1] = low;
    }

    // All but the last two.
    pub fn offered(&self) -> &[u8] {
        &self.bytes[..self.count.saturating_sub(2)]
    }
}

// A digit of base 16.
fn digit_of(c: u8) -> Option<u8>
    ensures { IfSome result (λ d. d < 16) }
{
    match c {
        b'0'..=b'9' => Some(c - b'0'),
        b'A'..=b'F' => Some(c - b'A' + 10),
        _ => None,
    }
}
