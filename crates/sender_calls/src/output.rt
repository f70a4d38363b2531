// What is written is collected in a buffer: an array and how far it is filled, since there is no heap.
ghost use Rattle.std.specs.Prelude.{◌≡◌, ◌≤◌};

use std::fmt;
use std::io::Write;

const ROOM: usize = 65536;

#[derive(Drop)]
pub struct Output<W> {
    to: W,
    buffer: [u8; ROOM],
    filled: usize,
    ghost within: { filled ≤ 65536 },
}

impl<W: Write> Output<W> {
    pub fn new(to: W) -> Self {
        Output {
            to,
            buffer: [0; ROOM],
            filled: 0,
        }
    }

    // A byte more; a full buffer is written first.
    pub fn put(&mut self, b: u8) {
        if self.filled == ROOM {
            self.flush();
        }
        self.buffer[self.filled] = b;
        self.filled += 1;
    }

    // A failed write is passed over: the rest of what it had to write is lost.
    pub fn flush(&mut self)
        ensures { self.new.filled ≡ 0 }
    {
        let _ = self.to.write_all(&self.buffer[..self.filled]);
        self.filled = 0;
    }
}

impl<W: Write> fmt::Write for Output<W> {
    fn write_str(&mut self, s: &str) -> fmt::Result {
        for b in s.as_bytes() {
            self.put(*b);
        }
        Ok(())
    }
}
