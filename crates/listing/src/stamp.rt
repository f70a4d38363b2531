// The times of a listing's lines: each is mostly the one before it but for the last four digits.
ghost use Rattle.std.specs.Prelude.{◌≡◌, ◌+◌, ◌≤◌, length};
ghost use Rattle.listing.specs.Text.{Put, Kept, decimal};

use crate::{put_bytes, put_decimal, put_pair};

// The digits that are kept from line to line: `leading` is a time divided by 10000, and `count` is how many digits it has. They
// stand in an array, since there is no heap, of the 20 bytes that put_decimal asks for.
#[derive(Drop)]
pub struct Stamp {
    leading: u32,
    count: usize,
    digits: [u8; 20],
    ghost kept: { Kept digits leading count },
}

impl Stamp {
    #[tactic(auto, unfolding(crate::specs::Text::decimal))]
    pub fn new() -> Stamp
        ensures { (result.leading ≡ 0) × (result.count ≡ 1) }
    {
        Stamp {
            leading: 0,
            count: 1,
            digits: [b'0'; 20],
        }
    }

    // Puts a time in decimal: six bytes of the digits that are kept, and over those past their number the last four digits.
    pub fn put(&mut self, out: &mut [u8], at: usize, time: u32) -> usize
        requires { at + 26 ≤ length out.old }
        ensures { Put out.old at (decimal time) out.new result }
    {
        // It has five digits at most, and six bytes would reach past it.
        if time < 100000 {
            return put_decimal(out, at, u64::from(time));
        }
        self.keep(time / 10000);
        // All six are read before one is stored, so that it is one read and one store for four and for two.
        let [a, b, c, d, e, f, ..] = self.digits;
        put_bytes(out, at, &[a, b, c, d, e, f]);
        let last = u64::from(time % 10000);
        let p = put_pair(out, at + self.count, last / 100);
        put_pair(out, p, last % 100)
    }

    // Spells the digits anew where they are those of another number.
    fn keep(&mut self, leading: u32)
        ensures { self.new.leading ≡ leading }
    {
        if leading != self.leading {
            self.count = put_decimal(&mut self.digits, 0, u64::from(leading));
            self.leading = leading;
        }
    }
}
