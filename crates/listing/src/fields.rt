// The fields of a message as text, each after a space.
ghost use Rattle.std.specs.Prelude.{◌≡◌, ℤ, pos, List, [], ◌∷◌, ◌++◌, ◌+◌, ◌*◌, ◌≤◌, length};
ghost use Rattle.number.specs.Word.{num};
ghost use Rattle.listing.specs.Text.{Put, spaced_numbers};

use crate::{put_bytes, put_decimal};

// One field, or several one after the other. The compiler knows their types behind put_kind's match, and puts them without a
// loop and without a test of what they are.
pub trait Fields {
    // The numbers that are put; each takes at most 22 bytes.
    ghost numbers: { Self → List ℤ };

    fn put(self, out: &mut [u8], at: usize) -> usize
        requires { at + 22 * length (numbers self) ≤ length out.old }
        ensures { Put out.old at (spaced_numbers (numbers self)) out.new result };
}

impl Fields for u32 {
    ghost numbers = { λ n. pos n ∷ [] };

    fn put(self, out: &mut [u8], at: usize) -> usize {
        out[at] = b' ';
        put_decimal(out, at + 1, u64::from(self))
    }
}

impl Fields for i32 {
    ghost numbers = { λ z. z ∷ [] };

    fn put(self, out: &mut [u8], at: usize) -> usize {
        out[at] = b' ';
        let size = number::magnitude(i64::from(self));
        if self < 0 {
            out[at + 1] = b'-';
            put_decimal(out, at + 2, size)
        } else {
            put_decimal(out, at + 1, size)
        }
    }
}

// A flag is 0 or 1.
impl Fields for bool {
    ghost numbers = { λ on. pos (num on) ∷ [] };

    fn put(self, out: &mut [u8], at: usize) -> usize {
        out[at] = b' ';
        out[at + 1] = b'0' + u8::from(self);
        at + 2
    }
}

impl<A: Fields, B: Fields> Fields for (A, B) {
    ghost numbers = { λ p. A.numbers p.0 ++ B.numbers p.1 };

    fn put(self, out: &mut [u8], at: usize) -> usize {
        let p = self.0.put(out, at);
        self.1.put(out, p)
    }
}

impl<A: Fields, B: Fields, C: Fields> Fields for (A, B, C) {
    ghost numbers = { λ t. A.numbers t.0 ++ (B.numbers t.1 ++ C.numbers t.2) };

    fn put(self, out: &mut [u8], at: usize) -> usize {
        (self.0, (self.1, self.2)).put(out, at)
    }
}

// Puts a label and the fields behind it.
pub fn put_fields<F: Fields>(out: &mut [u8], at: usize, label: &[u8], fields: F) -> usize
    requires { at + length label.now + 22 * length (F.numbers fields) ≤ length out.old }
    ensures { Put out.old at (label.now ++ spaced_numbers (F.numbers fields)) out.new result }
{
    let p = put_bytes(out, at, label);
    fields.put(out, p)
}
