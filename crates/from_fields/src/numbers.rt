// One number of the fields' bytes: with its sign, without, and as a flag.
ghost use Rattle.std.specs.Prelude.{◌≡◌};
ghost use Rattle.from_fields.specs.Numbers.{numbers_of};
ghost use Rattle.from_fields.specs.Naming.{signed, natural, on};

// Field i, counted from 0, with its sign; 0 past the end, as its definition has it.
pub fn signed_at(fields: &[u8], i: u8) -> i32
    ensures { result ≡ signed (numbers_of fields.now) i }
{
    let at = 4 * usize::from(i);
    match fields.get(at..at + 4) {
        Some([a, b, c, d]) => i32::from_le_bytes([*a, *b, *c, *d]),
        _ => 0,
    }
}

// Field i without its sign.
pub fn natural_at(fields: &[u8], i: u8) -> u32
    ensures { result ≡ natural (numbers_of fields.now) i }
{
    signed_at(fields, i).cast_unsigned()
}

// Field i as a flag.
pub fn on_at(fields: &[u8], i: u8) -> bool
    ensures { result ≡ on (numbers_of fields.now) i }
{
    natural_at(fields, i) == 1
}
