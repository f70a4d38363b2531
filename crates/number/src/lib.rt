// Bytes, words and two's complement: the arithmetic below every field.
#![tactic(auto)]

ghost use Rattle.std.specs.Prelude.{◌≡◌, ◌≤◌, pos, neg_ℤ, nat_abs, ◌-ℤ◌};
ghost use Rattle.std.specs.Int.{w8, w32};
ghost use Rattle.std.proofs.Common.{to_z, of_z};
ghost use Rattle.number.specs.Word.{word, long, num};

// The word of two bytes, the low one first.
pub fn word_of(low: u8, high: u8) -> u32
    ensures { result ≡ word low high }
{
    u32::from(u16::from_le_bytes([low, high]))
}

// The 32 bits of four bytes, the low one first.
pub fn long_of(a: u8, b: u8, c: u8, d: u8) -> u32
    ensures { result ≡ long a b c d }
{
    u32::from_le_bytes([a, b, c, d])
}

// A flag as 1 or 0.
pub fn flag(on: bool) -> u8
    ensures { (result ≡ num on) × (result ≤ 1) }
{
    u8::from(on)
}

// The difference of two words, of either sign.
pub fn difference(a: u16, b: u16) -> i32
    ensures { result ≡ pos a -ℤ pos b }
{
    i32::from(a) - i32::from(b)
}

// A byte read as a signed number, -128 to 127.
pub fn signed_byte(b: u8) -> i32
    ensures { result ≡ to_z w8 b }
{
    i32::from(b.cast_signed())
}

// Minus the signed byte, -127 to 128.
pub fn negated_byte(b: u8) -> i32
    ensures { result ≡ neg_ℤ (to_z w8 b) }
{
    -signed_byte(b)
}

// How far a number is from 0; the lowest one too, whose negative does not fit.
pub fn magnitude(z: i64) -> u64
    ensures { result ≡ nat_abs z }
{
    z.unsigned_abs()
}

// The two's complement of a signed number.
pub fn bits_of(z: i32) -> u32
    ensures { result ≡ of_z w32 z }
{
    z.cast_unsigned()
}
