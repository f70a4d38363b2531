// The C boundary: listener, reader, writer and recording writer on plain numbers and byte slices.
#![tactic(auto)]

mod hear;
mod read;
mod record;
mod write;

ghost use Rattle.std.specs.Prelude.{◌≡◌, ◌+◌, ◌≤◌, length};
ghost use Rattle.std.proofs.lemmas.List.Edits.{sets};
ghost use Rattle.number.specs.Word.{long_bytes};
ghost use Rattle.seatalk.specs.Returned.{returned, told, code_of};
ghost use Rattle.seatalk.specs.Hear as heard;
ghost use Rattle.seatalk.specs.Read.{read_call};
ghost use Rattle.seatalk.specs.Record.{record_call};
ghost use Rattle.seatalk.specs.Write.{write_call};

use datagram::Refusal;

// One symbol heard: the state and 20 bytes of result; refusal 1, 2 or 8.
#[unsafe(no_mangle)]
pub extern "C" fn seatalk_hear(state: &mut [u8], symbol: u32, res: &mut [u8]) -> i32
    ensures { heard.returned result state.new res.new ≡ heard.hear_call state.old symbol res.old }
{
    told(hear::hear(state, symbol, res))
}

// A datagram's fields, 4 bytes each; refusal 3, 4, 5, 6, 7 or 8.
#[unsafe(no_mangle)]
pub extern "C" fn seatalk_read(bytes: &[u8], res: &mut [u8]) -> i32
    ensures { returned result res.new ≡ read_call bytes.now res.old }
{
    told(read::read(bytes, res))
}

// A message's symbols, 2 bytes each; refusal 4, 5, 7 or 8.
#[unsafe(no_mangle)]
pub extern "C" fn seatalk_write(command: u32, fields: &[u8], res: &mut [u8]) -> i32
    ensures { returned result res.new ≡ write_call command fields.now res.old }
{
    told(write::write(command, fields, res))
}

// A record's eight bytes from a time and a symbol; refusal 1 or 8.
#[unsafe(no_mangle)]
pub extern "C" fn seatalk_record(time: u32, symbol: u32, res: &mut [u8]) -> i32
    ensures { returned result res.new ≡ record_call time symbol res.old }
{
    told(record::record(time, symbol, res))
}

// What a call returns: how many bytes it stored, or the refusal's code.
fn told(stored: Result<u8, Refusal>) -> i32
    ensures { result ≡ told stored }
{
    match stored {
        Ok(n) => i32::from(n),
        Err(r) => code_of(r),
    }
}

// Minus the number and 256 times the place, of which 23 bits are kept.
#[tactic(auto, unfolding(crate::specs::Returned::code_of))]
fn code_of(r: Refusal) -> i32
    ensures { result ≡ code_of r }
{
    let n = u32::from(r.number) + 256 * ((r.place % 8388608) as u32);
    -n.cast_signed()
}

// Puts the four bytes of 32 bits from a position on, low byte first.
#[tactic(auto, using(crate::proofs::Laid::long_laid))]
fn put_long(lent: &mut [u8], at: usize, n: u32)
    requires { at + 4 ≤ length lent.old }
    ensures { lent.new ≡ sets lent.old at (long_bytes n) }
{
    lent[at..at + 4].copy_from_slice(&n.to_le_bytes());
}
