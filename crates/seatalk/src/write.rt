// A command and its fields written as the symbols of a message.
ghost use Rattle.std.specs.Prelude.{◌≡◌, ◌++◌, ◌*◌, ◌/◌, ◌≤◌, length, take, drop};
ghost use Rattle.message.specs.Range.{range_of};
ghost use Rattle.seatalk.specs.Returned.{returned, told};
ghost use Rattle.seatalk.specs.Write.{write_returned, write_call, symbols_bytes};

use datagram::Refusal;
use datagram::refusals::NO_ROOM;
use message::Message;

// The high byte of a symbol. By cases, since the compiler would turn a plain copy of so few bytes into a call.
fn high_byte(s: u16) -> u8
    ensures { result ≡ s / 256 }
{
    if s < 256 {
        return 0;
    }
    if s < 512 {
        return 1;
    }
    (s / 256) as u8
}

// Stores the symbols, 2 bytes each. The low byte by a cast: `to_le_bytes` takes three instructions more a symbol.
fn store(symbols: &[u16], res: &mut [u8])
    requires { 2 * length symbols.now ≤ length res.old }
    ensures { res.new ≡ symbols_bytes symbols.now ++ drop (2 * length symbols.now) res.old }
{
    // By index: of parts lent to an iterator nothing is known of the whole afterwards.
    for (i, &s) in symbols.iter().enumerate() {
        res[2 * i] = (s % 256) as u8;
        res[2 * i + 1] = high_byte(s);
    }
}

// The symbols of a message, or refusal 7 or 8.
fn put_symbols(m: Message, res: &mut [u8]) -> Result<u8, Refusal>
    ensures { returned (told result) res.new ≡ write_returned (range_of m) m res.old }
{
    let mut symbols = [0u16; 18];
    let n = writer::write(m, &mut symbols, 0)?;
    let size = 2 * n;
    if res.len() < size {
        return Err(NO_ROOM);
    }
    store(&symbols[..n], res);
    Ok(size as u8)
}

#[tactic(auto, unfolding(crate::specs::Write::write_call))]
pub fn write(command: u32, fields: &[u8], res: &mut [u8]) -> Result<u8, Refusal>
    ensures { returned (told result) res.new ≡ write_call command fields.now res.old }
{
    let m = from_fields::message_of(command, fields)?;
    put_symbols(m, res)
}
