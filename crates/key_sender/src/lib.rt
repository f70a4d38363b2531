// The key sender: a keystroke, datagram 86, offered to the bus.
#![tactic(auto)]

ghost use Rattle.std.specs.Prelude.{◌≡◌, ◌%◌};
ghost use Rattle.key_sender.specs.Key.{key_of};

use message::Message;
use sender::Offered;

// Offers the datagram of a key press, with the default wait and at most three attempts; a source above 15 is refusal 7.
pub fn send_key(source: u8, code: u8) -> Offered
    ensures { result ≡ key_of source code }
{
    let mut symbols = [0u16; 4];
    let m = Message::Key {
        source: u32::from(source),
        code: u32::from(code),
    };
    match writer::write(m, &mut symbols, 0) {
        Err(r) => sender::refused_offer(r),
        Ok(_) => sender::offer(&symbols.map(byte_of), 0, 3),
    }
}

// The byte of a symbol, which is the symbol without the command bit.
fn byte_of(symbol: u16) -> u8
    ensures { result ≡ symbol % 256 }
{
    let [byte, _] = symbol.to_le_bytes();
    byte
}
