// A datagram stored at the front of a lent part: all of its symbols, or none where there is no room.
ghost use Rattle.std.specs.Prelude.{◌≡◌, ◌<◌};
ghost use Rattle.datagram.specs.Position.{outcome};
ghost use Rattle.writer.specs.Writing.{store_of};

use datagram::Refusal;
use datagram::refusals::NO_ROOM;

pub fn store<const N: usize>(part: &mut [u16], bytes: [u8; N]) -> Result<usize, Refusal>
    requires { 0 < N }
    ensures { outcome result part.new ≡ store_of bytes.entry part.old }
{
    if part.len() < N {
        return Err(NO_ROOM);
    }
    part[0] = 256 + u16::from(bytes[0]);
    // By index: of parts lent to an iterator nothing is known of the whole afterwards.
    for i in 1..N {
        part[i] = u16::from(bytes[i]);
    }
    Ok(N)
}
