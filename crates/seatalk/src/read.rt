// Any bytes read as the fields of a message.
ghost use Rattle.std.specs.Prelude.{◌≡◌, ◌++◌, ◌*◌, ◌≤◌, length, take, drop, Ok};
ghost use Rattle.message.specs.Fields.{fields_of};
ghost use Rattle.message.specs.Range.{range_of};
ghost use Rattle.from_fields.specs.Numbers.{fields_bytes, AllFit};
ghost use Rattle.seatalk.specs.Returned.{returned, told, stored_result};
ghost use Rattle.seatalk.specs.Read.{read_call, Grown};

use crate::put_long;
use datagram::Refusal;
use datagram::refusals::NO_ROOM;
use message::Message;
use to_fields::Fields;

// Stores the fields from..end behind those before them.
fn store_part(f: Fields, from: usize, end: usize, res: &mut [u8])
    requires { (f.count ≤ 12) × ((4 * f.count ≤ length res.old) × (AllFit (take f.count f.values) × ((from ≤ end) × (end ≤ f.count)))) }
    ensures { Grown f.values from res.old end res.new }
{
    // By index: of parts lent to an iterator nothing is known of the whole afterwards.
    for i in from..end {
        put_long(res, 4 * i, number::bits_of(f.values[i] as i32));
    }
}

// Stores the fields, 4 bytes each. In two loops, since the compiler keeps the fields in registers where a loop is short.
fn store(f: Fields, res: &mut [u8])
    requires { (f.count ≤ 12) × ((4 * f.count ≤ length res.old) × AllFit (take f.count f.values)) }
    ensures { res.new ≡ fields_bytes (take f.count f.values) ++ drop (4 * f.count) res.old }
{
    let n = usize::from(f.count);
    if n <= 6 {
        store_part(f, 0, n, res);
        return;
    }
    store_part(f, 0, 6, res);
    store_part(f, 6, n, res);
}

// The fields of a message in range, or refusal 8.
fn put_fields(m: Message, res: &mut [u8]) -> Result<u8, Refusal>
    requires { range_of m ≡ Ok tt }
    ensures { returned (told result) res.new ≡ stored_result (fields_bytes (fields_of m)) res.old }
{
    let f = to_fields::fields_of(m);
    let size = 4 * f.count;
    if res.len() < usize::from(size) {
        return Err(NO_ROOM);
    }
    store(f, res);
    Ok(size)
}

#[tactic(auto, unfolding(crate::specs::Read::read_call))]
pub fn read(bytes: &[u8], res: &mut [u8]) -> Result<u8, Refusal>
    ensures { returned (told result) res.new ≡ read_call bytes.now res.old }
{
    let m = reader::read(bytes)?;
    put_fields(m, res)
}
