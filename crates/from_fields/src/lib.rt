// From fields to a message: a command number and the fields' bytes, as C names a message.
#![tactic(auto)]

mod kinds;
mod numbers;

ghost use Rattle.std.specs.Prelude.{◌≡◌, ◌*◌, ◌≤◌, IfSome, length};
ghost use Rattle.from_fields.specs.Numbers.{numbers_of};
ghost use Rattle.from_fields.specs.Naming.{named_of, named_as, flagged};

use datagram::Refusal;
use datagram::refusals::{UNKNOWN_COMMAND, WRONG_LENGTH, out_of_range};
use message::range::range_of;
use message::{Kind, Message, Row};

// The message named, or refusal 4, 5 or 7 (for a flag that is neither 0 nor 1), in that order.
#[tactic(auto, using(crate::proofs::Rows::unknown_above), unfolding(crate::specs::Naming::named_of))]
pub fn message_of(command: u32, fields: &[u8]) -> Result<Message, Refusal>
    ensures { result ≡ named_of command fields.now }
{
    message_as(u8::try_from(command).ok().and_then(message::find), fields)
}

// The same by the row that the command was found at.
#[tactic(auto, using(crate::proofs::Flags::bad_in_bytes))]
fn message_as(found: Option<Row>, fields: &[u8]) -> Result<Message, Refusal>
    ensures { result ≡ named_as found fields.now }
{
    let kind = found.ok_or(UNKNOWN_COMMAND)?.kind;
    if fields.len() != 4 * usize::from(kinds::count_of(kind)) {
        return Err(WRONG_LENGTH);
    }
    flag_judged(kind, fields, kinds::bad_flag(kind, fields))
}

// Where flag k, counted from 1, is bad, the fields before it, taken alone, are judged first.
// There is one call of `of_kind`, so that the compiler puts its code here and the message into registers.
#[tactic(auto, using(crate::proofs::Loads::front))]
fn flag_judged(kind: Kind, fields: &[u8], bad: Option<u8>) -> Result<Message, Refusal>
    requires { IfSome bad (λ k. 4 * k ≤ length fields.now) }
    ensures { result ≡ flagged kind (numbers_of fields.now) bad }
{
    let end = bad.map_or(fields.len(), |k: u8| 4 * usize::from(k.saturating_sub(1)));
    let m = kinds::of_kind(kind, &fields[..end]);
    match bad {
        None => Ok(m),
        Some(k) => {
            range_of(m)?;
            Err(out_of_range(k))
        }
    }
}
