// The range of each field: the verdict on a message.
ghost use Rattle.std.specs.Prelude.{◌≡◌};
ghost use Rattle.message.specs.Range.{range_of, at_most, from_one, within};

use crate::Message;
use datagram::Refusal;
use datagram::refusals::out_of_range;

// Three tests and no generic one: each is held to its own definition, and its name says which bounds are tested. The reader makes
// the first two, of what the bytes spell.

// Whether field number `field`, counted from 1, is at most the limit; else the refusal that names it.
pub fn at_most(field: u8, limit: u32, n: u32) -> Result<(), Refusal>
    ensures { result ≡ at_most field limit n }
{
    if n <= limit {
        Ok(())
    } else {
        Err(out_of_range(field))
    }
}

// The same for a field that is at least 1.
pub fn from_one(field: u8, limit: u32, n: u32) -> Result<(), Refusal>
    ensures { result ≡ from_one field limit n }
{
    if n < 1 {
        return Err(out_of_range(field));
    }
    at_most(field, limit, n)
}

// The same for a signed field, from low to high.
pub fn in_bounds(field: u8, low: i32, high: i32, z: i32) -> Result<(), Refusal>
    ensures { result ≡ within field low high z }
{
    if low <= z && z <= high {
        Ok(())
    } else {
        Err(out_of_range(field))
    }
}

// Whether the fields are in range, or the refusal of the first that is not.
#[tactic(auto, unfolding(crate::specs::Range::range_of))]
pub fn range_of(m: Message) -> Result<(), Refusal>
    ensures { result ≡ range_of m }
{
    match m {
        Message::Depth { tenths, .. } => at_most(1, 65535, tenths),
        Message::WindAngle { halves } => at_most(1, 719, halves),
        Message::WindSpeed { tenths, .. } => at_most(1, 1279, tenths),
        Message::Speed { tenths } => at_most(1, 65535, tenths),
        Message::Trip { hundredths } => at_most(1, 1048575, hundredths),
        Message::Total { tenths } => at_most(1, 65535, tenths),
        Message::Logs { total, trip } => {
            at_most(1, 1048575, total)?;
            at_most(2, 1048575, trip)
        }
        Message::Speeds { speed, average, .. } => {
            at_most(1, 65535, speed)?;
            at_most(2, 65535, average)
        }
        Message::Water { tenths } => in_bounds(1, -100, 65435, tenths),
        Message::Lamp { level } => at_most(1, 3, level),
        Message::Latitude {
            degrees,
            hundredths,
            ..
        } => {
            at_most(1, 90, degrees)?;
            at_most(2, 5999, hundredths)
        }
        Message::Longitude {
            degrees,
            hundredths,
            ..
        } => {
            at_most(1, 180, degrees)?;
            at_most(2, 5999, hundredths)
        }
        Message::Ground { tenths } => at_most(1, 65535, tenths),
        Message::Course { halves } => at_most(1, 719, halves),
        Message::Time {
            hours,
            minutes,
            seconds,
        } => {
            at_most(1, 23, hours)?;
            at_most(2, 59, minutes)?;
            at_most(3, 59, seconds)
        }
        Message::Date { month, day, year } => {
            from_one(1, 12, month)?;
            from_one(2, 31, day)?;
            at_most(3, 99, year)
        }
        Message::Pilot {
            degrees,
            course,
            rudder,
            ss,
            tt,
            ..
        } => {
            at_most(1, 359, degrees)?;
            at_most(3, 719, course)?;
            in_bounds(9, -128, 127, rudder)?;
            at_most(10, 255, ss)?;
            at_most(11, 255, tt)
        }
        Message::Key { source, code } => {
            at_most(1, 15, source)?;
            at_most(2, 255, code)
        }
        Message::Heading {
            halves,
            reference,
            ..
        } => {
            at_most(1, 719, halves)?;
            at_most(2, 719, reference)
        }
        Message::Variation { east } => in_bounds(1, -127, 128, east),
        Message::Turn {
            degrees,
            rudder,
            ..
        } => {
            at_most(1, 359, degrees)?;
            in_bounds(3, -128, 127, rudder)
        }
    }
}
