// The writer: from a typed message to 9-bit symbols in a lent buffer.
#![tactic(auto)]

mod kinds;
mod store;

ghost use Rattle.std.specs.Prelude.{◌≡◌};
ghost use Rattle.datagram.specs.Position.{outcome};
ghost use Rattle.message.specs.Spelling.{bytes_of};
ghost use Rattle.writer.specs.Writing.{store_of, write_of};

use crate::store::store;
use datagram::Refusal;
use datagram::refusals::NO_ROOM;
use message::Message;
use message::range::range_of;

// Writes the message's symbols from the position `at`, or gives refusal 7 or 8, in that order. Nothing else is changed.
#[tactic(auto, unfolding(crate::specs::Writing::write_of))]
pub fn write(m: Message, buf: &mut [u16], at: usize) -> Result<usize, Refusal>
    ensures { outcome result buf.new ≡ write_of m buf.old at }
{
    range_of(m)?;
    if buf.len() < at {
        return Err(NO_ROOM);
    }
    put(m, &mut buf[at..])
}

// Stores the bytes of the message's kind.
#[tactic(auto, unfolding(message::specs::Spelling::bytes_of))]
fn put(m: Message, part: &mut [u16]) -> Result<usize, Refusal>
    ensures { outcome result part.new ≡ store_of (bytes_of m) part.old }
{
    match m {
        Message::Depth {
            tenths,
            anchor,
            metric,
            defective,
            deep,
            shallow,
        } => store(
            part,
            kinds::depth(tenths, anchor, metric, defective, deep, shallow),
        ),
        Message::WindAngle { halves } => store(part, kinds::wind_angle(halves)),
        Message::WindSpeed { tenths, metres } => store(part, kinds::wind_speed(tenths, metres)),
        Message::Speed { tenths } => store(part, kinds::word(0x20, tenths)),
        Message::Trip { hundredths } => store(part, kinds::trip(hundredths)),
        Message::Total { tenths } => store(part, kinds::total(tenths)),
        Message::Logs { total, trip } => store(part, kinds::logs(total, trip)),
        Message::Speeds {
            speed,
            average,
            valid,
            stopped,
            mph,
        } => store(part, kinds::speeds(speed, average, valid, stopped, mph)),
        Message::Water { tenths } => store(part, kinds::water(tenths)),
        Message::Lamp { level } => store(part, kinds::lamp(level)),
        Message::Latitude {
            degrees,
            hundredths,
            south,
        } => store(part, kinds::coordinate(0x50, degrees, hundredths, south)),
        Message::Longitude {
            degrees,
            hundredths,
            east,
        } => store(part, kinds::coordinate(0x51, degrees, hundredths, east)),
        Message::Ground { tenths } => store(part, kinds::word(0x52, tenths)),
        Message::Course { halves } => store(part, kinds::course(halves)),
        Message::Time {
            hours,
            minutes,
            seconds,
        } => store(part, kinds::time(hours, minutes, seconds)),
        Message::Date { month, day, year } => store(part, kinds::date(month, day, year)),
        Message::Pilot {
            degrees,
            right,
            course,
            auto,
            vane,
            track,
            off_course,
            wind_shift,
            rudder,
            ss,
            tt,
        } => store(
            part,
            kinds::pilot(
                degrees, right, course, auto, vane, track, off_course, wind_shift, rudder, ss, tt,
            ),
        ),
        Message::Key { source, code } => store(part, kinds::key(source, code)),
        Message::Heading {
            halves,
            reference,
            locked,
        } => store(part, kinds::heading(halves, reference, locked)),
        Message::Variation { east } => store(part, kinds::variation(east)),
        Message::Turn {
            degrees,
            right,
            rudder,
        } => store(part, kinds::turn(degrees, right, rudder)),
    }
}
