// From a message to its fields: the numbers of rules 4.2, in table order.
#![tactic(auto)]

ghost use Rattle.std.specs.Prelude.{◌≡◌, ◌≤◌};
ghost use Rattle.message.specs.Fields.{fields_of};
ghost use Rattle.to_fields.specs.Array.{array_of};

use message::Message;

// The first `count` of `values` are the fields, flags 0 or 1; the rest are 0. An array and a number: there is no heap.
#[derive(Clone, Copy)]
pub struct Fields {
    pub values: [i64; 12],
    pub count: u8,
}

// These numbers as the fields, with zeros behind them.
fn padded<const N: usize>(first: [i64; N]) -> Fields
    requires { N ≤ 12 }
    ensures { result ≡ array_of first.entry }
{
    let mut values = [0; 12];
    values[..N].copy_from_slice(&first);
    Fields {
        values,
        count: N as u8,
    }
}

// The message's fields. A public call, which a `From` would say twice.
#[tactic(auto, unfolding(message::specs::Fields::fields_of))]
pub fn fields_of(m: Message) -> Fields
    ensures { result ≡ array_of (fields_of m) }
{
    match m {
        Message::Depth {
            tenths,
            anchor,
            metric,
            defective,
            deep,
            shallow,
        } => padded([
            tenths.into(),
            anchor.into(),
            metric.into(),
            defective.into(),
            deep.into(),
            shallow.into(),
        ]),
        Message::WindAngle { halves } => padded([halves.into()]),
        Message::WindSpeed { tenths, metres } => padded([tenths.into(), metres.into()]),
        Message::Speed { tenths } => padded([tenths.into()]),
        Message::Trip { hundredths } => padded([hundredths.into()]),
        Message::Total { tenths } => padded([tenths.into()]),
        Message::Logs { total, trip } => padded([total.into(), trip.into()]),
        Message::Speeds {
            speed,
            average,
            valid,
            stopped,
            mph,
        } => padded([
            speed.into(),
            average.into(),
            valid.into(),
            stopped.into(),
            mph.into(),
        ]),
        Message::Water { tenths } => padded([tenths.into()]),
        Message::Lamp { level } => padded([level.into()]),
        Message::Latitude {
            degrees,
            hundredths,
            south,
        } => padded([degrees.into(), hundredths.into(), south.into()]),
        Message::Longitude {
            degrees,
            hundredths,
            east,
        } => padded([degrees.into(), hundredths.into(), east.into()]),
        Message::Ground { tenths } => padded([tenths.into()]),
        Message::Course { halves } => padded([halves.into()]),
        Message::Time {
            hours,
            minutes,
            seconds,
        } => padded([hours.into(), minutes.into(), seconds.into()]),
        Message::Date { month, day, year } => padded([month.into(), day.into(), year.into()]),
        Message::Pilot {
            degrees,
            right,
            course,
            auto,
            vane,
            track,
            off_course,
            wind_shift,
            rudder,
            ss,
            tt,
        } => padded([
            degrees.into(),
            right.into(),
            course.into(),
            auto.into(),
            vane.into(),
            track.into(),
            off_course.into(),
            wind_shift.into(),
            rudder.into(),
            ss.into(),
            tt.into(),
        ]),
        Message::Key { source, code } => padded([source.into(), code.into()]),
        Message::Heading {
            halves,
            reference,
            locked,
        } => padded([halves.into(), reference.into(), locked.into()]),
        Message::Variation { east } => padded([east.into()]),
        Message::Turn {
            degrees,
            right,
            rudder,
        } => padded([degrees.into(), right.into(), rudder.into()]),
    }
}
