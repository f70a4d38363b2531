// What a datagram says, as text: the name and the fields of its message, or what refused it.
ghost use Rattle.std.specs.Prelude.{◌≡◌, ◌+◌, ◌≤◌, length};
ghost use Rattle.message.specs.Reading.{read_of};
ghost use Rattle.reader.specs.OfKind.{read_of_kind};
ghost use Rattle.listing.specs.Text.{Put};
ghost use Rattle.listing.specs.Line.{message_text, content_of};

use crate::fields::put_fields;
use crate::put_refused;
use datagram::Refusal;
use datagram::refusals::{NOT_WHOLE, UNKNOWN_COMMAND};
use message::{Kind, Message};

// Puts what any bytes say.
pub fn put_content(out: &mut [u8], at: usize, bytes: &[u8]) -> usize
    requires { at + 260 ≤ length out.old }
    ensures { Put out.old at (content_of (read_of bytes.now)) out.new result }
{
    if !datagram::is_whole(bytes) {
        return put_refused(out, at, NOT_WHOLE);
    }
    let Some(row) = message::find(bytes[0]) else {
        return put_refused(out, at, UNKNOWN_COMMAND);
    };
    put_kind(out, at, row.kind, bytes)
}

// Puts what bytes say as a datagram of this kind. One jump goes by the kind; behind it the compiler knows the kind, and the
// fields stay in registers from the bytes to the text.
fn put_kind(out: &mut [u8], at: usize, kind: Kind, bytes: &[u8]) -> usize
    requires { at + 260 ≤ length out.old }
    ensures { Put out.old at (content_of (read_of_kind kind bytes.now)) out.new result }
{
    match kind {
        Kind::Depth => put_reading(out, at, reader::read_of(Kind::Depth, bytes)),
        Kind::WindAngle => put_reading(out, at, reader::read_of(Kind::WindAngle, bytes)),
        Kind::WindSpeed => put_reading(out, at, reader::read_of(Kind::WindSpeed, bytes)),
        Kind::Speed => put_reading(out, at, reader::read_of(Kind::Speed, bytes)),
        Kind::Trip => put_reading(out, at, reader::read_of(Kind::Trip, bytes)),
        Kind::Total => put_reading(out, at, reader::read_of(Kind::Total, bytes)),
        Kind::Logs => put_reading(out, at, reader::read_of(Kind::Logs, bytes)),
        Kind::Speeds => put_reading(out, at, reader::read_of(Kind::Speeds, bytes)),
        Kind::Water => put_reading(out, at, reader::read_of(Kind::Water, bytes)),
        Kind::Lamp => put_reading(out, at, reader::read_of(Kind::Lamp, bytes)),
        Kind::Latitude => put_reading(out, at, reader::read_of(Kind::Latitude, bytes)),
        Kind::Longitude => put_reading(out, at, reader::read_of(Kind::Longitude, bytes)),
        Kind::Ground => put_reading(out, at, reader::read_of(Kind::Ground, bytes)),
        Kind::Course => put_reading(out, at, reader::read_of(Kind::Course, bytes)),
        Kind::Time => put_reading(out, at, reader::read_of(Kind::Time, bytes)),
        Kind::Date => put_reading(out, at, reader::read_of(Kind::Date, bytes)),
        Kind::Pilot => put_reading(out, at, reader::read_of(Kind::Pilot, bytes)),
        Kind::Key => put_reading(out, at, reader::read_of(Kind::Key, bytes)),
        Kind::Heading => put_reading(out, at, reader::read_of(Kind::Heading, bytes)),
        Kind::Variation => put_reading(out, at, reader::read_of(Kind::Variation, bytes)),
        Kind::Turn => put_reading(out, at, reader::read_of(Kind::Turn, bytes)),
    }
}

// Puts a message, or what refused a datagram.
fn put_reading(out: &mut [u8], at: usize, reading: Result<Message, Refusal>) -> usize
    requires { at + 260 ≤ length out.old }
    ensures { Put out.old at (content_of reading) out.new result }
{
    match reading {
        Ok(m) => put_message(out, at, m),
        Err(r) => put_refused(out, at, r),
    }
}

// Puts the name of a message's kind, and its fields in table order.
#[tactic(auto, unfolding(message::specs::Fields::fields_of, message::specs::Fields::kind_of))]
fn put_message(out: &mut [u8], at: usize, m: Message) -> usize
    requires { at + 260 ≤ length out.old }
    ensures { Put out.old at (message_text m) out.new result }
{
    match m {
        Message::Depth {
            tenths,
            anchor,
            metric,
            defective,
            deep,
            shallow,
        } => put_fields(
            out,
            at,
            b" depth",
            ((tenths, anchor, metric), (defective, deep, shallow)),
        ),
        Message::WindAngle { halves } => put_fields(out, at, b" windangle", halves),
        Message::WindSpeed { tenths, metres } => put_fields(
            out,
            at,
            b" windspeed",
            (tenths, metres),
        ),
        Message::Speed { tenths } => put_fields(out, at, b" speed", tenths),
        Message::Trip { hundredths } => put_fields(out, at, b" trip", hundredths),
        Message::Total { tenths } => put_fields(out, at, b" total", tenths),
        Message::Logs { total, trip } => put_fields(out, at, b" logs", (total, trip)),
        Message::Speeds {
            speed,
            average,
            valid,
            stopped,
            mph,
        } => put_fields(
            out,
            at,
            b" speeds",
            ((speed, average), (valid, stopped, mph)),
        ),
        Message::Water { tenths } => put_fields(out, at, b" water", tenths),
        Message::Lamp { level } => put_fields(out, at, b" lamp", level),
        Message::Latitude {
            degrees,
            hundredths,
            south,
        } => put_fields(out, at, b" lat", (degrees, hundredths, south)),
        Message::Longitude {
            degrees,
            hundredths,
            east,
        } => put_fields(out, at, b" lon", (degrees, hundredths, east)),
        Message::Ground { tenths } => put_fields(out, at, b" ground", tenths),
        Message::Course { halves } => put_fields(out, at, b" course", halves),
        Message::Time {
            hours,
            minutes,
            seconds,
        } => put_fields(out, at, b" time", (hours, minutes, seconds)),
        Message::Date { month, day, year } => put_fields(out, at, b" date", (month, day, year)),
        Message::Pilot {
            degrees,
            right,
            course,
            auto,
            vane,
            track,
            off_course,
            wind_shift,
            rudder,
            ss,
            tt,
        } => put_fields(
            out,
            at,
            b" pilot",
            (
                (degrees, right, course),
                ((auto, vane, track), (off_course, wind_shift)),
                (rudder, ss, tt),
            ),
        ),
        Message::Key { source, code } => put_fields(out, at, b" key", (source, code)),
        Message::Heading {
            halves,
            reference,
            locked,
        } => put_fields(out, at, b" heading", (halves, reference, locked)),
        Message::Variation { east } => put_fields(out, at, b" variation", east),
        Message::Turn {
            degrees,
            right,
            rudder,
        } => put_fields(out, at, b" turn", (degrees, right, rudder)),
    }
}
