// What stands in the fields of each kind: their number, the flags among them, and the message that they make.
ghost use Rattle.std.specs.Prelude.{◌≡◌, ◌≤◌, IfSome, All};
ghost use Rattle.from_fields.specs.Numbers.{numbers_of};
ghost use Rattle.from_fields.specs.Naming.{count_of, flags_of, bad_flag, message_of};

use crate::numbers::{natural_at, on_at, signed_at};
use message::{Kind, Message};

// How many fields the kind has. `to_fields` has as many in each array; that they agree is a law (`named_back`).
#[tactic(auto, unfolding(crate::specs::Naming::count_of))]
pub fn count_of(kind: Kind) -> u8
    ensures { result ≡ count_of kind }
{
    match kind {
        Kind::Depth => 6,
        Kind::WindAngle => 1,
        Kind::WindSpeed => 2,
        Kind::Speed => 1,
        Kind::Trip => 1,
        Kind::Total => 1,
        Kind::Logs => 2,
        Kind::Speeds => 5,
        Kind::Water => 1,
        Kind::Lamp => 1,
        Kind::Latitude => 3,
        Kind::Longitude => 3,
        Kind::Ground => 1,
        Kind::Course => 1,
        Kind::Time => 3,
        Kind::Date => 3,
        Kind::Pilot => 11,
        Kind::Key => 2,
        Kind::Heading => 3,
        Kind::Variation => 1,
        Kind::Turn => 3,
    }
}

// The first of these fields, counted from 1, that is neither 0 nor 1. Saturating, as the definition's difference is; no list has a 0.
fn first_bad(flags: &[u8], fields: &[u8]) -> Option<u8>
    ensures { result ≡ bad_flag flags.now (numbers_of fields.now) }
{
    flags
        .iter()
        .copied()
        .find(|&k| 1 < natural_at(fields, k.saturating_sub(1)))
}

// The kind's first bad flag, counted from 1.
#[tactic(auto, unfolding(crate::specs::Naming::flags_of))]
pub fn bad_flag(kind: Kind, fields: &[u8]) -> Option<u8>
    ensures { result ≡ bad_flag (flags_of kind) (numbers_of fields.now) }
{
    match kind {
        Kind::Depth => first_bad(&[2, 3, 4, 5, 6], fields),
        Kind::WindSpeed => first_bad(&[2], fields),
        Kind::Speeds => first_bad(&[3, 4, 5], fields),
        Kind::Latitude => first_bad(&[3], fields),
        Kind::Longitude => first_bad(&[3], fields),
        Kind::Pilot => first_bad(&[2, 4, 5, 6, 7, 8], fields),
        Kind::Heading => first_bad(&[3], fields),
        Kind::Turn => first_bad(&[2], fields),
        _ => None,
    }
}

// The message of this kind with these fields.
#[tactic(auto, unfolding(crate::specs::Naming::message_of))]
pub fn of_kind(kind: Kind, fields: &[u8]) -> Message
    ensures { result ≡ message_of kind (numbers_of fields.now) }
{
    match kind {
        Kind::Depth => Message::Depth {
            tenths: natural_at(fields, 0),
            anchor: on_at(fields, 1),
            metric: on_at(fields, 2),
            defective: on_at(fields, 3),
            deep: on_at(fields, 4),
            shallow: on_at(fields, 5),
        },
        Kind::WindAngle => Message::WindAngle {
            halves: natural_at(fields, 0),
        },
        Kind::WindSpeed => Message::WindSpeed {
            tenths: natural_at(fields, 0),
            metres: on_at(fields, 1),
        },
        Kind::Speed => Message::Speed {
            tenths: natural_at(fields, 0),
        },
        Kind::Trip => Message::Trip {
            hundredths: natural_at(fields, 0),
        },
        Kind::Total => Message::Total {
            tenths: natural_at(fields, 0),
        },
        Kind::Logs => Message::Logs {
            total: natural_at(fields, 0),
            trip: natural_at(fields, 1),
        },
        Kind::Speeds => Message::Speeds {
            speed: natural_at(fields, 0),
            average: natural_at(fields, 1),
            valid: on_at(fields, 2),
            stopped: on_at(fields, 3),
            mph: on_at(fields, 4),
        },
        Kind::Water => Message::Water {
            tenths: signed_at(fields, 0),
        },
        Kind::Lamp => Message::Lamp {
            level: natural_at(fields, 0),
        },
        Kind::Latitude => Message::Latitude {
            degrees: natural_at(fields, 0),
            hundredths: natural_at(fields, 1),
            south: on_at(fields, 2),
        },
        Kind::Longitude => Message::Longitude {
            degrees: natural_at(fields, 0),
            hundredths: natural_at(fields, 1),
            east: on_at(fields, 2),
        },
        Kind::Ground => Message::Ground {
            tenths: natural_at(fields, 0),
        },
        Kind::Course => Message::Course {
            halves: natural_at(fields, 0),
        },
        Kind::Time => Message::Time {
            hours: natural_at(fields, 0),
            minutes: natural_at(fields, 1),
            seconds: natural_at(fields, 2),
        },
        Kind::Date => Message::Date {
            month: natural_at(fields, 0),
            day: natural_at(fields, 1),
            year: natural_at(fields, 2),
        },
        Kind::Pilot => Message::Pilot {
            degrees: natural_at(fields, 0),
            right: on_at(fields, 1),
            course: natural_at(fields, 2),
            auto: on_at(fields, 3),
            vane: on_at(fields, 4),
            track: on_at(fields, 5),
            off_course: on_at(fields, 6),
            wind_shift: on_at(fields, 7),
            rudder: signed_at(fields, 8),
            ss: natural_at(fields, 9),
            tt: natural_at(fields, 10),
        },
        Kind::Key => Message::Key {
            source: natural_at(fields, 0),
            code: natural_at(fields, 1),
        },
        Kind::Heading => Message::Heading {
            halves: natural_at(fields, 0),
            reference: natural_at(fields, 1),
            locked: on_at(fields, 2),
        },
        Kind::Variation => Message::Variation {
            east: signed_at(fields, 0),
        },
        Kind::Turn => Message::Turn {
            degrees: natural_at(fields, 0),
            right: on_at(fields, 1),
            rudder: signed_at(fields, 2),
        },
    }
}
