// Each kind's bytes, named by the letters of rules 4.3, as a message whose fields are in range. Where no test is made the
// bytes cannot spell a field out of range. Kinds whose bytes are alike have a function each, for each makes its own variant.
ghost use Rattle.std.specs.Prelude.{◌≡◌};
ghost use Rattle.message.specs.Decode.{depth_of, wind_angle_of, wind_speed_of, speed_of, trip_of, total_of, logs_of, speeds_of, water_of, lamp_of, latitude_of, longitude_of, ground_of, course_of, time_of, date_of, pilot_of, key_of, heading_of, variation_of, turn_of};
ghost use Rattle.message.specs.Range.{at_most, and_then};
ghost use Rattle.message.specs.Reading.{judged};

use angle::{half_angle, quarter_angle, turns_right, whole_angle};
use datagram::Refusal;
use datagram::refusals::{BAD_REPEAT, out_of_range};
use message::Message;
use message::range::{at_most, from_one};
use number::{difference, negated_byte, signed_byte, word_of};

#[tactic(auto, unfolding(message::specs::Range::range_of))]
pub fn depth(yz: u8, low: u8, high: u8) -> Result<Message, Refusal>
    ensures { result ≡ judged (depth_of yz low high) }
{
    Ok(Message::Depth {
        tenths: word_of(low, high),
        anchor: yz / 128 % 2 == 1,
        metric: yz / 64 % 2 == 1,
        defective: yz / 4 % 2 == 1,
        deep: yz / 2 % 2 == 1,
        shallow: yz % 2 == 1,
    })
}

#[tactic(auto, unfolding(message::specs::Range::range_of))]
pub fn wind_angle(xx: u8, yy: u8) -> Result<Message, Refusal>
    ensures { result ≡ judged (wind_angle_of xx yy) }
{
    let halves = word_of(yy, xx);
    at_most(1, 719, halves)?;
    Ok(Message::WindAngle { halves })
}

#[tactic(auto, unfolding(message::specs::Range::range_of))]
pub fn wind_speed(xx: u8, y: u8) -> Result<Message, Refusal>
    ensures { result ≡ judged (wind_speed_of xx y) }
{
    let digit = u32::from(y) % 16;
    at_most(1, 9, digit)?;
    Ok(Message::WindSpeed {
        tenths: 10 * (u32::from(xx) % 128) + digit,
        metres: xx / 128 % 2 == 1,
    })
}

#[tactic(auto, unfolding(message::specs::Range::range_of))]
pub fn speed(low: u8, high: u8) -> Result<Message, Refusal>
    ensures { result ≡ judged (speed_of low high) }
{
    Ok(Message::Speed {
        tenths: word_of(low, high),
    })
}

#[tactic(auto, unfolding(message::specs::Range::range_of))]
pub fn trip(low: u8, high: u8, x: u8) -> Result<Message, Refusal>
    ensures { result ≡ judged (trip_of low high x) }
{
    Ok(Message::Trip {
        hundredths: word_of(low, high) + 65536 * (u32::from(x) % 16),
    })
}

#[tactic(auto, unfolding(message::specs::Range::range_of))]
pub fn total(low: u8, high: u8) -> Result<Message, Refusal>
    ensures { result ≡ judged (total_of low high) }
{
    Ok(Message::Total {
        tenths: word_of(low, high),
    })
}

#[tactic(auto, unfolding(message::specs::Range::range_of))]
pub fn logs(z4: u8, xx: u8, yy: u8, uu: u8, vv: u8, aw: u8) -> Result<Message, Refusal>
    ensures { result ≡ judged (logs_of z4 xx yy uu vv aw) }
{
    Ok(Message::Logs {
        total: word_of(xx, yy) + 65536 * (u32::from(z4) / 16),
        trip: word_of(uu, vv) + 65536 * (u32::from(aw) % 16),
    })
}

#[tactic(auto, unfolding(message::specs::Range::range_of))]
pub fn speeds(xl: u8, xh: u8, yl: u8, yh: u8, de: u8) -> Result<Message, Refusal>
    ensures { result ≡ judged (speeds_of xl xh yl yh de) }
{
    Ok(Message::Speeds {
        speed: word_of(xl, xh),
        average: word_of(yl, yh),
        valid: de / 64 % 2 == 1,
        stopped: de % 2 == 1,
        mph: de / 2 % 2 == 1,
    })
}

#[tactic(auto, unfolding(message::specs::Range::range_of))]
pub fn water(low: u8, high: u8) -> Result<Message, Refusal>
    ensures { result ≡ judged (water_of low high) }
{
    Ok(Message::Water {
        tenths: difference(u16::from_le_bytes([low, high]), 100),
    })
}

// The two bits below the level are 0: no range of a field, so the test stands here.
#[tactic(auto, unfolding(message::specs::Range::range_of))]
pub fn lamp(x: u8) -> Result<Message, Refusal>
    ensures { result ≡ judged (lamp_of x) }
{
    if x % 4 == 0 {
        Ok(Message::Lamp {
            level: u32::from(x) % 16 / 4,
        })
    } else {
        Err(out_of_range(1))
    }
}

#[tactic(auto, unfolding(message::specs::Range::range_of))]
pub fn latitude(xx: u8, low: u8, high: u8) -> Result<Message, Refusal>
    ensures { result ≡ judged (latitude_of xx low high) }
{
    let degrees = u32::from(xx);
    let hundredths = word_of(low, high % 128);
    coordinate_spelled(90, degrees, hundredths)?;
    Ok(Message::Latitude {
        degrees,
        hundredths,
        south: high / 128 % 2 == 1,
    })
}

#[tactic(auto, unfolding(message::specs::Range::range_of))]
pub fn longitude(xx: u8, low: u8, high: u8) -> Result<Message, Refusal>
    ensures { result ≡ judged (longitude_of xx low high) }
{
    let degrees = u32::from(xx);
    let hundredths = word_of(low, high % 128);
    coordinate_spelled(180, degrees, hundredths)?;
    Ok(Message::Longitude {
        degrees,
        hundredths,
        east: high / 128 % 2 == 1,
    })
}

// Whether degrees, field 1, are at most the limit, and hundredths of a minute, field 2, make no degree.
fn coordinate_spelled(limit: u32, degrees: u32, hundredths: u32) -> Result<(), Refusal>
    ensures { result ≡ and_then (at_most 1 limit degrees) (at_most 2 5999 hundredths) }
{
    at_most(1, limit, degrees)?;
    at_most(2, 5999, hundredths)
}

#[tactic(auto, unfolding(message::specs::Range::range_of))]
pub fn ground(low: u8, high: u8) -> Result<Message, Refusal>
    ensures { result ≡ judged (ground_of low high) }
{
    Ok(Message::Ground {
        tenths: word_of(low, high),
    })
}

#[tactic(auto, unfolding(message::specs::Range::range_of))]
pub fn course(u0: u8, vw: u8) -> Result<Message, Refusal>
    ensures { result ≡ judged (course_of u0 vw) }
{
    at_most(1, 44, u32::from(vw % 64))?;
    Ok(Message::Course {
        halves: half_angle(u0 / 16, vw % 64),
    })
}

#[tactic(auto, unfolding(message::specs::Range::range_of))]
pub fn time(t1: u8, rs: u8, hh: u8) -> Result<Message, Refusal>
    ensures { result ≡ judged (time_of t1 rs hh) }
{
    let hours = u32::from(hh);
    let minutes = u32::from(rs) / 4;
    let seconds = u32::from(rs) % 4 * 16 + u32::from(t1) / 16;
    at_most(1, 23, hours)?;
    at_most(2, 59, minutes)?;
    at_most(3, 59, seconds)?;
    Ok(Message::Time {
        hours,
        minutes,
        seconds,
    })
}

#[tactic(auto, unfolding(message::specs::Range::range_of))]
pub fn date(m1: u8, dd: u8, yy: u8) -> Result<Message, Refusal>
    ensures { result ≡ judged (date_of m1 dd yy) }
{
    let month = u32::from(m1) / 16;
    let day = u32::from(dd);
    let year = u32::from(yy);
    from_one(1, 12, month)?;
    from_one(2, 31, day)?;
    at_most(3, 99, year)?;
    Ok(Message::Date { month, day, year })
}

#[tactic(auto, unfolding(message::specs::Range::range_of))]
pub fn pilot(
    u6: u8,
    vw: u8,
    xy: u8,
    z: u8,
    m: u8,
    rr: u8,
    ss: u8,
    tt: u8,
) -> Result<Message, Refusal>
    ensures { result ≡ judged (pilot_of u6 vw xy z m rr ss tt) }
{
    angles_spelled(3, vw % 64, xy)?;
    Ok(Message::Pilot {
        degrees: whole_angle(u6 / 16, vw % 64),
        right: turns_right(u6 / 16),
        course: quarter_angle(vw / 64, xy),
        auto: z / 2 % 2 == 1,
        vane: z / 4 % 2 == 1,
        track: z / 8 % 2 == 1,
        off_course: m / 4 % 2 == 1,
        wind_shift: m / 8 % 2 == 1,
        rudder: signed_byte(rr),
        ss: u32::from(ss),
        tt: u32::from(tt),
    })
}

// Whether six bits spell an angle, field 1, and XY half degrees within a quarter, the field of this number.
fn angles_spelled(field: u8, six: u8, xy: u8) -> Result<(), Refusal>
    ensures { result ≡ and_then (at_most 1 44 six) (at_most field 179 xy) }
{
    at_most(1, 44, u32::from(six))?;
    at_most(field, 179, u32::from(xy))
}

#[tactic(auto, unfolding(message::specs::Range::range_of))]
pub fn key(x1: u8, code: u8, repeat: u8) -> Result<Message, Refusal>
    ensures { result ≡ judged (key_of x1 code repeat) }
{
    if u32::from(code) + u32::from(repeat) == 255 {
        Ok(Message::Key {
            source: u32::from(x1) / 16,
            code: u32::from(code),
        })
    } else {
        Err(BAD_REPEAT)
    }
}

#[tactic(auto, unfolding(message::specs::Range::range_of))]
pub fn heading(u2: u8, vw: u8, xy: u8, z: u8) -> Result<Message, Refusal>
    ensures { result ≡ judged (heading_of u2 vw xy z) }
{
    angles_spelled(2, vw % 64, xy)?;
    Ok(Message::Heading {
        halves: half_angle(u2 / 16, vw % 64),
        reference: quarter_angle(vw / 64, xy),
        locked: z / 2 % 2 == 1,
    })
}

#[tactic(auto, unfolding(message::specs::Range::range_of))]
pub fn variation(xx: u8) -> Result<Message, Refusal>
    ensures { result ≡ judged (variation_of xx) }
{
    Ok(Message::Variation {
        east: negated_byte(xx),
    })
}

#[tactic(auto, unfolding(message::specs::Range::range_of))]
pub fn turn(u1: u8, vw: u8, rr: u8) -> Result<Message, Refusal>
    ensures { result ≡ judged (turn_of u1 vw rr) }
{
    let u = u1 / 16;
    at_most(1, 44, u32::from(vw % 64))?;
    Ok(Message::Turn {
        degrees: whole_angle(u, vw % 64),
        right: turns_right(u),
        rudder: signed_byte(rr),
    })
}
