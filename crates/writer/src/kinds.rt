// Each kind's bytes, with the command as the first.
ghost use Rattle.std.specs.Prelude.{◌≡◌, [], ◌∷◌, ◌+◌, ◌*◌, ◌/◌, ◌%◌};
ghost use Rattle.number.specs.Word.{low_byte, high_byte, num};
ghost use Rattle.message.specs.Spelling.{depth_bytes, wind_angle_bytes, wind_speed_bytes, trip_bytes, total_bytes, logs_bytes, speeds_bytes, water_bytes, lamp_bytes, course_bytes, time_bytes, date_bytes, pilot_bytes, key_bytes, heading_bytes, variation_bytes, turn_bytes};

use angle::{half_digits, quarter_digits, whole_digits};
use number::{bits_of, flag};

pub fn depth(
    tenths: u32,
    anchor: bool,
    metric: bool,
    defective: bool,
    deep: bool,
    shallow: bool,
) -> [u8; 5]
    ensures { result ≡ depth_bytes tenths anchor metric defective deep shallow }
{
    let yz = 128 * flag(anchor)
        + 64 * flag(metric)
        + 4 * flag(defective)
        + 2 * flag(deep)
        + flag(shallow);
    let [low, high, ..] = tenths.to_le_bytes();
    [0x00, 0x02, yz, low, high]
}

pub fn wind_angle(halves: u32) -> [u8; 4]
    ensures { result ≡ wind_angle_bytes halves }
{
    let [low, high, ..] = halves.to_le_bytes();
    [0x10, 0x01, high, low]
}

pub fn wind_speed(tenths: u32, metres: bool) -> [u8; 4]
    ensures { result ≡ wind_speed_bytes tenths metres }
{
    let xx = (tenths / 10 % 128) as u8 + 128 * flag(metres);
    [0x11, 0x01, xx, (tenths % 10) as u8]
}

// A word, of any command.
pub fn word(command: u8, n: u32) -> [u8; 4]
    ensures { result ≡ command ∷ 0x01 ∷ low_byte n ∷ high_byte n ∷ [] }
{
    let [low, high, ..] = n.to_le_bytes();
    [command, 0x01, low, high]
}

pub fn trip(hundredths: u32) -> [u8; 5]
    ensures { result ≡ trip_bytes hundredths }
{
    let [low, high, top, _] = hundredths.to_le_bytes();
    [0x21, 0x02, low, high, top % 16]
}

pub fn total(tenths: u32) -> [u8; 5]
    ensures { result ≡ total_bytes tenths }
{
    let [low, high, ..] = tenths.to_le_bytes();
    [0x22, 0x02, low, high, 0]
}

pub fn logs(total: u32, trip: u32) -> [u8; 7]
    ensures { result ≡ logs_bytes total trip }
{
    let [xx, yy, z, _] = total.to_le_bytes();
    let [uu, vv, w, _] = trip.to_le_bytes();
    [0x25, 16 * (z % 16) + 4, xx, yy, uu, vv, w % 16]
}

pub fn speeds(speed: u32, average: u32, valid: bool, stopped: bool, mph: bool) -> [u8; 7]
    ensures { result ≡ speeds_bytes speed average valid stopped mph }
{
    let de = 64 * flag(valid) + flag(stopped) + 2 * flag(mph);
    let [xl, xh, ..] = speed.to_le_bytes();
    let [yl, yh, ..] = average.to_le_bytes();
    [0x26, 0x04, xl, xh, yl, yh, de]
}

pub fn water(tenths: i32) -> [u8; 4]
    ensures { result ≡ water_bytes tenths }
{
    let [low, high, ..] = (u64::from(bits_of(tenths)) + 100).to_le_bytes();
    [0x27, 0x01, low, high]
}

pub fn lamp(level: u32) -> [u8; 3]
    ensures { result ≡ lamp_bytes level }
{
    [0x30, 0x00, 4 * ((level % 4) as u8)]
}

// The degrees, and the hundredths of a minute with the side above them, of any command.
pub fn coordinate(command: u8, degrees: u32, hundredths: u32, side: bool) -> [u8; 5]
    ensures { result ≡ command ∷ 0x02 ∷ (degrees % 256) ∷ low_byte hundredths ∷ (hundredths / 256 % 128 + 128 * num side) ∷ [] }
{
    let [xx, ..] = degrees.to_le_bytes();
    let [low, high, ..] = hundredths.to_le_bytes();
    [command, 0x02, xx, low, high % 128 + 128 * flag(side)]
}

pub fn course(halves: u32) -> [u8; 3]
    ensures { result ≡ course_bytes halves }
{
    let d = half_digits(halves);
    [0x53, 16 * d.u, d.six]
}

pub fn time(hours: u32, minutes: u32, seconds: u32) -> [u8; 4]
    ensures { result ≡ time_bytes hours minutes seconds }
{
    let t1 = 16 * ((seconds % 16) as u8) + 1;
    let rs = 4 * ((minutes % 64) as u8) + (seconds / 16 % 4) as u8;
    let [hh, ..] = hours.to_le_bytes();
    [0x54, t1, rs, hh]
}

pub fn date(month: u32, day: u32, year: u32) -> [u8; 4]
    ensures { result ≡ date_bytes month day year }
{
    let m1 = 16 * ((month % 16) as u8) + 1;
    let [dd, ..] = day.to_le_bytes();
    let [yy, ..] = year.to_le_bytes();
    [0x56, m1, dd, yy]
}

// A parameter for each field of the message: a struct of them would be the variant again.
pub fn pilot(
    degrees: u32,
    right: bool,
    course: u32,
    auto: bool,
    vane: bool,
    track: bool,
    off_course: bool,
    wind_shift: bool,
    rudder: i32,
    ss: u32,
    tt: u32,
) -> [u8; 9]
    ensures { result ≡ pilot_bytes degrees right course auto vane track off_course wind_shift rudder ss tt }
{
    let a = whole_digits(degrees, right);
    let c = quarter_digits(course);
    let z = 2 * flag(auto) + 4 * flag(vane) + 8 * flag(track);
    let m = 4 * flag(off_course) + 8 * flag(wind_shift);
    let [rr, ..] = rudder.to_le_bytes();
    let [ss, ..] = ss.to_le_bytes();
    let [tt, ..] = tt.to_le_bytes();
    let u6 = 16 * a.u + 6;
    let vw = a.six + 64 * c.quarter;
    [0x84, u6, vw, c.xy, z, m, rr, ss, tt]
}

pub fn key(source: u32, code: u32) -> [u8; 4]
    ensures { result ≡ key_bytes source code }
{
    let [yy, ..] = code.to_le_bytes();
    [0x86, 16 * ((source % 16) as u8) + 1, yy, 255 - yy]
}

pub fn heading(halves: u32, reference: u32, locked: bool) -> [u8; 5]
    ensures { result ≡ heading_bytes halves reference locked }
{
    let d = half_digits(halves);
    let r = quarter_digits(reference);
    let vw = d.six + 64 * r.quarter;
    [0x89, 16 * d.u + 2, vw, r.xy, 0x20 + 2 * flag(locked)]
}

pub fn variation(east: i32) -> [u8; 3]
    ensures { result ≡ variation_bytes east }
{
    let [low, ..] = east.to_le_bytes();
    [0x99, 0x00, low.wrapping_neg()]
}

pub fn turn(degrees: u32, right: bool, rudder: i32) -> [u8; 4]
    ensures { result ≡ turn_bytes degrees right rudder }
{
    let d = whole_digits(degrees, right);
    let [rr, ..] = rudder.to_le_bytes();
    [0x9C, 16 * d.u + 1, d.six, rr]
}
