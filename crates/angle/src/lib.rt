// Compass angles and their spelling on the bus: half degrees (53, 89), whole degrees with the turning way (9C, 84), and half
// degrees by quarters (89, 84).
#![tactic(auto)]

mod spellings;

ghost use Rattle.std.specs.Prelude.{◌≡◌, ◌%◌};
ghost use Rattle.angle.specs.Half.{half_angle, half_digits};
ghost use Rattle.angle.specs.Degree.{whole_angle, turns_right, whole_digits};
ghost use Rattle.angle.specs.Spellings.{index_of};
ghost use Rattle.angle.specs.Quarter.{quarter_angle, quarter_digits};

use spellings::spelling_at;

// The digit U and the six low bits of VW that spell an angle. Free functions make and read it: public calls, which methods would say
// twice.
#[derive(Clone, Copy)]
pub struct Digits {
    pub u: u8,
    pub six: u8,
}

// The two high bits of VW, and XY, that spell half degrees by quarters; free functions, as for `Digits`.
#[derive(Clone, Copy)]
pub struct Quarter {
    pub quarter: u8,
    pub xy: u8,
}

// The half degrees that U and six spell.
pub fn half_angle(u: u8, six: u8) -> u32
    ensures { result ≡ half_angle u six }
{
    let u = u32::from(u);
    180 * (u % 4) + 4 * u32::from(six) + u / 4 % 4
}

// The spelling of half degrees.
pub fn half_digits(halves: u32) -> Digits
    ensures { result ≡ half_digits halves }
{
    Digits {
        u: (halves / 180 % 4 + 4 * (halves % 4)) as u8,
        six: (halves % 180 / 4) as u8,
    }
}

// The whole degrees that U and six spell.
pub fn whole_angle(u: u8, six: u8) -> u32
    ensures { result ≡ whole_angle u six }
{
    let u = u32::from(u);
    (90 * (u % 4) + 2 * u32::from(six) + (u / 8 % 2 + u / 4 % 2)) % 360
}

// Whether U says that the ship turns right.
pub fn turns_right(u: u8) -> bool
    ensures { result ≡ turns_right u }
{
    u / 8 % 2 == 1
}

// The spelling of whole degrees with the turning way, from the list.
pub fn whole_digits(degrees: u32, right: bool) -> Digits
    ensures { result ≡ whole_digits degrees right }
{
    let [six, u] = spelling_at(index_of(degrees, right)).to_le_bytes();
    Digits { u, six }
}

// Where the list has a degree with its turning way.
fn index_of(degrees: u32, right: bool) -> u32
    ensures { result ≡ index_of degrees right }
{
    if right {
        in_circle(degrees) + 360
    } else {
        in_circle(degrees)
    }
}

// A number of degrees modulo 360, without a division where it is below.
fn in_circle(degrees: u32) -> u32
    ensures { result ≡ degrees % 360 }
{
    if degrees < 360 {
        degrees
    } else {
        degrees % 360
    }
}

// The half degrees that a quarter and XY spell.
pub fn quarter_angle(quarter: u8, xy: u8) -> u32
    ensures { result ≡ quarter_angle quarter xy }
{
    180 * u32::from(quarter) + u32::from(xy)
}

// The spelling of half degrees by quarters.
pub fn quarter_digits(halves: u32) -> Quarter
    ensures { result ≡ quarter_digits halves }
{
    Quarter {
        quarter: (halves / 180 % 4) as u8,
        xy: (halves % 180) as u8,
    }
}
