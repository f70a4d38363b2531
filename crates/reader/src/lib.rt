// The reader: from the bytes of a datagram to a typed message.
#![tactic(auto)]

mod kinds;

ghost use Rattle.std.specs.Prelude.{◌≡◌};
ghost use Rattle.message.specs.Reading.{read_of, read_sized};
ghost use Rattle.message.specs.Table.{row_of};
ghost use Rattle.reader.specs.OfKind.{read_of_kind};

use datagram::Refusal;
use datagram::refusals::{NOT_WHOLE, UNKNOWN_COMMAND, WRONG_LENGTH};
use message::{Kind, Message};

// Reads any bytes: the message, or refusal 3, 4, 5, 6 or 7, in that order.
#[tactic(auto, using(datagram::proofs::Whole::declares, message::proofs::Found::found_row), unfolding(message::specs::Reading::read_of))]
pub fn read(bytes: &[u8]) -> Result<Message, Refusal>
    ensures { result ≡ read_of bytes.now }
{
    if !datagram::is_whole(bytes) {
        return Err(NOT_WHOLE);
    }
    let row = message::find(bytes[0]).ok_or(UNKNOWN_COMMAND)?;
    read_kind(row.kind, bytes)
}

// Reads any bytes as a datagram of this kind: the message, or refusal 3, 4, 5, 6 or 7, in that order; 4 where the command is
// not this kind's. A caller that goes by the kind has the compiler read that kind alone.
#[tactic(auto, using(datagram::proofs::Whole::declares), unfolding(crate::specs::OfKind::read_of_kind))]
pub fn read_of(kind: Kind, bytes: &[u8]) -> Result<Message, Refusal>
    ensures { result ≡ read_of_kind kind bytes.now }
{
    if !datagram::is_whole(bytes) {
        return Err(NOT_WHOLE);
    }
    let row = message::row_of(kind);
    if bytes[0] != row.command {
        return Err(UNKNOWN_COMMAND);
    }
    read_kind(kind, bytes)
}

// Reads the bytes of a datagram of this kind: the message, or refusal 5, 6 or 7. Each pattern has as many bytes as its kind's row in
// the table, which the contract holds it to.
#[tactic(auto, unfolding(message::specs::Reading::read_kind))]
fn read_kind(kind: Kind, bytes: &[u8]) -> Result<Message, Refusal>
    ensures { result ≡ read_sized kind (row_of kind).length bytes.now }
{
    match (kind, bytes) {
        (Kind::Depth, &[_, _, yz, low, high]) => kinds::depth(yz, low, high),
        (Kind::WindAngle, &[_, _, xx, yy]) => kinds::wind_angle(xx, yy),
        (Kind::WindSpeed, &[_, _, xx, y]) => kinds::wind_speed(xx, y),
        (Kind::Speed, &[_, _, low, high]) => kinds::speed(low, high),
        (Kind::Trip, &[_, _, low, high, x]) => kinds::trip(low, high, x),
        (Kind::Total, &[_, _, low, high, _]) => kinds::total(low, high),
        (Kind::Logs, &[_, z4, xx, yy, uu, vv, aw]) => kinds::logs(z4, xx, yy, uu, vv, aw),
        (Kind::Speeds, &[_, _, xl, xh, yl, yh, de]) => kinds::speeds(xl, xh, yl, yh, de),
        (Kind::Water, &[_, _, low, high]) => kinds::water(low, high),
        (Kind::Lamp, &[_, _, x]) => kinds::lamp(x),
        (Kind::Latitude, &[_, _, xx, low, high]) => kinds::latitude(xx, low, high),
        (Kind::Longitude, &[_, _, xx, low, high]) => kinds::longitude(xx, low, high),
        (Kind::Ground, &[_, _, low, high]) => kinds::ground(low, high),
        (Kind::Course, &[_, u0, vw]) => kinds::course(u0, vw),
        (Kind::Time, &[_, t1, rs, hh]) => kinds::time(t1, rs, hh),
        (Kind::Date, &[_, m1, dd, yy]) => kinds::date(m1, dd, yy),
        (Kind::Pilot, &[_, u6, vw, xy, z, m, rr, ss, tt]) => kinds::pilot(
            u6, vw, xy, z, m, rr, ss, tt,
        ),
        (Kind::Key, &[_, x1, code, repeat]) => kinds::key(x1, code, repeat),
        (Kind::Heading, &[_, u2, vw, xy, z]) => kinds::heading(u2, vw, xy, z),
        (Kind::Variation, &[_, _, xx]) => kinds::variation(xx),
        (Kind::Turn, &[_, u1, vw, rr]) => kinds::turn(u1, vw, rr),
        _ => Err(WRONG_LENGTH),
    }
}
