// The recording reader: records of eight bytes, a mark, a time and a symbol.
#![tactic(auto)]

ghost use Rattle.std.specs.Prelude.{◌≡◌, get_or};
ghost use Rattle.recording.specs.Record.{record_of, judged_record};

use datagram::Refusal;
use datagram::refusals::{cut_short, no_mark, symbol_above_at};

// The two bytes that each record begins with.
pub const MARK: [u8; 2] = [0x53, 0x54];

// One record: a symbol, and the time at which it was heard.
#[derive(Clone, Copy)]
pub struct Record {
    pub time: u32,
    pub symbol: u16,
}

// The record at an offset, none at the end, or refusal 11, 10 or 1, in that order, with the offset as the place.
#[tactic(auto, using(crate::proofs::CutShort::cut))]
pub fn record_at(bytes: &[u8], at: usize) -> Result<Option<Record>, Refusal>
    ensures { result ≡ record_of bytes.now at }
{
    match bytes.get(at..) {
        None => Err(cut_short(at)),
        Some([]) => Ok(None),
        Some(&[mark, second, a, b, c, d, low, high, ..]) => judged(
            at,
            [mark, second],
            u32::from_le_bytes([a, b, c, d]),
            u16::from_le_bytes([low, high]),
        ),
        Some(_) => Err(cut_short(at)),
    }
}

// The record of a mark, a time and a symbol.
fn judged(at: usize, mark: [u8; 2], time: u32, symbol: u16) -> Result<Option<Record>, Refusal>
    ensures { result ≡ judged_record at (get_or mark 0 0) (get_or mark 1 0) time symbol }
{
    if mark != MARK {
        return Err(no_mark(at));
    }
    if 511 < symbol {
        return Err(symbol_above_at(at));
    }
    Ok(Some(Record { time, symbol }))
}
