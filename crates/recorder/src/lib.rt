// The recording writer: a time and a symbol as one record in a lent buffer, and lists of them as a file.
#![tactic(auto)]

ghost use Rattle.std.specs.Prelude.{◌≡◌, ◌+◌, ◌*◌, ◌≤◌, length};
ghost use Rattle.std.proofs.lemmas.List.Edits.{sets};
ghost use Rattle.datagram.specs.Position.{outcome, stored_front};
ghost use Rattle.recording.specs.Record.{record_bytes};
ghost use Rattle.recorder.specs.Recording.{all_symbols, file_of, record_written, run_written};

use datagram::Refusal;
use datagram::refusals::{DIFFERENT_LENGTHS, NO_ROOM, SYMBOL_ABOVE};
use recording::MARK;

// Writes one record from the position `at`, or gives refusal 1 or 8, in that order. Nothing else is changed.
#[tactic(auto, unfolding(crate::specs::Recording::record_written))]
pub fn write_record(time: u32, symbol: u16, buf: &mut [u8], at: usize) -> Result<usize, Refusal>
    ensures { outcome result buf.new ≡ record_written time symbol buf.old at }
{
    if 511 < symbol {
        return Err(SYMBOL_ABOVE);
    }
    if buf.len() < at || buf.len() - at < 8 {
        return Err(NO_ROOM);
    }
    put_record(time, symbol, buf, at);
    Ok(8)
}

// Writes a record for each time and symbol from the position `at`, or gives refusal 11, 1 or 8, in that order. Two
// lists and no list of pairs: that they differ in length is a rule's refusal.
#[tactic(auto, unfolding(crate::specs::Recording::run_written))]
pub fn write_records(
    times: &[u32],
    symbols: &[u16],
    buf: &mut [u8],
    at: usize,
) -> Result<usize, Refusal>
    ensures { outcome result buf.new ≡ run_written times.now symbols.now buf.old at }
{
    if times.len() != symbols.len() {
        return Err(DIFFERENT_LENGTHS);
    }
    if !all_symbols(symbols) {
        return Err(SYMBOL_ABOVE);
    }
    if buf.len() < at {
        return Err(NO_ROOM);
    }
    put_records(times, symbols, &mut buf[at..])
}

// Whether every number is a symbol.
fn all_symbols(symbols: &[u16]) -> bool
    ensures { result ≡ all_symbols symbols.now }
{
    symbols.iter().all(|&symbol| symbol < 512)
}

// Stores the records at the front of the lent part: all, or none where there is no room. Room is counted in records, so that
// 8 times their number is formed only where it is known to fit. At positions: after a loop over the part's chunks nothing is known of
// what the part has.
fn put_records(times: &[u32], symbols: &[u16], part: &mut [u8]) -> Result<usize, Refusal>
    requires { length times.now ≡ length symbols.now }
    ensures { outcome result part.new ≡ stored_front (8 * length times.now) (file_of times.now symbols.now) part.old }
{
    let n = times.len();
    if part.len() / 8 < n {
        return Err(NO_ROOM);
    }
    for (i, (&time, &symbol)) in times.iter().zip(symbols).enumerate() {
        put_record(time, symbol, part, 8 * i);
    }
    Ok(8 * n)
}

// Stores one record from a position on, byte by byte: a copy of the eight goes through the stack, and a run takes over twice as long.
fn put_record(time: u32, symbol: u16, lent: &mut [u8], at: usize)
    requires { at + 8 ≤ length lent.old }
    ensures { lent.new ≡ sets lent.old at (record_bytes time symbol) }
{
    let [a, b, c, d] = time.to_le_bytes();
    let [low, high] = symbol.to_le_bytes();
    lent[at] = MARK[0];
    lent[at + 1] = MARK[1];
    lent[at + 2] = a;
    lent[at + 3] = b;
    lent[at + 4] = c;
    lent[at + 5] = d;
    lent[at + 6] = low;
    lent[at + 7] = high;
}
