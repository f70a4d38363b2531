// The records ahead of a listener: heard one by one, or several at once where a look at them tells what it would answer.
#![tactic(auto)]

ghost use Rattle.std.specs.Prelude.{◌≡◌, true, false, ◌+◌, ◌*◌, ◌≤◌, length, IfSome};
ghost use Rattle.number.specs.Word.{num};
ghost use Rattle.recording.specs.Record.{record_of, heard, time_at, byte_of};
ghost use Rattle.framing.specs.Steps.{RecordStep, GatherStep};

use datagram::Refusal;
use number::long_of;
use progress::{Progress, advance};
use recording::{MARK, record_at};

// What the records ahead give to a listener that holds nothing.
#[derive(Clone, Copy)]
pub enum Gathered {
    // A datagram is handed out: of so many bytes, one from each record, and with the time of the last.
    Datagram { count: usize, time: u32 },
    // A command symbol behind so many records cancels the datagram that they begin.
    Cancelled { used: usize },
    // One record, whose symbol belongs to no datagram.
    Stray,
}

// What one record gave: the progress after it, its time, and the bytes that it handed out. An array and its count, 0 for
// none, as `listener::Heard` has them: there is no heap, and `RecordGoes` names both.
#[derive(Clone, Copy)]
pub struct HeardRecord {
    pub progress: Progress,
    pub time: u32,
    pub count: usize,
    pub bytes: [u8; 18],
}

// Hears the record at an offset, if one stands there.
#[tactic(auto, using(crate::proofs::Walks::walk_end, crate::proofs::Walks::walk_refused))]
pub fn hear_record(p: Progress, input: &[u8], at: usize) -> Result<Option<HeardRecord>, Refusal>
    ensures { RecordStep input.now at p result }
{
    let Some(r) = record_at(input, at)? else {
        return Ok(None);
    };
    let h = listener::hear(p.listener, r.symbol);
    // A copy first: an array's field that is made part of a literal gets no proof.
    let bytes = h.bytes;
    Ok(Some(HeardRecord {
        progress: advance(p, h),
        time: r.time,
        count: usize::from(h.count),
        bytes,
    }))
}

// The time of a record whose mark is tested already: `record_at` would test it again. It takes the whole input and an offset,
// and so does `carries`: the definitions go by them and not by the record's eight bytes.
fn time_at(input: &[u8], at: usize) -> u32
    requires { at + 8 ≤ length input.now }
    ensures { result ≡ time_at input.now at }
{
    long_of(input[at + 2], input[at + 3], input[at + 4], input[at + 5])
}

// Whether the record at an offset has the mark and carries a byte, with the command bit or without.
fn carries(input: &[u8], at: usize, command: bool) -> bool
    requires { at + 8 ≤ length input.now }
    ensures { result ≡ true → record_of input.now at ≡ heard (time_at input.now at) (256 * num command + byte_of input.now at 6) }
{
    [input[at], input[at + 1]] == MARK && input[at + 7] == u8::from(command)
}

// What the records from an offset on give: the bytes of a datagram that lies whole in them, which are stored, a datagram
// that a command symbol cancels, or a stray symbol; none where they have to be heard one by one, or the listener is not empty.
// `empty`, whether the listener holds nothing, is a flag and no `requires`, and the bytes lent are a slice of any length: it
// is a public call, which asks nothing of its caller.
#[tactic(auto, using(crate::proofs::Gathering::gathered_one, crate::proofs::Steps::gathered_stray, crate::proofs::Steps::gathered_cancelled))]
pub fn gather(empty: bool, input: &[u8], at: usize, bytes: &mut [u8]) -> Option<Gathered>
    ensures { IfSome result (λ g. (empty ≡ true) × GatherStep input.now at bytes.new g) }
{
    if !empty || bytes.len() != 18 || input.len() < at {
        return None;
    }
    let left = (input.len() - at) / 8;
    if left < 3 {
        return None;
    }
    let n = 3 + usize::from(input[at + 14]) % 16;
    if left < n {
        return None;
    }
    if !carries(input, at, true) {
        return carries(input, at, false).then_some(Gathered::Stray);
    }
    bytes[0] = input[at + 6];
    for i in 1..n {
        let q = at + 8 * i;
        if !carries(input, q, false) {
            return carries(input, q, true).then_some(Gathered::Cancelled { used: i });
        }
        bytes[i] = input[q + 6];
    }
    let time = time_at(input, at + 8 * (n - 1));
    Some(Gathered::Datagram { count: n, time })
}
