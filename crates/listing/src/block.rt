// A block of a recording, listed record by record.
ghost use Rattle.std.specs.Prelude.{◌≡◌, ◌+◌, ◌≤◌, ◌<◌, true, length};
ghost use Rattle.datagram.specs.Whole.{whole};
ghost use Rattle.listing.specs.Text.{Put};
ghost use Rattle.framing.specs.Walk.{walk_from, records_in};
ghost use Rattle.framing.specs.Steps.{entry};
ghost use Rattle.listing.specs.Line.{line_of};
ghost use Rattle.listing.specs.Walk.{Block};

use crate::stamp::Stamp;
use crate::{Listed, put_line};
use datagram::Refusal;
use framing::{Gathered, gather, hear_record};
use progress::{Progress, tally};

// Lists the whole records of a block, as long as the output has room for a line, and says how far it came.
#[tactic(auto, using(crate::proofs::Walks::started, listener::proofs::Sound::empty_is))]
pub fn list_block(progress: Progress, input: &[u8], out: &mut [u8]) -> Listed
    ensures { Block (walk_from line_of (records_in input.now) input.now 0 progress (length out.old)) out.old out.new result }
{
    let mut bytes = [0u8; 18];
    let mut stamp = Stamp::new();
    let mut p = progress;
    // Kept from step to step, since `is_empty` goes over the listener's bytes.
    let mut empty = listener::is_empty(p.listener);
    let mut left = input.len() / 8;
    let mut at = 0;
    let mut written = 0;
    // A while: a step takes one of the records that are left, or several.
    while 0 < left && 512 <= out.len() - written {
        // The records used, how many bytes were handed out, and their time: 0 bytes, and no `None`, where none were, since the
        // clause's `entry` goes by that. Records taken at once leave the listener as it is, which is then not copied.
        let (used, count, time) = match gather(empty, input, at, &mut bytes) {
            Some(Gathered::Datagram { count, time }) => {
                p = tally(p, true, false, false);
                (count, count, time)
            }
            Some(Gathered::Cancelled { used }) => {
                p = tally(p, false, true, false);
                (used, 0, 0)
            }
            Some(Gathered::Stray) => {
                p = tally(p, false, false, true);
                (1, 0, 0)
            }
            None => match hear_record(p, input, at) {
                Ok(Some(t)) => {
                    p = t.progress;
                    bytes = t.bytes;
                    empty = 0 < t.count;
                    (1, t.count, t.time)
                }
                Ok(None) => return listed(p, at, written, None),
                Err(r) => return listed(p, at, written, Some(r)),
            },
        };
        written = put_entry(out, written, &mut stamp, time, &bytes[..count]);
        at += 8 * used;
        left -= used;
    }
    listed(p, at, written, None)
}

// A function, since the literal takes six lines at each of its calls.
fn listed(progress: Progress, used: usize, written: usize, stop: Option<Refusal>) -> Listed
    ensures { result ≡ (record { progress = progress; used = used; written = written; stop = stop }) }
{
    Listed {
        progress,
        used,
        written,
        stop,
    }
}

// Puts the line of the bytes that were handed out, if any were.
fn put_entry(out: &mut [u8], at: usize, stamp: &mut Stamp, time: u32, bytes: &[u8]) -> usize
    requires { (at + 512 ≤ length out.old) × (0 < length bytes.now → whole bytes.now ≡ true) }
    ensures { Put out.old at (entry line_of time bytes.now) out.new result }
{
    if bytes.is_empty() {
        return at;
    }
    put_line(out, at, stamp, time, bytes)
}
