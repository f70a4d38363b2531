// What is carried from block to block of a listing: the listener and the counts; and what refuses the bytes where it ends.
#![tactic(auto)]

ghost use Rattle.std.specs.Prelude.{◌≡◌};
ghost use Rattle.recording.specs.Record.{record_of};
ghost use Rattle.progress.specs.Progress.{begun, counted, tallied, advanced, cut_off, placed_from};

use datagram::Refusal;
use listener::{Answer, Heard, Listener};

// What is carried from block to block: the listener, and how many answers of each counted sort it gave. The calls on it are free
// functions: `begin`, `advance` and `tally` are public calls, which methods would say twice.
#[derive(Clone, Copy)]
pub struct Progress {
    pub listener: Listener,
    pub handed: u64,
    pub cancelled: u64,
    pub stray: u64,
}

// The progress before the first record.
pub fn begin() -> Progress
    ensures { result ≡ begun }
{
    Progress {
        listener: listener::empty_listener(),
        handed: 0,
        cancelled: 0,
        stray: 0,
    }
}

// The progress after an answer.
pub fn advance(p: Progress, h: Heard) -> Progress
    ensures { result ≡ advanced p h }
{
    let next = Progress {
        listener: h.listener,
        ..p
    };
    match h.answer {
        Answer::Cancelled => Progress {
            cancelled: p.cancelled.wrapping_add(1),
            ..next
        },
        Answer::Stray => Progress {
            stray: p.stray.wrapping_add(1),
            ..next
        },
        Answer::HandedOut => Progress {
            handed: p.handed.wrapping_add(1),
            ..next
        },
        Answer::Opened | Answer::Kept | Answer::Refused(_) => next,
    }
}

// The same listener, with what was heard counted. Three flags, and no enum of one sort: a public call, which counts any of the three
// together.
pub fn tally(p: Progress, handed: bool, cancelled: bool, stray: bool) -> Progress
    ensures { result ≡ tallied p handed cancelled stray }
{
    Progress {
        handed: count(handed, p.handed),
        cancelled: count(cancelled, p.cancelled),
        stray: count(stray, p.stray),
        ..p
    }
}

// What refuses the bytes where no whole record is left: none, or a record cut short.
pub fn end_of(rest: &[u8]) -> Option<Refusal>
    ensures { result ≡ cut_off (record_of rest.now 0) }
{
    recording::record_at(rest, 0).err()
}

// The refusal with its place in the whole input, where the block began at `base`.
pub fn placed_from(base: u64, stop: Option<Refusal>) -> Option<Refusal>
    ensures { result ≡ placed_from base stop }
{
    stop.map(|r| Refusal {
        place: base.wrapping_add(r.place),
        ..r
    })
}

// One more on a counter of 64 bits.
fn count(on: bool, n: u64) -> u64
    ensures { result ≡ counted on n }
{
    if on { n.wrapping_add(1) } else { n }
}
