// A recording that comes in pieces of any size: the bytes in a buffer are listed, and what is left of them moves to its front.
#![tactic(auto)]

ghost use Rattle.std.specs.Prelude.{◌≡◌, ◌≤◌, length, take, drop};
ghost use Rattle.std.proofs.lemmas.List.Edits.{sets};
ghost use Rattle.recording.specs.Record.{record_of};
ghost use Rattle.progress.specs.Progress.{cut_off, placed_from};
ghost use Rattle.listing.specs.Text.{Stored, stored_text};
ghost use Rattle.listing.specs.Walk.{end_text};
ghost use Rattle.stream.specs.Pass.{Filled, pass_of};

use datagram::Refusal;
use listing::block::list_block;
use progress::{Progress, end_of, placed_from};

// What a pass gives: the progress, the offset of the buffer's first byte in the whole recording, how many bytes at its front
// are not listed yet, how many bytes of text were put, and whether a record was refused.
#[derive(Clone, Copy)]
pub struct Pass {
    pub progress: Progress,
    pub base: u64,
    pub held: usize,
    pub written: usize,
    pub stop: Option<Refusal>,
}

// Lists the whole records of the first `filled` bytes, as long as the output has room for a line, and moves the bytes behind
// those listed to the front of the buffer. The progress, the base and the number filled are no struct: it is public with these arguments,
// and `pass_of`, by which the laws of `listing_laws` speak of it, takes the progress and the base one by one.
pub fn list_held(
    progress: Progress,
    base: u64,
    filled: usize,
    input: &mut [u8],
    out: &mut [u8],
) -> Pass
    ensures { Filled (pass_of progress base (take filled input.old) (length out.old)) input.old input.new out.old out.new result }
{
    let n = filled.min(input.len());
    list_first(progress, base, n, input, out)
}

// The same for n bytes that the buffer has.
fn list_first(progress: Progress, base: u64, n: usize, input: &mut [u8], out: &mut [u8]) -> Pass
    requires { n ≤ length input.old }
    ensures { Filled (pass_of progress base (take n input.old) (length out.old)) input.old input.new out.old out.new result }
{
    let r = list_block(progress, &input[..n], out);
    input.copy_within(r.used..n, 0);
    Pass {
        progress: r.progress,
        base: base.wrapping_add(r.used as u64),
        held: n - r.used,
        written: r.written,
        stop: placed_from(base, r.stop),
    }
}

// Puts the last lines where the recording ends with these bytes not listed: none, or a record cut short. It gives 0 where there is no
// room, as `put_end` does.
pub fn put_last(progress: Progress, base: u64, rest: &[u8], out: &mut [u8]) -> usize
    ensures { ◌≡◌ {A = Stored} (record { buffer = out.new; count = result }) (stored_text (end_text progress (placed_from base (cut_off (record_of rest.now 0)))) out.old) }
{
    listing::put_end(out, progress, placed_from(base, end_of(rest)))
}
