// The recording writer's two calls for programs in C, which the tests and the benchmark use; firmware has seatalk_record.
#![tactic(auto)]

ghost use Rattle.std.specs.Prelude.{◌≡◌};
ghost use Rattle.recorder.specs.Recording.{record_written, run_written};
ghost use Rattle.recorder_calls.specs.Code.{code_of, shown};

use datagram::Refusal;

#[unsafe(no_mangle)]
pub extern "C" fn recorder_record(time: u32, symbol: u16, buf: &mut [u8], at: usize) -> u64
    ensures { (result, buf.new) ≡ shown (record_written time symbol buf.old at) }
{
    code_of(recorder::write_record(time, symbol, buf, at))
}

#[unsafe(no_mangle)]
pub extern "C" fn recorder_records(times: &[u32], symbols: &[u16], buf: &mut [u8], at: usize) -> u64
    ensures { (result, buf.new) ≡ shown (run_written times.now symbols.now buf.old at) }
{
    code_of(recorder::write_records(times, symbols, buf, at))
}

// The number of bytes stored, or 2^64 - 1 minus the refusal's number and 256 times its place, of which 24 bits are kept.
#[tactic(auto, unfolding(crate::specs::Code::code_of))]
fn code_of(w: Result<usize, Refusal>) -> u64
    ensures { result ≡ code_of w }
{
    match w {
        Ok(n) => n as u64,
        Err(r) => u64::MAX - (u64::from(r.number) + 256 * (r.place % 16777216)),
    }
}
