// A time and a symbol as the eight bytes of a record. The symbol is tested and cast as in `hear`: a function for both would want a law
// of its own, which is longer than the two lines.
ghost use Rattle.std.specs.Prelude.{◌≡◌};
ghost use Rattle.seatalk.specs.Returned.{returned, told};
ghost use Rattle.seatalk.specs.Record.{record_call};

use datagram::Refusal;
use datagram::refusals::SYMBOL_ABOVE;

#[tactic(auto, unfolding(crate::specs::Record::record_call))]
pub fn record(time: u32, symbol: u32, res: &mut [u8]) -> Result<u8, Refusal>
    ensures { returned (told result) res.new ≡ record_call time symbol res.old }
{
    if 511 < symbol {
        return Err(SYMBOL_ABOVE);
    }
    let n = recorder::write_record(time, symbol as u16, res, 0)?;
    Ok(n as u8)
}
