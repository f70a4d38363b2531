// One listener state in one place, changed there: the thin form of the listener for the logger.
#![tactic(auto)]

ghost use Rattle.std.specs.Prelude.{◌≡◌};
ghost use Rattle.listener.specs.Step.{hear_of};

use listener::{Heard, Listener, hear};

// Hears one symbol with the state that stands in the place, and leaves the next state there. The outcome is that of the call by value.
pub fn hear_in_place(l: &mut Listener, symbol: u16) -> Heard
    ensures { (result ≡ hear_of l.old symbol) × (l.new ≡ (hear_of l.old symbol).listener) }
{
    let heard = hear(*l, symbol);
    *l = heard.listener;
    heard
}

// The same with plain parameters: the state is put in a place, and the outcome has the state that is left there. No crate calls it; it
// stands beside the other as a public call with a statement and edits of its own.
pub fn hear_by_value(l: Listener, symbol: u16) -> Heard
    ensures { result ≡ hear_of l symbol }
{
    let mut place = l;
    let heard = hear_in_place(&mut place, symbol);
    Heard {
        listener: place,
        ..heard
    }
}
