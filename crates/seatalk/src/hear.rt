// One symbol heard, with the listener's state in lent bytes.
ghost use Rattle.std.specs.Prelude.{◌≡◌, ◌++◌, ◌≤◌, length, drop};
ghost use Rattle.listener.specs.Step.{hear_of};
ghost use Rattle.seatalk.specs.Returned.{told};
ghost use Rattle.seatalk.specs.Hear.{returned, state_of, Longer, listener_of, number_of, result_of, answered, hear_call};

use datagram::Refusal;
use datagram::refusals::{NO_ROOM, NOT_SOUND, SYMBOL_ABOVE};
use listener::{Answer, Heard, Listener};

// A state's bytes: the number held, then 17 bytes.
type State = [u8; 18];

// An answer by its number (rules 11.2), or the refusal.
fn number_of(answer: Answer) -> Result<u8, Refusal>
    ensures { result ≡ number_of answer }
{
    match answer {
        Answer::Opened => Ok(0),
        Answer::Cancelled => Ok(1),
        Answer::Stray => Ok(2),
        Answer::Kept => Ok(3),
        Answer::HandedOut => Ok(4),
        Answer::Refused(r) => Err(r),
    }
}

// The listener that a state is.
fn listener_of(state: &State) -> Listener
    ensures { result ≡ listener_of state.now }
{
    let mut bytes = [0u8; 17];
    bytes.copy_from_slice(&state[1..]);
    Listener {
        bytes,
        held: state[0],
    }
}

// A listener as a state.
fn state_of(l: Listener) -> State
    ensures { result ≡ state_of l }
{
    let mut state = [0u8; 18];
    state[0] = l.held;
    state[1..].copy_from_slice(&l.bytes);
    state
}

// A result's bytes: the answer's number, how many bytes are handed out, and these.
fn result_of(number: u8, h: Heard) -> [u8; 20]
    ensures { result ≡ result_of number h }
{
    let mut res = [0u8; 20];
    res[0] = number;
    res[1] = h.count;
    res[2..].copy_from_slice(&h.bytes);
    res
}

// Stores the next state. A byte that is kept changes two bytes of it alone.
fn put_next(answer: Answer, byte: u8, l: Listener, state: &mut State)
    requires { answer ≡ Answer.Kept → Longer byte l state.old }
    ensures { state.new ≡ state_of l }
{
    if let Answer::Kept = answer {
        state[usize::from(l.held)] = byte;
        state[0] = l.held;
    } else {
        *state = state_of(l);
    }
}

// Stores the next state and the result, where the listener refused nothing and there is room.
fn answer(h: Heard, symbol: u16, state: &mut State, res: &mut [u8]) -> Result<u8, Refusal>
    requires { h ≡ hear_of (listener_of state.old) symbol }
    ensures { returned (told result) state.new res.new ≡ answered (number_of h.answer) h state.old res.old }
{
    let number = number_of(h.answer)?;
    let Some(front) = res.first_chunk_mut() else {
        return Err(NO_ROOM);
    };
    let [byte, _] = symbol.to_le_bytes();
    put_next(h.answer, byte, h.listener, state);
    *front = result_of(number, h);
    Ok(20)
}

#[tactic(auto, unfolding(crate::specs::Hear::hear_call))]
pub fn hear(state: &mut [u8], symbol: u32, res: &mut [u8]) -> Result<u8, Refusal>
    ensures { returned (told result) state.new res.new ≡ hear_call state.old symbol res.old }
{
    if 511 < symbol {
        return Err(SYMBOL_ABOVE);
    }
    let Some(state) = state.as_mut_array() else {
        return Err(NOT_SOUND);
    };
    let h = listener::hear(listener_of(state), symbol as u16);
    answer(h, symbol as u16, state, res)
}
