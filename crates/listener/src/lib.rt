// The listener: from 9-bit bus symbols to whole datagrams, one symbol a call.
#![tactic(auto)]

ghost use Rattle.std.specs.Prelude.{◌≡◌, true, [], ◌∷◌, ◌++◌, ◌≤◌, ◌<◌};
ghost use Rattle.listener.specs.State.{sound, empty, empty_listener, held_bytes};
ghost use Rattle.listener.specs.Step.{hear_of, command_symbol, other_symbol, quiet, refused_by, handed};

use datagram::Refusal;
use datagram::refusals::{NOT_SOUND, SYMBOL_ABOVE};

// What is held of the datagram that is being heard: `held` bytes, and zeros past them. An array with its count, as in `Heard`: there is
// no heap, and theorems name both. The calls on it, and what they are made of, are free functions: `empty_listener`, `is_sound`, `is_empty`
// and `hear` are public calls, which methods would say twice.
#[derive(Clone, Copy)]
pub struct Listener {
    pub bytes: [u8; 17],
    pub held: u8,
}

// The answer to one symbol. A refusal is one of them, as in the definitions, which tell each case.
#[derive(Clone, Copy)]
pub enum Answer {
    Opened,
    Cancelled,
    Stray,
    Kept,
    HandedOut,
    Refused(Refusal),
}

// One call's outcome. `bytes` holds the `count` bytes handed out, and zeros.
#[derive(Clone, Copy)]
pub struct Heard {
    pub answer: Answer,
    pub listener: Listener,
    pub bytes: [u8; 18],
    pub count: u8,
}

// The listener that holds nothing.
pub fn empty_listener() -> Listener
    ensures { result ≡ empty_listener }
{
    Listener {
        bytes: [0; 17],
        held: 0,
    }
}

// Whether the state is sound. The declared length is 3 to 18, so fewer held than declared are at most 17.
#[tactic(auto, using(crate::proofs::Sound::sound_is))]
pub fn is_sound(l: Listener) -> bool
    ensures { result ≡ sound l }
{
    l.held < 3 + l.bytes[1] % 16 && datagram::zeros_from(&l.bytes, usize::from(l.held))
}

// Whether the state is empty: sound, with nothing held.
#[tactic(auto, unfolding(crate::specs::State::empty))]
pub fn is_empty(l: Listener) -> bool
    ensures { result ≡ empty l }
{
    is_sound(l) && l.held == 0
}

// The next state and the answer to one symbol.
pub fn hear(l: Listener, symbol: u16) -> Heard
    ensures { result ≡ hear_of l symbol }
{
    if 511 < symbol {
        return refused(l, SYMBOL_ABOVE);
    }
    if !is_sound(l) {
        return refused(l, NOT_SOUND);
    }
    let [byte, _] = symbol.to_le_bytes();
    if 256 <= symbol {
        return opened(l, byte);
    }
    if l.held == 0 {
        return without_bytes(Answer::Stray, l);
    }
    extended(l, byte)
}

fn without_bytes(answer: Answer, listener: Listener) -> Heard
    ensures { result ≡ quiet answer listener }
{
    Heard {
        answer,
        listener,
        bytes: [0; 18],
        count: 0,
    }
}

// A refusal leaves the state as it was.
fn refused(l: Listener, refusal: Refusal) -> Heard
    ensures { result ≡ refused_by refusal l }
{
    without_bytes(Answer::Refused(refusal), l)
}

// A command symbol: its byte alone is held.
fn opened(l: Listener, byte: u8) -> Heard
    ensures { result ≡ command_symbol (held_bytes l) byte }
{
    let mut next = empty_listener();
    next.bytes[0] = byte;
    next.held = 1;
    if l.held == 0 {
        without_bytes(Answer::Opened, next)
    } else {
        without_bytes(Answer::Cancelled, next)
    }
}

// A symbol without the command bit, with something held. The declared length is at least 3, so with one held it is not reached.
fn extended(l: Listener, byte: u8) -> Heard
    requires { (sound l ≡ true) × (0 < l.held) }
    ensures { result ≡ other_symbol (held_bytes l) byte }
{
    if l.held + 1 == 3 + l.bytes[1] % 16 {
        return handed_out(l, byte);
    }
    let mut next = l;
    next.bytes[usize::from(l.held)] = byte;
    // Of `l`, since `next.held` would be read back behind the store at an index: 32 bytes of stack more.
    next.held = l.held + 1;
    without_bytes(Answer::Kept, next)
}

// The datagram is complete with this byte.
fn handed_out(l: Listener, byte: u8) -> Heard
    requires { l.held ≤ 17 }
    ensures { result ≡ handed (held_bytes l ++ (byte ∷ [])) }
{
    let held = usize::from(l.held);
    let mut bytes = [0; 18];
    bytes[..held].copy_from_slice(&l.bytes[..held]);
    bytes[held] = byte;
    Heard {
        answer: Answer::HandedOut,
        listener: empty_listener(),
        bytes,
        count: l.held + 1,
    }
}
