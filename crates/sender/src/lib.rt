// The sender: offers a datagram to the bus, symbol by symbol, and checks each against its own echo.
#![tactic(auto)]

ghost use Rattle.std.specs.Prelude.{◌≡◌, ◌<◌, ◌≤◌, length};
ghost use Rattle.datagram.specs.Padding.{pad_to};
ghost use Rattle.sender.specs.State.{sound, phase_sound, length_of, symbol_at};
ghost use Rattle.sender.specs.Step.{offer_of, poll_of, echo_of, outcome, refused_offer, polled, heard_right, heard_wrong};

use datagram::Refusal;
use datagram::refusals::{BAD_WAIT_OR_LIMIT, NOT_SOUND, NOT_WHOLE, SYMBOL_ABOVE};

// Bit times of silence before a sender starts, where its offer says 0.
pub const DEFAULT_WAIT: u8 = 10;

// What a sender is doing; the variants stand in the order of the numbers of rules 7.3.
#[derive(Clone, Copy)]
pub enum Phase {
    Waiting,
    Awaiting,
    Done,
    GaveUp,
}

// A datagram on its way: 18 bytes with zeros past it, the position of the symbol whose echo is awaited, the wait before a
// start, the limit of attempts, and the failures so far. An array, and numbers whatever the phase: there is no heap, and any 23 numbers are
// a sender, of which `is_sound` tells. The calls that make an outcome are free functions: `offer`, `poll`, `echo`, `is_sound` and
// `refused_offer` are public calls, which methods would say twice.
#[derive(Clone, Copy)]
pub struct Sender {
    pub phase: Phase,
    pub datagram: [u8; 18],
    pub position: u8,
    pub wait: u8,
    pub limit: u8,
    pub failures: u8,
}

impl Sender {
    // Whether the position and the failures are as the phase has them.
    fn is_phase_sound(self) -> bool
        ensures { result ≡ phase_sound self.phase self.position (length_of self) self.failures self.limit }
    {
        match self.phase {
            Phase::Waiting => self.position == 0 && self.failures < self.limit,
            Phase::Awaiting => self.position < self.length() && self.failures < self.limit,
            Phase::Done => self.position == self.length() && self.failures < self.limit,
            Phase::GaveUp => self.position == 0 && self.failures == self.limit,
        }
    }

    // The number of bytes of the datagram.
    fn length(self) -> u8
        ensures { result ≡ length_of self }
    {
        3 + self.datagram[1] % 16
    }

    // The symbol at a position of the datagram.
    fn symbol_at(self, position: u8) -> u16
        requires { position < length_of self }
        ensures { result ≡ symbol_at self position }
    {
        let byte = u16::from(self.datagram[usize::from(position)]);
        if position == 0 { 256 + byte } else { byte }
    }
}

// What a poll or an echo answers. A refusal is one of the answers, as in the definitions, which tell each case.
#[derive(Clone, Copy)]
pub enum Answer {
    // So many bit times are left to wait.
    Wait(u32),
    // Send this symbol.
    Send(u16),
    // An echo is awaited.
    Listening,
    Done,
    GaveUp,
    // A failure, and another attempt to come.
    WaitingAgain,
    // An echo that was not awaited.
    Ignored,
    Refused(Refusal),
}

// One call's outcome.
#[derive(Clone, Copy)]
pub struct Outcome {
    pub answer: Answer,
    pub sender: Sender,
}

// An offer's outcome: accepted or refused, and the sender. A struct, since a refused offer promises its sender too: all zero.
#[derive(Clone, Copy)]
pub struct Offered {
    pub verdict: Result<(), Refusal>,
    pub sender: Sender,
}

// Offers a whole datagram, with a wait of 10 to 255 bit times (0 for the default) and a limit of 1 to 50 attempts.
#[tactic(auto, using(datagram::proofs::Whole::declares), unfolding(crate::specs::Step::offer_of))]
pub fn offer(bytes: &[u8], wait: u32, limit: u32) -> Offered
    ensures { result ≡ offer_of bytes.now wait limit }
{
    if !datagram::is_whole(bytes) {
        return refused_offer(NOT_WHOLE);
    }
    let wait = if wait == 0 {
        u32::from(DEFAULT_WAIT)
    } else {
        wait
    };
    if !(10..=255).contains(&wait) || !(1..=50).contains(&limit) {
        return refused_offer(BAD_WAIT_OR_LIMIT);
    }
    Offered {
        verdict: Ok(()),
        sender: Sender {
            phase: Phase::Waiting,
            datagram: padded(bytes),
            position: 0,
            wait: wait as u8,
            limit: limit as u8,
            failures: 0,
        },
    }
}

// Asks what to do, at this time with the bus last active at `last`, both on a bit-time counter that wraps.
#[tactic(auto, unfolding(crate::specs::Step::poll_of))]
pub fn poll(s: Sender, time: u32, last: u32) -> Outcome
    ensures { result ≡ poll_of s time last }
{
    if !is_sound(s) {
        return answered(Answer::Refused(NOT_SOUND), s);
    }
    match s.phase {
        Phase::Waiting => started(s, time.wrapping_sub(last)),
        Phase::Awaiting => answered(Answer::Listening, s),
        Phase::Done => answered(Answer::Done, s),
        Phase::GaveUp => answered(Answer::GaveUp, s),
    }
}

// Tells the sender a symbol that was heard while it awaits its echo.
#[tactic(auto, using(crate::proofs::State::awaits), unfolding(crate::specs::Step::echo_of))]
pub fn echo(s: Sender, symbol: u16) -> Outcome
    ensures { result ≡ echo_of s symbol }
{
    if 511 < symbol {
        return answered(Answer::Refused(SYMBOL_ABOVE), s);
    }
    if !is_sound(s) {
        return answered(Answer::Refused(NOT_SOUND), s);
    }
    match s.phase {
        Phase::Awaiting if symbol == s.symbol_at(s.position) => heard_right(s),
        Phase::Awaiting => heard_wrong(s),
        Phase::Waiting | Phase::Done | Phase::GaveUp => answered(Answer::Ignored, s),
    }
}

// Whether the state is sound.
#[tactic(auto, using(crate::proofs::State::sound_is))]
pub fn is_sound(s: Sender) -> bool
    ensures { result ≡ sound s }
{
    10 <= s.wait
        && 1 <= s.limit
        && s.limit <= 50
        && datagram::zeros_from(&s.datagram, usize::from(s.length()))
        && s.is_phase_sound()
}

// An outcome on one line; the literal takes four.
fn answered(answer: Answer, sender: Sender) -> Outcome
    ensures { result ≡ outcome answer sender }
{
    Outcome { answer, sender }
}

// A refused offer: the refusal, and the all-zero sender, which is not sound.
#[tactic(auto, unfolding(datagram::specs::Padding::pad_to))]
pub fn refused_offer(refusal: Refusal) -> Offered
    ensures { result ≡ refused_offer refusal }
{
    Offered {
        verdict: Err(refusal),
        sender: Sender {
            phase: Phase::Waiting,
            datagram: [0; 18],
            position: 0,
            wait: 0,
            limit: 0,
            failures: 0,
        },
    }
}

// The bytes in an array of 18, with zeros past them.
fn padded(bytes: &[u8]) -> [u8; 18]
    requires { length bytes.now ≤ 18 }
    ensures { result ≡ pad_to 18 bytes.now }
{
    let mut out = [0u8; 18];
    out[..bytes.len()].copy_from_slice(bytes);
    out
}

// A poll while waiting: the command symbol once the wait is over.
fn started(s: Sender, silence: u32) -> Outcome
    ensures { result ≡ polled Phase.Waiting s silence }
{
    let wait = u32::from(s.wait);
    if silence < wait {
        return answered(Answer::Wait(wait - silence), s);
    }
    let next = Sender {
        phase: Phase::Awaiting,
        position: 0,
        ..s
    };
    answered(Answer::Send(s.symbol_at(0)), next)
}

// The awaited symbol was heard.
fn heard_right(s: Sender) -> Outcome
    requires { s.position < length_of s }
    ensures { result ≡ heard_right s }
{
    let next = Sender {
        phase: Phase::Awaiting,
        position: s.position + 1,
        ..s
    };
    if next.position == s.length() {
        return answered(
            Answer::Done,
            Sender {
                phase: Phase::Done,
                ..next
            },
        );
    }
    answered(Answer::Send(s.symbol_at(next.position)), next)
}

// Another symbol was heard: the whole datagram is sent again, or the sender gives up.
fn heard_wrong(s: Sender) -> Outcome
    requires { s.failures < s.limit }
    ensures { result ≡ heard_wrong s }
{
    let failures = s.failures + 1;
    let next = Sender {
        phase: Phase::Waiting,
        position: 0,
        failures,
        ..s
    };
    if failures == s.limit {
        return answered(
            Answer::GaveUp,
            Sender {
                phase: Phase::GaveUp,
                ..next
            },
        );
    }
    answered(Answer::WaitingAgain, next)
}
