// The commands that call the library, and what they leave: the sender and the answer.
use crate::command::Command;
use crate::numbers::Numbers;
use sender::{Answer, Offered, Outcome, Phase, Sender};

pub fn called(command: Command, last: Outcome, n: &Numbers) -> Outcome {
    match command {
        Command::Poll | Command::QuietPoll => sender::poll(last.sender, n.before, n.last),
        Command::Echo | Command::QuietEcho => sender::echo(last.sender, n.hex),
        Command::Offer | Command::QuietOffer => offered(sender::offer(
            n.offered(),
            n.before,
            n.last,
        )),
        Command::Key => {
            let [source, ..] = n.before.to_le_bytes();
            let [code, _] = n.hex.to_le_bytes();
            offered(key_sender::send_key(source, code))
        }
        Command::Fields => Outcome {
            answer: Answer::Ignored,
            sender: fields(&n.bytes),
        },
        _ => last,
    }
}

// A refused offer answers with its refusal. After an accepted one the answer is `Ignored`, which `{answer}` writes.
fn offered(o: Offered) -> Outcome {
    let answer = match o.verdict {
        Ok(()) => Answer::Ignored,
        Err(r) => Answer::Refused(r),
    };
    Outcome {
        answer,
        sender: o.sender,
    }
}

// The first 23 numbers of the line; a phase above 3 gives what 3 does, so no TryFrom.
fn fields(bytes: &[u8; 24]) -> Sender {
    let mut datagram = [0u8; 18];
    datagram.copy_from_slice(&bytes[1..19]);
    Sender {
        phase: match bytes[0] {
            0 => Phase::Waiting,
            1 => Phase::Awaiting,
            2 => Phase::Done,
            _ => Phase::GaveUp,
        },
        datagram,
        position: bytes[19],
        wait: bytes[20],
        limit: bytes[21],
        failures: bytes[22],
    }
}
