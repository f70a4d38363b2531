// What a command writes of the sender and of the answer.
use crate::command::Command;
use crate::output::Output;
use sender::{Answer, Outcome, Sender};
use std::fmt::Write;
use std::{fmt, io};

static DIGITS: [u8; 16] = *b"0123456789ABCDEF";

pub fn show<W: io::Write>(command: Command, outcome: Outcome, out: &mut Output<W>) -> fmt::Result {
    let Outcome { answer, sender } = outcome;
    match command {
        Command::Poll | Command::Echo | Command::Answer => told(answer, "ignored", out),
        Command::Offer | Command::Key => told(answer, "accepted", out),
        Command::Just => just(answer, out),
        Command::Refusal => place(answer, out),
        Command::Sound => {
            let sound = sender::is_sound(sender);
            out.write_str(if sound { "sound" } else { "unsound" })
        }
        Command::Terms => terms(sender, out),
        Command::Whole => {
            whole(sender, out);
            Ok(())
        }
        _ => Ok(()),
    }
}

// An accepted offer leaves the answer `Ignored`, for which the caller has the words.
fn told(answer: Answer, ignored: &str, out: &mut impl Write) -> fmt::Result {
    match answer {
        Answer::Wait(left) => write!(out, "wait {left}"),
        Answer::Send(symbol) => write!(out, "send {symbol:03X}"),
        Answer::Listening => out.write_str("listening"),
        Answer::Done => out.write_str("done"),
        Answer::GaveUp => out.write_str("gave up"),
        Answer::WaitingAgain => out.write_str("waiting again"),
        Answer::Ignored => out.write_str(ignored),
        Answer::Refused(r) => write!(out, "refused {}", r.number),
    }
}

fn just(answer: Answer, out: &mut impl Write) -> fmt::Result {
    match answer {
        Answer::Send(symbol) => write!(out, "{symbol:03X}"),
        _ => Ok(()),
    }
}

fn place(answer: Answer, out: &mut impl Write) -> fmt::Result {
    match answer {
        Answer::Refused(r) => write!(out, " at {}", r.place),
        _ => Ok(()),
    }
}

// The first four bytes of the datagram, the wait and the limit.
fn terms<W: io::Write>(s: Sender, out: &mut Output<W>) -> fmt::Result {
    all(&s.datagram[..4], out);
    write!(out, ", wait {}, limit {}", s.wait, s.limit)
}

// The 23 numbers that `{fields}` takes.
fn whole<W: io::Write>(s: Sender, out: &mut Output<W>) {
    all(&[s.phase as u8], out);
    all(&s.datagram, out);
    all(&[s.position, s.wait, s.limit, s.failures], out);
}

// Digit by digit: by `{:02X}` a script of {whole} takes over four times the instructions.
fn all<W: io::Write>(bytes: &[u8], out: &mut Output<W>) {
    for b in bytes {
        out.put(b' ');
        out.put(DIGITS[usize::from(b / 16)]);
        out.put(DIGITS[usize::from(b % 16)]);
    }
}
