// The script, character by character.
use crate::command::Command;
use crate::numbers::Numbers;
use crate::output::Output;
use crate::{calls, text};
use sender::Outcome;
use std::io::Write;

// Where a character stands: in the text, past a brace, or past a letter, which may be no command's.
#[derive(Clone, Copy)]
enum Place {
    Text,
    Brace,
    Letter(Option<Command>),
}

// What is kept from one character to the next, and so from one block to the next.
#[derive(Drop)]
pub struct Script {
    outcome: Outcome,
    held: Outcome,
    numbers: Numbers,
    place: Place,
}

impl Script {
    pub fn new() -> Self {
        // Before any offer: the all-zero sender, and what a poll of it answers.
        let outcome = sender::poll(sender::offer(&[], 0, 0).sender, 0, 0);
        Script {
            outcome,
            held: outcome,
            numbers: Numbers::new(),
            place: Place::Text,
        }
    }

    // The whole block.
    pub fn run<W: Write>(&mut self, block: &[u8], out: &mut Output<W>) {
        for c in block {
            self.read(*c, out);
        }
    }

    // One character. A second brace is passed over, and a byte 0 in the place of a letter ends the command.
    fn read<W: Write>(&mut self, c: u8, out: &mut Output<W>) {
        self.numbers.read(c);
        match (self.place, c) {
            (Place::Text, b'{') => self.place = Place::Brace,
            (Place::Text, _) => out.put(c),
            (Place::Brace, b'{') => {}
            (Place::Brace, b'}' | 0) => self.place = Place::Text,
            (Place::Brace, _) => self.place = Place::Letter(Command::of(c)),
            (Place::Letter(command), b'}') => {
                self.place = Place::Text;
                if let Some(command) = command {
                    self.obey(command, out);
                }
            }
            (Place::Letter(_), _) => {}
        }
    }

    // The command whose brace is closed.
    fn obey<W: Write>(&mut self, command: Command, out: &mut Output<W>) {
        match command {
            Command::Hold => self.held = self.outcome,
            Command::Back => self.outcome = self.held,
            _ => {
                self.outcome = calls::called(command, self.outcome, &self.numbers);
                let _ = text::show(command, self.outcome, out);
            }
        }
    }
}
