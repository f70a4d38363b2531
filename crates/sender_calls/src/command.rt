// The commands, by their first letters.

#[derive(Clone, Copy)]
pub enum Command {
    Offer,
    Key,
    Poll,
    Echo,
    // the same, and nothing is written
    QuietOffer,
    QuietPoll,
    QuietEcho,
    Fields,
    Sound,
    Terms,
    Answer,
    Just,
    Refusal,
    Whole,
    Hold,
    Back,
}

impl Command {
    // The command of a letter, if there is one. No TryFrom: there is nothing to tell of another letter.
    pub fn of(letter: u8) -> Option<Command> {
        let command = match letter {
            b'o' => Command::Offer,
            b'k' => Command::Key,
            b'p' => Command::Poll,
            b'e' => Command::Echo,
            b'O' => Command::QuietOffer,
            b'P' => Command::QuietPoll,
            b'E' => Command::QuietEcho,
            b'f' => Command::Fields,
            b's' => Command::Sound,
            b't' => Command::Terms,
            b'a' => Command::Answer,
            b'j' => Command::Just,
            b'r' => Command::Refusal,
            b'w' => Command::Whole,
            b'h' => Command::Hold,
            b'b' => Command::Back,
            _ => return None,
        };
        Some(command)
    }
}
