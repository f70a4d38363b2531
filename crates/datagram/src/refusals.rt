// The refusals of rules 2.1 by name; each number stands here once.
ghost use Rattle.std.specs.Prelude.{◌≡◌};
ghost use Rattle.datagram.specs.Refusals.{refusal_at, out_of_range, no_mark, cut_short, symbol_above_at};

use crate::Refusal;

impl Refusal {
    // The refusal as the recording reader tells it, whose place is the record's offset.
    fn at(self, offset: usize) -> Refusal
        ensures { result ≡ refusal_at self.number offset }
    {
        Refusal {
            place: offset as u64,
            ..self
        }
    }
}

pub const SYMBOL_ABOVE: Refusal = Refusal {
    number: 1,
    place: 0,
};

// A symbol above 511 in a record.
pub fn symbol_above_at(offset: usize) -> Refusal
    ensures { result ≡ symbol_above_at offset }
{
    SYMBOL_ABOVE.at(offset)
}

pub const NOT_SOUND: Refusal = Refusal {
    number: 2,
    place: 0,
};

pub const NOT_WHOLE: Refusal = Refusal {
    number: 3,
    place: 0,
};

pub const UNKNOWN_COMMAND: Refusal = Refusal {
    number: 4,
    place: 0,
};

pub const WRONG_LENGTH: Refusal = Refusal {
    number: 5,
    place: 0,
};

pub const BAD_REPEAT: Refusal = Refusal {
    number: 6,
    place: 0,
};

// A field out of range; fields are counted from 1 in table order. The rules tell the number alone; the definition and every caller
// name the field too.
pub fn out_of_range(field: u8) -> Refusal
    ensures { result ≡ out_of_range field }
{
    Refusal {
        number: 7,
        place: 0,
    }
}

pub const NO_ROOM: Refusal = Refusal {
    number: 8,
    place: 0,
};

pub const BAD_WAIT_OR_LIMIT: Refusal = Refusal {
    number: 9,
    place: 0,
};

const NO_MARK: Refusal = Refusal {
    number: 10,
    place: 0,
};

// A record without its mark.
pub fn no_mark(offset: usize) -> Refusal
    ensures { result ≡ no_mark offset }
{
    NO_MARK.at(offset)
}

// The times and the symbols of a run of records differ in number.
pub const DIFFERENT_LENGTHS: Refusal = Refusal {
    number: 11,
    place: 0,
};

// A record cut short.
pub fn cut_short(offset: usize) -> Refusal
    ensures { result ≡ cut_short offset }
{
    DIFFERENT_LENGTHS.at(offset)
}
