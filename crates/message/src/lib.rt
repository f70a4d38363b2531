// The kinds of message: their fields, their table, and what a field out of range gets.
#![tactic(auto)]

pub mod range;

ghost use Rattle.std.specs.Prelude.{◌≡◌};
ghost use Rattle.message.specs.Table.{row_of, kinds, find_of};
ghost use Rattle.message.specs.Fields.{kind_of, command_of};

// `find`, `row_of`, `kind_of` and `command_of` are free functions: public calls, which methods would say twice.

// A kind of message, by its row in the table of rules 4.2.
#[derive(Clone, Copy)]
pub enum Kind {
    Depth,
    WindAngle,
    WindSpeed,
    Speed,
    Trip,
    Total,
    Logs,
    Speeds,
    Water,
    Lamp,
    Latitude,
    Longitude,
    Ground,
    Course,
    Time,
    Date,
    Pilot,
    Key,
    Heading,
    Variation,
    Turn,
}

// A message: its kind, and its fields in table order.
#[derive(Clone, Copy)]
pub enum Message {
    Depth {
        tenths: u32,
        anchor: bool,
        metric: bool,
        defective: bool,
        deep: bool,
        shallow: bool,
    },
    WindAngle {
        halves: u32,
    },
    WindSpeed {
        tenths: u32,
        metres: bool,
    },
    Speed {
        tenths: u32,
    },
    Trip {
        hundredths: u32,
    },
    Total {
        tenths: u32,
    },
    Logs {
        total: u32,
        trip: u32,
    },
    Speeds {
        speed: u32,
        average: u32,
        valid: bool,
        stopped: bool,
        mph: bool,
    },
    Water {
        tenths: i32,
    },
    Lamp {
        level: u32,
    },
    Latitude {
        degrees: u32,
        hundredths: u32,
        south: bool,
    },
    Longitude {
        degrees: u32,
        hundredths: u32,
        east: bool,
    },
    Ground {
        tenths: u32,
    },
    Course {
        halves: u32,
    },
    Time {
        hours: u32,
        minutes: u32,
        seconds: u32,
    },
    Date {
        month: u32,
        day: u32,
        year: u32,
    },
    Pilot {
        degrees: u32,
        right: bool,
        course: u32,
        auto: bool,
        vane: bool,
        track: bool,
        off_course: bool,
        wind_shift: bool,
        rudder: i32,
        ss: u32,
        tt: u32,
    },
    Key {
        source: u32,
        code: u32,
    },
    Heading {
        halves: u32,
        reference: u32,
        locked: bool,
    },
    Variation {
        east: i32,
    },
    Turn {
        degrees: u32,
        right: bool,
        rudder: i32,
    },
}

// A row of the table: the command, the whole length and the kind. The patterns of `reader::read_kind` are held to the length.
#[derive(Clone, Copy)]
pub struct Row {
    pub command: u8,
    pub length: u8,
    pub kind: Kind,
}

// The rows of the table, one a kind.
const DEPTH: Row = Row {
    command: 0x00,
    length: 5,
    kind: Kind::Depth,
};

const WIND_ANGLE: Row = Row {
    command: 0x10,
    length: 4,
    kind: Kind::WindAngle,
};

const WIND_SPEED: Row = Row {
    command: 0x11,
    length: 4,
    kind: Kind::WindSpeed,
};

const SPEED: Row = Row {
    command: 0x20,
    length: 4,
    kind: Kind::Speed,
};

const TRIP: Row = Row {
    command: 0x21,
    length: 5,
    kind: Kind::Trip,
};

const TOTAL: Row = Row {
    command: 0x22,
    length: 5,
    kind: Kind::Total,
};

const LOGS: Row = Row {
    command: 0x25,
    length: 7,
    kind: Kind::Logs,
};

const SPEEDS: Row = Row {
    command: 0x26,
    length: 7,
    kind: Kind::Speeds,
};

const WATER: Row = Row {
    command: 0x27,
    length: 4,
    kind: Kind::Water,
};

const LAMP: Row = Row {
    command: 0x30,
    length: 3,
    kind: Kind::Lamp,
};

const LATITUDE: Row = Row {
    command: 0x50,
    length: 5,
    kind: Kind::Latitude,
};

const LONGITUDE: Row = Row {
    command: 0x51,
    length: 5,
    kind: Kind::Longitude,
};

const GROUND: Row = Row {
    command: 0x52,
    length: 4,
    kind: Kind::Ground,
};

const COURSE: Row = Row {
    command: 0x53,
    length: 3,
    kind: Kind::Course,
};

const TIME: Row = Row {
    command: 0x54,
    length: 4,
    kind: Kind::Time,
};

const DATE: Row = Row {
    command: 0x56,
    length: 4,
    kind: Kind::Date,
};

const PILOT: Row = Row {
    command: 0x84,
    length: 9,
    kind: Kind::Pilot,
};

const KEY: Row = Row {
    command: 0x86,
    length: 4,
    kind: Kind::Key,
};

const HEADING: Row = Row {
    command: 0x89,
    length: 5,
    kind: Kind::Heading,
};

const VARIATION: Row = Row {
    command: 0x99,
    length: 3,
    kind: Kind::Variation,
};

const TURN: Row = Row {
    command: 0x9C,
    length: 4,
    kind: Kind::Turn,
};

// The one table of kinds, in the order of their commands.
pub const KINDS: [Row; 21] = [
    DEPTH, WIND_ANGLE, WIND_SPEED, SPEED, TRIP, TOTAL, LOGS, SPEEDS, WATER, LAMP, LATITUDE,
    LONGITUDE, GROUND, COURSE, TIME, DATE, PILOT, KEY, HEADING, VARIATION, TURN,
];

// The table as an array. Nothing calls it: its contract holds the constant to the definition.
#[tactic(auto, unfolding(crate::specs::Table::kinds))]
fn rows() -> [Row; 21]
    ensures { result ≡ kinds }
{
    KINDS
}

// The table by the command: each command stands here again, beside its row, and the contract holds the two together.
#[tactic(auto, unfolding(crate::specs::Table::kinds, crate::specs::Table::find_of))]
pub fn find(command: u8) -> Option<Row>
    ensures { result ≡ find_of command }
{
    match command {
        0x00 => Some(DEPTH),
        0x10 => Some(WIND_ANGLE),
        0x11 => Some(WIND_SPEED),
        0x20 => Some(SPEED),
        0x21 => Some(TRIP),
        0x22 => Some(TOTAL),
        0x25 => Some(LOGS),
        0x26 => Some(SPEEDS),
        0x27 => Some(WATER),
        0x30 => Some(LAMP),
        0x50 => Some(LATITUDE),
        0x51 => Some(LONGITUDE),
        0x52 => Some(GROUND),
        0x53 => Some(COURSE),
        0x54 => Some(TIME),
        0x56 => Some(DATE),
        0x84 => Some(PILOT),
        0x86 => Some(KEY),
        0x89 => Some(HEADING),
        0x99 => Some(VARIATION),
        0x9C => Some(TURN),
        _ => None,
    }
}

// The table's row of a kind.
pub fn row_of(kind: Kind) -> Row
    ensures { result ≡ row_of kind }
{
    match kind {
        Kind::Depth => DEPTH,
        Kind::WindAngle => WIND_ANGLE,
        Kind::WindSpeed => WIND_SPEED,
        Kind::Speed => SPEED,
        Kind::Trip => TRIP,
        Kind::Total => TOTAL,
        Kind::Logs => LOGS,
        Kind::Speeds => SPEEDS,
        Kind::Water => WATER,
        Kind::Lamp => LAMP,
        Kind::Latitude => LATITUDE,
        Kind::Longitude => LONGITUDE,
        Kind::Ground => GROUND,
        Kind::Course => COURSE,
        Kind::Time => TIME,
        Kind::Date => DATE,
        Kind::Pilot => PILOT,
        Kind::Key => KEY,
        Kind::Heading => HEADING,
        Kind::Variation => VARIATION,
        Kind::Turn => TURN,
    }
}

// The kind of a message.
#[tactic(auto, unfolding(crate::specs::Fields::kind_of))]
pub fn kind_of(m: Message) -> Kind
    ensures { result ≡ kind_of m }
{
    match m {
        Message::Depth { .. } => Kind::Depth,
        Message::WindAngle { .. } => Kind::WindAngle,
        Message::WindSpeed { .. } => Kind::WindSpeed,
        Message::Speed { .. } => Kind::Speed,
        Message::Trip { .. } => Kind::Trip,
        Message::Total { .. } => Kind::Total,
        Message::Logs { .. } => Kind::Logs,
        Message::Speeds { .. } => Kind::Speeds,
        Message::Water { .. } => Kind::Water,
        Message::Lamp { .. } => Kind::Lamp,
        Message::Latitude { .. } => Kind::Latitude,
        Message::Longitude { .. } => Kind::Longitude,
        Message::Ground { .. } => Kind::Ground,
        Message::Course { .. } => Kind::Course,
        Message::Time { .. } => Kind::Time,
        Message::Date { .. } => Kind::Date,
        Message::Pilot { .. } => Kind::Pilot,
        Message::Key { .. } => Kind::Key,
        Message::Heading { .. } => Kind::Heading,
        Message::Variation { .. } => Kind::Variation,
        Message::Turn { .. } => Kind::Turn,
    }
}

// The command of the message's row in the table.
pub fn command_of(m: Message) -> u8
    ensures { result ≡ command_of m }
{
    row_of(kind_of(m)).command
}
