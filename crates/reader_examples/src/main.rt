// The worked examples E1 to E12 of rules 12: each datagram is read, and a line tells what it gave.
#![tactic(auto)]

ghost use Rattle.std.specs.Prelude.{◌≡◌};
ghost use Rattle.reader_examples.specs.Examples.{outcome_of};
ghost use Rattle.reader_examples.specs.Rows.{IsTable, refusal_in};

use datagram::Refusal;
use message::Message;

// A datagram, and the number of the refusal that it gets, which rules 12 tell; none where it reads.
#[derive(Clone, Copy)]
struct Row {
    bytes: &'static [u8],
    refusal: Option<u8>,
}

const ROWS: [Row; 12] = [
    // E1
    Row {
        bytes: &[0x20, 0x01, 0x3E, 0x00],
        refusal: None,
    },
    // E2
    Row {
        bytes: &[0x89, 0xB2, 0x0A, 0x00, 0x20],
        refusal: None,
    },
    // E3
    Row {
        bytes: &[0x53, 0x00, 0x2D],
        refusal: Some(7),
    },
    // E4
    Row {
        bytes: &[0x99, 0x00, 0x80],
        refusal: None,
    },
    // E5
    Row {
        bytes: &[0x99, 0x00, 0xFF],
        refusal: None,
    },
    // E6
    Row {
        bytes: &[0x9C, 0x01, 0x00, 0x00],
        refusal: None,
    },
    // E7
    Row {
        bytes: &[0x9C, 0xF1, 0x2C, 0x00],
        refusal: None,
    },
    // E8
    Row {
        bytes: &[0x9C, 0xC1, 0x2C, 0xFE],
        refusal: None,
    },
    // E9
    Row {
        bytes: &[0x86, 0x11, 0x60, 0xDF],
        refusal: Some(6),
    },
    // E10
    Row {
        bytes: &[0x27, 0x01, 0x00, 0x00],
        refusal: None,
    },
    // E11
    Row {
        bytes: &[0x10, 0x01, 0x02, 0xCF],
        refusal: None,
    },
    // E12
    Row {
        bytes: &[0x10, 0x01, 0x02, 0xD0],
        refusal: Some(7),
    },
];

fn main(rt: HostRuntime) {
    show_all(&rt, &ROWS);
}

// Reads each example, sees that its refusal is the expected one, and writes its line.
fn show_all(rt: &impl Print, rows: &[Row])
    requires { IsTable rows.now }
{
    for (i, row) in rows.iter().enumerate() {
        let reading = reader::read(row.bytes);
        prove_eq!(refusal_of(reading), row.refusal);
        write_line(rt, i + 1, row.bytes, reading);
    }
}

// The refusal's number; none for a message.
fn refusal_of(reading: Result<Message, Refusal>) -> Option<u8>
    ensures { result ≡ refusal_in (outcome_of reading) }
{
    reading.err().map(|r| r.number)
}

// A failed write is passed over.
fn write_line(rt: &impl Print, number: usize, bytes: &[u8], reading: Result<Message, Refusal>) {
    let _ = print!(rt; "E{number}");
    for b in bytes {
        let _ = print!(rt; " {b:02X}");
    }
    match reading {
        Ok(m) => {
            let _ = print!(rt; " reads {:02X}:", message::command_of(m));
            let fields = to_fields::fields_of(m);
            for (i, z) in fields
                .values
                .iter()
                .take(usize::from(fields.count))
                .enumerate()
            {
                let _ = print!(rt; "{}{z}", if i == 0 { " " } else { ", " });
            }
        }
        Err(r) => {
            let _ = print!(rt; " refused {}", r.number);
        }
    }
    let _ = println!(rt; "");
}
