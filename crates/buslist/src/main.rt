// Lists a recording from standard input to standard output in constant memory: it reads, lists what is held, and writes.
#![tactic(auto)]

ghost use Rattle.std.specs.Prelude.{◌≤◌};

use progress::{Progress, begin};
use std::fmt;
use std::io::{Error, ErrorKind, Read, Write};
use stream::{list_held, put_last};

// What ends a listing early.
#[derive(Drop)]
enum Fault {
    Input(Error),
    Output(Error),
    TooLong,
}

impl fmt::Display for Fault {
    fn fmt<W: fmt::Write>(&self, f: &mut fmt::Formatter<W>) -> fmt::Result {
        match self {
            Fault::Input(e) => write!(f, "standard input: {e}"),
            Fault::Output(e) => write!(f, "standard output: {e}"),
            Fault::TooLong => f.write_str("standard input: more to read than can be counted"),
        }
    }
}

#[derive(Drop)]
struct Listing<R, W> {
    from: R,
    to: W,
    input: [u8; 65536],
    out: [u8; 131072],
    progress: Progress,
    // the bytes not listed yet, at the front of `input`, and the offset of the first of them in the whole input
    held: usize,
    base: u64,
    ghost within: { held ≤ 65536 },
}

fn main(rt: HostRuntime) {
    let mut listing = Listing {
        from: rt.stdin(),
        to: rt.stdout(),
        input: [0; 65536],
        out: [0; 131072],
        progress: begin(),
        held: 0,
        base: 0,
    };
    if let Err(fault) = listing.run() {
        let _ = eprintln!(rt; "buslist: {fault}");
    }
}

impl<R: Read, W: Write> Listing<R, W> {
    fn run(&mut self) -> Result<(), Fault> {
        let header = listing::put_header(&mut self.out);
        self.write(header)?;
        // As many reads as a 64-bit counter can count.
        for _ in 0..u64::MAX {
            if !self.read()? || !self.list()? {
                return Ok(());
            }
        }
        Err(Fault::TooLong)
    }

    // Reads behind the bytes held, unless a whole record is held, for whose text there was no room. Where the input has ended, the
    // last lines follow, and it answers false.
    fn read(&mut self) -> Result<bool, Fault> {
        if 8 <= self.held {
            return Ok(true);
        }
        match self.from.read(&mut self.input[self.held..]) {
            Ok(0) => {
                let last = put_last(
                    self.progress,
                    self.base,
                    &self.input[..self.held],
                    &mut self.out,
                );
                self.write(last)?;
                Ok(false)
            }
            Ok(n) => {
                self.held += n;
                Ok(true)
            }
            Err(e) if e.kind() == ErrorKind::Interrupted => Ok(true),
            Err(e) => Err(Fault::Input(e)),
        }
    }

    // Lists the bytes held and writes the text. Where a record is refused, the last lines follow, and it answers false.
    fn list(&mut self) -> Result<bool, Fault> {
        let pass = list_held(
            self.progress,
            self.base,
            self.held,
            &mut self.input,
            &mut self.out,
        );
        self.progress = pass.progress;
        self.base = pass.base;
        self.held = pass.held;
        self.write(pass.written)?;
        if pass.stop.is_some() {
            let last = listing::put_end(&mut self.out, self.progress, pass.stop);
            self.write(last)?;
            return Ok(false);
        }
        Ok(true)
    }

    // Writes the first n bytes, however often a signal interrupts it.
    fn write(&mut self, n: usize) -> Result<(), Fault>
        requires { n ≤ 131072 }
    {
        self.to.write_all(&self.out[..n]).map_err(Fault::Output)
    }
}
