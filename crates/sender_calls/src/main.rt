// Calls of the sender and the key sender. Standard input is a script of any length: its text is written as it stands, and a
// command in braces writes what the library answered. `stdin` beside this folder has worked cases; `tests/sender` makes others.
//
// A command is known by its first letter, and takes the last numbers of its line, in the text or in the braces:
//   {offer}   the bytes, the wait and the limit; writes the verdict      {key}     the source and the code; writes the verdict
//   {poll}    the two times; writes the answer                           {echo}    the symbol; writes the answer
//   {sound}   writes whether the sender is sound                         {terms}   writes its first four bytes, wait and limit
//   {answer}  writes the last answer again                               {just}    writes the symbol that it sends
//   {refusal} writes the place where the last answer is a refusal        {whole}   writes the sender as 23 numbers
//   {hold}    keeps the sender and the last answer                       {back}    goes back to those
//   {fields}  makes any sender, by the first 23 numbers: phase 0 to 3, 18 bytes, position, wait, limit, failures
// Times, the source, and an offer's wait and limit are decimal, all else is base 16. {Offer}, {Poll} and {Echo} write nothing.
// Capitals A to F are digits wherever they stand. A line keeps 24 numbers, so an offer can have up to 22 bytes.
#![tactic(auto)]

mod calls;
mod command;
mod numbers;
mod output;
mod script;
mod text;

ghost use Rattle.std.specs.Prelude.{◌≤◌, length};

use crate::output::Output;
use crate::script::Script;
use std::io::Read;

fn main(rt: HostRuntime) {
    let mut input = [0u8; 65536];
    let mut out = Output::new(rt.stdout());
    let mut script = Script::new();
    // As many reads as a 64-bit counter can count: nothing else says that the input ends.
    for _ in 0..u64::MAX {
        let n = read_full(&mut rt.stdin(), &mut input);
        if n == 0 {
            break;
        }
        script.run(&input[..n], &mut out);
    }
    out.flush();
}

// Reads until the buffer is full, the input ends or a read fails, and gives how many bytes that were.
// A loop: read_exact tells no count, and a block for each read would end the script where a read fails behind others.
fn read_full(from: &mut impl Read, buf: &mut [u8]) -> usize
    ensures { result ≤ length buf.new }
{
    let mut done = 0;
    while done < buf.len() {
        match from.read(&mut buf[done..]) {
            Ok(0) => return done,
            Ok(n) => done += n,
            Err(_) => return done,
        }
    }
    done
}
