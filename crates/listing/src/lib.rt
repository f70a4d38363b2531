// The listing: a recording as lines of text, block by block, in a lent buffer.
#![tactic(auto)]

pub mod block;
mod content;
mod fields;
mod stamp;

ghost use Rattle.std.specs.Prelude.{◌≡◌, true, ◌∷◌, ◌++◌, ◌+◌, ◌≤◌, ◌<◌, length};
ghost use Rattle.std.proofs.lemmas.List.Edits.{sets};
ghost use Rattle.listing.specs.Text.{Put, Stored, stored_text, pair_of, decimal, hex_byte, spaced_hex};
ghost use Rattle.datagram.specs.Whole.{whole};
ghost use Rattle.listing.specs.Walk.{stop_text, end_text};
ghost use Rattle.listing.specs.Line.{refused_text, line_of, count_line, header_line};

use datagram::Refusal;
use progress::Progress;
use stamp::Stamp;

// A block's outcome: the progress, the bytes of input that were listed, the bytes of text put, and what refused a record, if
// one was refused.
#[derive(Clone, Copy)]
pub struct Listed {
    pub progress: Progress,
    pub used: usize,
    pub written: usize,
    pub stop: Option<Refusal>,
}

// Puts these bytes. The buffer and the position stay two parameters in this crate: with the position behind a `&mut`, as a
// struct of both has it, bench/listing is 4 percent slower. Text is put by hand, since the library promises what `write!`
// puts into a `String` only, which is on the heap.
fn put_bytes(out: &mut [u8], at: usize, text: &[u8]) -> usize
    requires { at + length text.now ≤ length out.old }
    ensures { Put out.old at text.now out.new result }
{
    let end = at + text.len();
    out[at..end].copy_from_slice(text);
    end
}

// The two hex digits of each byte. Laid out once, as the next: a constant would be at every use.
static HEX_PAIRS: [[u8; 2]; 256] = [
    *b"00", *b"01", *b"02", *b"03", *b"04", *b"05", *b"06", *b"07", *b"08", *b"09", *b"0A", *b"0B",
    *b"0C", *b"0D", *b"0E", *b"0F", *b"10", *b"11", *b"12", *b"13", *b"14", *b"15", *b"16", *b"17",
    *b"18", *b"19", *b"1A", *b"1B", *b"1C", *b"1D", *b"1E", *b"1F", *b"20", *b"21", *b"22", *b"23",
    *b"24", *b"25", *b"26", *b"27", *b"28", *b"29", *b"2A", *b"2B", *b"2C", *b"2D", *b"2E", *b"2F",
    *b"30", *b"31", *b"32", *b"33", *b"34", *b"35", *b"36", *b"37", *b"38", *b"39", *b"3A", *b"3B",
    *b"3C", *b"3D", *b"3E", *b"3F", *b"40", *b"41", *b"42", *b"43", *b"44", *b"45", *b"46", *b"47",
    *b"48", *b"49", *b"4A", *b"4B", *b"4C", *b"4D", *b"4E", *b"4F", *b"50", *b"51", *b"52", *b"53",
    *b"54", *b"55", *b"56", *b"57", *b"58", *b"59", *b"5A", *b"5B", *b"5C", *b"5D", *b"5E", *b"5F",
    *b"60", *b"61", *b"62", *b"63", *b"64", *b"65", *b"66", *b"67", *b"68", *b"69", *b"6A", *b"6B",
    *b"6C", *b"6D", *b"6E", *b"6F", *b"70", *b"71", *b"72", *b"73", *b"74", *b"75", *b"76", *b"77",
    *b"78", *b"79", *b"7A", *b"7B", *b"7C", *b"7D", *b"7E", *b"7F", *b"80", *b"81", *b"82", *b"83",
    *b"84", *b"85", *b"86", *b"87", *b"88", *b"89", *b"8A", *b"8B", *b"8C", *b"8D", *b"8E", *b"8F",
    *b"90", *b"91", *b"92", *b"93", *b"94", *b"95", *b"96", *b"97", *b"98", *b"99", *b"9A", *b"9B",
    *b"9C", *b"9D", *b"9E", *b"9F", *b"A0", *b"A1", *b"A2", *b"A3", *b"A4", *b"A5", *b"A6", *b"A7",
    *b"A8", *b"A9", *b"AA", *b"AB", *b"AC", *b"AD", *b"AE", *b"AF", *b"B0", *b"B1", *b"B2", *b"B3",
    *b"B4", *b"B5", *b"B6", *b"B7", *b"B8", *b"B9", *b"BA", *b"BB", *b"BC", *b"BD", *b"BE", *b"BF",
    *b"C0", *b"C1", *b"C2", *b"C3", *b"C4", *b"C5", *b"C6", *b"C7", *b"C8", *b"C9", *b"CA", *b"CB",
    *b"CC", *b"CD", *b"CE", *b"CF", *b"D0", *b"D1", *b"D2", *b"D3", *b"D4", *b"D5", *b"D6", *b"D7",
    *b"D8", *b"D9", *b"DA", *b"DB", *b"DC", *b"DD", *b"DE", *b"DF", *b"E0", *b"E1", *b"E2", *b"E3",
    *b"E4", *b"E5", *b"E6", *b"E7", *b"E8", *b"E9", *b"EA", *b"EB", *b"EC", *b"ED", *b"EE", *b"EF",
    *b"F0", *b"F1", *b"F2", *b"F3", *b"F4", *b"F5", *b"F6", *b"F7", *b"F8", *b"F9", *b"FA", *b"FB",
    *b"FC", *b"FD", *b"FE", *b"FF",
];

// The two decimal digits of each number below 100.
static DECIMAL_PAIRS: [[u8; 2]; 100] = [
    *b"00", *b"01", *b"02", *b"03", *b"04", *b"05", *b"06", *b"07", *b"08", *b"09", *b"10", *b"11",
    *b"12", *b"13", *b"14", *b"15", *b"16", *b"17", *b"18", *b"19", *b"20", *b"21", *b"22", *b"23",
    *b"24", *b"25", *b"26", *b"27", *b"28", *b"29", *b"30", *b"31", *b"32", *b"33", *b"34", *b"35",
    *b"36", *b"37", *b"38", *b"39", *b"40", *b"41", *b"42", *b"43", *b"44", *b"45", *b"46", *b"47",
    *b"48", *b"49", *b"50", *b"51", *b"52", *b"53", *b"54", *b"55", *b"56", *b"57", *b"58", *b"59",
    *b"60", *b"61", *b"62", *b"63", *b"64", *b"65", *b"66", *b"67", *b"68", *b"69", *b"70", *b"71",
    *b"72", *b"73", *b"74", *b"75", *b"76", *b"77", *b"78", *b"79", *b"80", *b"81", *b"82", *b"83",
    *b"84", *b"85", *b"86", *b"87", *b"88", *b"89", *b"90", *b"91", *b"92", *b"93", *b"94", *b"95",
    *b"96", *b"97", *b"98", *b"99",
];

// Puts the two digits of a number below 100.
#[tactic(auto, using(crate::proofs::Pairs::decimal_pair))]
fn put_pair(out: &mut [u8], at: usize, n: u64) -> usize
    requires { (n < 100) × (at + 2 ≤ length out.old) }
    ensures { Put out.old at (pair_of n) out.new result }
{
    // Both are read before either is stored, so that it is one read and one store. By put_bytes it is a test for an overlap
    // more, and the listing takes 13 percent more instructions.
    let [tens, ones] = DECIMAL_PAIRS[n as usize];
    out[at] = tens;
    out[at + 1] = ones;
    at + 2
}

// Puts a number in decimal from the right, two digits at a time. A while: it goes by the number that is left, and over no range.
#[tactic(auto, using(crate::proofs::Decimal::decimal_most, crate::proofs::Decimal::partly_length, crate::proofs::Decimal::partly_keeps, crate::proofs::Decimal::ends_one, crate::proofs::Decimal::ends_two))]
fn put_digits(out: &mut [u8], at: usize, n: u64) -> usize
    requires { (0 < n) × (at + 20 ≤ length out.old) }
    ensures { Put out.old at (decimal n) out.new result }
{
    let end = at + n.ilog10() as usize + 1;
    let mut e = end;
    let mut m = n;
    while 100 <= m {
        e -= 2;
        put_pair(out, e, m % 100);
        m /= 100;
    }
    if m < 10 {
        out[at] = b'0' + m as u8;
    } else {
        put_pair(out, at, m);
    }
    end
}

// Puts a number in decimal; those of one to three digits, which are most, without a loop. It stays a call: spread over all
// the fields it is slower.
#[inline(never)]
fn put_decimal(out: &mut [u8], at: usize, n: u64) -> usize
    requires { at + 20 ≤ length out.old }
    ensures { Put out.old at (decimal n) out.new result }
{
    if n < 10 {
        out[at] = b'0' + n as u8;
        return at + 1;
    }
    if n < 100 {
        return put_pair(out, at, n);
    }
    if n < 1000 {
        out[at] = b'0' + (n / 100) as u8;
        return put_pair(out, at + 1, n % 100);
    }
    put_digits(out, at, n)
}

// Puts a byte in hex after a space.
#[tactic(auto, using(crate::proofs::Pairs::hex_pair))]
fn put_hex_byte(out: &mut [u8], at: usize, b: u8) -> usize
    requires { at + 3 ≤ length out.old }
    ensures { Put out.old at (32 ∷ hex_byte b) out.new result }
{
    let [high, low] = HEX_PAIRS[usize::from(b)];
    out[at] = b' ';
    out[at + 1] = high;
    out[at + 2] = low;
    at + 3
}

// Puts bytes in hex, each after a space.
#[tactic(auto, using(crate::proofs::Put::put_length, crate::proofs::Spaced::hex_most))]
fn put_hex(out: &mut [u8], at: usize, bytes: &[u8]) -> usize
    requires { (length bytes.now ≤ 18) × (at + 54 ≤ length out.old) }
    ensures { Put out.old at (spaced_hex bytes.now) out.new result }
{
    let mut p = at;
    for &b in bytes {
        p = put_hex_byte(out, p, b);
    }
    p
}

// Puts these bytes and then a number in decimal.
#[tactic(auto, using(crate::proofs::Put::put_length))]
fn put_labelled(out: &mut [u8], at: usize, label: &[u8], n: u64) -> usize
    requires { at + length label.now + 20 ≤ length out.old }
    ensures { Put out.old at (label.now ++ decimal n) out.new result }
{
    let p = put_bytes(out, at, label);
    put_decimal(out, p, n)
}

// Puts what refused a datagram.
fn put_refused(out: &mut [u8], at: usize, refusal: Refusal) -> usize
    requires { at + 29 ≤ length out.old }
    ensures { Put out.old at (refused_text refusal) out.new result }
{
    put_labelled(out, at, b" refused ", u64::from(refusal.number))
}

// Puts the line of a whole datagram.
#[tactic(auto, using(crate::proofs::Put::put_length, crate::proofs::Decimal::decimal_most, crate::proofs::Spaced::hex_length, crate::proofs::Lines::content_most, datagram::proofs::Whole::declares))]
fn put_line(out: &mut [u8], at: usize, stamp: &mut Stamp, time: u32, bytes: &[u8]) -> usize
    requires { (whole bytes.now ≡ true) × (at + 512 ≤ length out.old) }
    ensures { Put out.old at (line_of time bytes.now) out.new result }
{
    let mut p = stamp.put(out, at, time);
    p = put_hex(out, p, bytes);
    p = content::put_content(out, p, bytes);
    out[p] = b'\n';
    p + 1
}

// Puts the first line of a listing and gives its length; a buffer shorter than 512 bytes gets nothing. The 0 then, and no
// `None`, is the count that the public clause gives by `stored_text`.
pub fn put_header(out: &mut [u8]) -> usize
    ensures { ◌≡◌ {A = Stored} (record { buffer = out.new; count = result }) (stored_text header_line out.old) }
{
    if out.len() < 512 {
        return 0;
    }
    put_bytes(out, 0, b"bus listing 1\n")
}

// Puts why a listing stopped, if it did.
#[tactic(auto, using(crate::proofs::Put::put_length, crate::proofs::Decimal::decimal_most))]
fn put_stop(out: &mut [u8], at: usize, stop: Option<Refusal>) -> usize
    requires { at + 64 ≤ length out.old }
    ensures { Put out.old at (stop_text stop) out.new result }
{
    let Some(r) = stop else {
        return at;
    };
    let mut p = put_labelled(out, at, b"stopped ", u64::from(r.number));
    p = put_labelled(out, p, b" at ", r.place);
    out[p] = b'\n';
    p + 1
}

// Puts the line of the counts.
#[tactic(auto, using(crate::proofs::Put::put_length, crate::proofs::Decimal::decimal_most))]
fn put_counts(out: &mut [u8], at: usize, progress: Progress) -> usize
    requires { at + 128 ≤ length out.old }
    ensures { Put out.old at (count_line progress.handed progress.cancelled progress.stray) out.new result }
{
    let mut p = put_labelled(out, at, b"handed ", progress.handed);
    p = put_labelled(out, p, b" cancelled ", progress.cancelled);
    p = put_labelled(out, p, b" stray ", progress.stray);
    out[p] = b'\n';
    p + 1
}

// Puts the last lines of a listing and gives their length, or 0 as `put_header` does.
#[tactic(auto, using(crate::proofs::Put::put_length, crate::proofs::Lines::stop_most))]
pub fn put_end(out: &mut [u8], progress: Progress, stop: Option<Refusal>) -> usize
    ensures { ◌≡◌ {A = Stored} (record { buffer = out.new; count = result }) (stored_text (end_text progress stop) out.old) }
{
    if out.len() < 512 {
        return 0;
    }
    let p = put_stop(out, 0, stop);
    put_counts(out, p, progress)
}
