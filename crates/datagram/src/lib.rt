// Symbols, whole datagrams and refusals: the words that every other layer shares.
#![tactic(auto)]

pub mod refusals;

ghost use Rattle.std.specs.Prelude.{◌≡◌, ◌+◌, ◌≤◌, ◌<◌, length, drop};
ghost use Rattle.datagram.specs.Padding.{all_zero, word_from};
ghost use Rattle.datagram.specs.Whole.{whole};

// A refusal's number and its place; module `refusals` has them all. The number is no enum: `listing::put_end`,
// `progress::placed_from` and `sender::refused_offer` take a refusal with any number.
#[derive(Clone, Copy)]
pub struct Refusal {
    pub number: u8,
    pub place: u64,
}

// Whether the bytes are one whole datagram.
#[tactic(auto, unfolding(crate::specs::Whole::whole))]
pub fn is_whole(bytes: &[u8]) -> bool
    ensures { result ≡ whole bytes.now }
{
    let n = bytes.len();
    3 <= n && n <= 18 && n == 3 + usize::from(bytes[1]) % 16
}

// Whether every byte from a position on is 0: eight at a time, the last eight where fewer are left, which may be seen twice. An
// iterator's all over single bytes takes a fifth more time for each symbol heard.
pub fn zeros_from(bytes: &[u8], from: usize) -> bool
    ensures { result ≡ all_zero (drop from bytes.now) }
{
    let n = bytes.len();
    if n < 8 {
        return zeros_one_by_one(bytes, from);
    }
    let last = n - 8;
    if last < from {
        return zeros_one_by_one(bytes, from);
    }
    for i in (from..last).step_by(8) {
        if eight(bytes, i) != 0 {
            return false;
        }
    }
    eight(bytes, last) == 0
}

// The same, byte by byte.
fn zeros_one_by_one(bytes: &[u8], from: usize) -> bool
    ensures { result ≡ all_zero (drop from bytes.now) }
{
    bytes.iter().skip(from).all(|&b| b == 0)
}

// Eight bytes as one number of 64 bits, which the machine reads at once.
fn eight(bytes: &[u8], at: usize) -> u64
    requires { at + 8 ≤ length bytes.now }
    ensures { result ≡ word_from bytes.now at 0 8 }
{
    u64::from_le_bytes([
        bytes[at],
        bytes[at + 1],
        bytes[at + 2],
        bytes[at + 3],
        bytes[at + 4],
        bytes[at + 5],
        bytes[at + 6],
        bytes[at + 7],
    ])
}
