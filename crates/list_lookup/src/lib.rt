// The number at an index of a list of constants.
#![tactic(auto)]

ghost use Rattle.std.specs.Prelude.{◌≡◌, get_or};

// The number at an index, and 0 past the end, as the clause has it. A public call, though one line of the library's says it.
pub fn number_at(list: &[u16], index: u32) -> u16
    ensures { result ≡ get_or list.now index 0 }
{
    list.get(index as usize).copied().unwrap_or(0)
}
