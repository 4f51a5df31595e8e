// Numbers as text.
#![tactic(auto)]

ghost use Rattle.std.specs.Prelude.{◌≡◌, ◌+◌, ◌≤◌, ◌++◌, length, decimal};
ghost use Rattle.arrayvec.specs.ArrayString.{array_string_len};

use arrayvec::ArrayString;
use itoa::Buffer;

// Appends a number in decimal.
pub fn push_decimal<const MOST: usize>(text: &mut ArrayString<MOST>, number: u64)
    requires { array_string_len text.old + length (decimal number) ≤ MOST }
    ensures bytes { text.new.bytes ≡ text.old.bytes ++ decimal number }
    ensures len { array_string_len text.new ≡ array_string_len text.old + length (decimal number) }
{
    text.push_str(Buffer::new().format(number));
}
