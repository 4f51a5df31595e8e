// Little-endian fields of a byte slice.
#![tactic(auto)]

ghost use Rattle.std.specs.Prelude.{◌≡◌, ◌+◌, ◌<◌, length};
ghost use Rattle.le.specs.Le.{u16_at, u32_at, set16, set32};

#[tactic(auto, unfolding(crate::specs::Le::u16_at))]
pub fn get16(s: &[u8], p: usize) -> u16
    requires { p + 1 < length s.now }
    ensures { result ≡ u16_at s.now p }
{
    u16::from_le_bytes([s[p], s[p + 1]])
}

#[tactic(auto, unfolding(crate::specs::Le::u16_at, crate::specs::Le::u32_at))]
pub fn get32(s: &[u8], p: usize) -> u32
    requires { p + 3 < length s.now }
    ensures { result ≡ u32_at s.now p }
{
    u32::from_le_bytes([s[p], s[p + 1], s[p + 2], s[p + 3]])
}

#[tactic(auto, unfolding(crate::specs::Le::set16))]
pub fn put16(s: &mut [u8], p: usize, v: u16)
    requires { p + 1 < length s.old }
    ensures { s.new ≡ set16 s.old p v }
{
    let [low, high] = v.to_le_bytes();
    s[p] = low;
    s[p + 1] = high;
}

pub fn put32(s: &mut [u8], p: usize, v: u32)
    requires { p + 3 < length s.old }
    ensures { s.new ≡ set32 s.old p v }
{
    let [first, second, third, fourth] = v.to_le_bytes();
    s[p] = first;
    s[p + 1] = second;
    s[p + 2] = third;
    s[p + 3] = fourth;
}
