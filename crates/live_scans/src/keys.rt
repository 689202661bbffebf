//! Keys as numbers: the first and the last one with given upper bytes.
ghost use Rattle.std.specs.Prelude.{◌≡◌, ◌+◌, ◌-◌, ◌*◌, ◌^◌, ◌<◌, ◌≤◌, cond, IsTrue};
ghost use Rattle.live_layout.specs.Order.{IsFrom};
ghost use Rattle.live_nodes.specs.Levels.{up};
ghost use Rattle.live_scans.specs.inner.Directions.{EndsLeaf, IsNextKey};

/// How many keys a node of this height has.
pub fn span(height: usize) -> u64
    requires { height < 8 }
    ensures { result ≡ 256 ^ height }
{
    match height {
        0 => 1,
        1 => 1 << 8,
        2 => 1 << 16,
        3 => 1 << 24,
        4 => 1 << 32,
        5 => 1 << 40,
        6 => 1 << 48,
        _ => 1 << 56,
    }
}

/// The bytes of a key above a node of this height.
#[inline(always)]
pub fn upper(key: u64, height: usize) -> u64
    requires { height ≤ 8 }
    ensures { result ≡ up height key }
{
    if height == 8 {
        return 0;
    }
    key >> (8 * height)
}

/// The last key that begins like this one down to a height, and has that byte there.
pub fn last_of(key: u64, height: usize, byte: u8) -> u64
    requires { (1 ≤ height) × (height ≤ 8) }
    ensures { up (height - 1) result ≡ 256 * up height key + byte }
{
    let begin = 256 * upper(key, height) + byte as u64;
    let rest = span(height - 1);
    begin * rest + (rest - 1)
}

/// The first key that begins like this one down to a height, and has that byte there.
pub fn first_of(key: u64, height: usize, byte: u8) -> u64
    requires { (1 ≤ height) × (height ≤ 8) }
    ensures { up (height - 1) result ≡ 256 * up height key + byte }
{
    let begin = 256 * upper(key, height) + byte as u64;
    begin * span(height - 1)
}

/// The last key in that direction, upwards (`true`) or downwards, that begins like this one down to a height, and has that byte there.
pub fn end_of(key: u64, height: usize, byte: u8, rising: bool) -> u64
    requires { (1 ≤ height) × (height ≤ 8) }
    ensures { up (height - 1) result ≡ 256 * up height key + byte }
{
    if rising {
        return last_of(key, height, byte);
    }
    first_of(key, height, byte)
}

/// The last byte in that direction.
pub fn end_byte(rising: bool) -> u8
    ensures { result ≡ cond rising 255 0 }
{
    if rising { 255 } else { 0 }
}

/// Whether a key isn't before another one in that direction, and is the last of a leaf.
pub fn ends_leaf(key: u64, last: u64, rising: bool) -> bool
    ensures { IsTrue result → IsFrom rising key last × EndsLeaf rising last }
{
    if rising {
        return last >= key && last % 256 == 255;
    }
    last <= key && last % 256 == 0
}

/// The key before one that is behind another, in that direction.
pub fn key_before(key: u64, rising: bool) -> u64
    requires some { cond rising (1 ≤ key) (key + 1 < 2 ^ 64) }
    ensures { IsNextKey rising result key }
{
    if rising {
        return key - 1;
    }
    key + 1
}

/// The first key of a node with this head.
pub fn floor_of(head: u64) -> u64 {
    let bytes = head.to_le_bytes();
    let all = u64::from_be_bytes([
        bytes[1], bytes[2], bytes[3], bytes[4], bytes[5], bytes[6], bytes[7], 0,
    ]);
    let rest = 8 * (8 - (bytes[0] % 8) as u32);
    if rest > 63 {
        return 0;
    }
    all >> rest << rest
}
