//! Bytes in ascending order at the front of an array.
//!
//! Tested in `congee_nodes`.

ghost use Rattle.std.specs.Prelude.{◌≡◌, ℕ, ◌+◌, ◌-◌, ◌<◌, ◌≤◌, length, take, slice_index};
ghost use Rattle.node_base.specs.inner.Sorted.{below};

/// How many of the first `count` bytes precede the first that isn't below this one: if they ascend, its place.
pub fn place(keys: &[u8], count: usize, byte: usize) -> usize
    requires { count ≤ length keys.now }
    ensures at { result ≡ below (take count keys.now) byte }
    ensures inside { result ≤ count }
{
    let keys = &keys[..count];
    let mut i = 0;
    while i < keys.len() && (keys[i] as usize) < byte {
        i += 1;
    }
    i
}

/// Puts a byte at a place among the first `count`, and moves those after it up.
pub fn insert_byte(keys: &mut [u8], count: usize, at: usize, byte: u8)
    requires order { at ≤ count }
    requires room { count < length keys.old }
    ensures before { (k : ℕ) → k < at → slice_index keys.new k ≡ slice_index keys.old k }
    ensures here { slice_index keys.new at ≡ byte }
    ensures after { (k : ℕ) → at ≤ k → k < count
        → slice_index keys.new (k + 1) ≡ slice_index keys.old k }
{
    let mut j = count;
    while j > at {
        keys[j] = keys[j - 1];
        j -= 1;
    }
    keys[at] = byte;
}

/// Takes out the byte at a place among the first `count`, and moves those after it down.
pub fn remove_byte(keys: &mut [u8], count: usize, at: usize)
    requires inside { at < count }
    requires within { count ≤ length keys.old }
    ensures before { (k : ℕ) → k < at → slice_index keys.new k ≡ slice_index keys.old k }
    ensures after { (k : ℕ) → at ≤ k → k + 1 < count
        → slice_index keys.new k ≡ slice_index keys.old (k + 1) }
{
    let mut j = at;
    while j + 1 < count {
        keys[j] = keys[j + 1];
        j += 1;
    }
}
