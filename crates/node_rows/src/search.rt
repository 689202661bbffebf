//! The search among forty-eight bytes, sixteen at once.
//!
//! Tested in `test_owned` and `tools/dev/try-commands`.

ghost use Rattle.std.specs.Prelude.{◌≡◌, ◌≤◌, nat_lt, take, drop, count_by};

use node_base::lanes::rank;

// How many of the first `count` bytes from a place on are below this one.
#[inline(always)]
fn rank_from(keys: &[u8; 48], from: usize, count: usize, byte: u8) -> usize
    requires inside { from ≤ 32 }
    requires few { count ≤ 16 }
    ensures { result ≡ count_by (λ x. nat_lt x byte) (take count (drop from keys.now)) }
{
    let Some(lanes) = keys[from..].first_chunk() else {
        unreachable!()
    };
    rank(lanes, count, byte)
}

/// How many of the first `count` bytes are below this one: where they ascend, its place among them.
#[inline(always)]
pub(crate) fn rank_48(keys: &[u8; 48], count: usize, byte: u8) -> usize
    requires { count ≤ 48 }
    ensures { result ≡ count_by (λ x. nat_lt x byte) (take count keys.now) }
{
    if count <= 16 {
        return rank_from(keys, 0, count, byte);
    }
    let low = rank_from(keys, 0, 16, byte);
    if count <= 32 {
        return low + rank_from(keys, 16, count - 16, byte);
    }
    low + rank_from(keys, 16, 16, byte) + rank_from(keys, 32, count - 32, byte)
}
