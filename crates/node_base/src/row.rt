//! Children in a row, and the index of all bytes that a `Node48` has: for each byte the place of its child.
//!
//! Tested in `congee_nodes`.

ghost use Rattle.std.specs.Prelude.{◌≡◌, ◌≢◌, ℕ, ◌+◌, ◌<◌, ◌≤◌, [], ◌∷◌, ◌++◌, length, replicate, IfSome, IfNone, slice_index, vec_len, vec_capacity};

use crate::lanes::first_below;

/// Puts a child at the end of a row with room for it.
pub fn add<C: Drop>(row: &mut Vec<C>, child: C)
    requires room { vec_len row.old < vec_capacity row.old }
    ensures added { row.new.items ≡ row.old.items ++ child ∷ [] }
    ensures capacity { vec_capacity row.old ≤ vec_capacity row.new }
{
    match row.push(child) {
        Ok(()) => {}
        Err(_) => unreachable!(),
    }
}

/// Moves a whole row to the end of another with room for it.
pub fn move_row<C>(from: &mut Vec<C>, to: &mut Vec<C>)
    requires room { vec_len to.old + vec_len from.old ≤ vec_capacity to.old }
    ensures moved { to.new.items ≡ to.old.items ++ from.old.items }
    ensures none { from.new.items ≡ [] }
    ensures capacity { vec_capacity to.old ≤ vec_capacity to.new }
    ensures room_stays { vec_capacity from.new ≡ vec_capacity from.old }
{
    match to.append(from) {
        Ok(()) => {}
        Err(_) => unreachable!(),
    }
}

/// Gives all bytes one place.
pub fn place_all(index: &mut [u8; 256], place: u8)
    ensures { index.new ≡ replicate 256 place }
{
    *index = [place; 256];
}

/// Gives each of these bytes its place among them; the other bytes keep the places that they have.
pub fn place_bytes(index: &mut [u8; 256], bytes: &[u8])
    requires few { length bytes.now ≤ 256 }
    requires apart { (i j : ℕ) → i < j → j < length bytes.now
        → slice_index bytes.now i ≢ slice_index bytes.now j }
    ensures placed { (i : ℕ) → i < length bytes.now
        → slice_index index.new (slice_index bytes.now i) ≡ i }
    ensures others { (b : ℕ) → ((i : ℕ) → i < length bytes.now → slice_index bytes.now i ≢ b)
        → slice_index index.new b ≡ slice_index index.old b }
{
    for i in 0..bytes.len() {
        index[bytes[i] as usize] = i as u8;
    }
}

/// Every byte that has the place `from` gets the place `to`; the others keep theirs.
///
/// It writes each byte of the index, whether or not it changes, so that the compiler can do many at once.
pub fn redirect(index: &mut [u8; 256], from: u8, to: u8)
    ensures moved { (b : ℕ) → b < 256 → slice_index index.old b ≡ from
        → slice_index index.new b ≡ to }
    ensures others { (b : ℕ) → b < 256 → slice_index index.old b ≢ from
        → slice_index index.new b ≡ slice_index index.old b }
{
    for i in 0..256 {
        index[i] = if index[i] == from { to } else { index[i] };
    }
}

// A byte from this number on, before which none has a place below the limit. It passes sixteen bytes in a step, and
// ends within the last sixteen at the latest.
fn pass_free(index: &[u8; 256], from: usize, limit: u8) -> usize
    ensures order { from ≤ result }
    ensures free { (b : ℕ) → from ≤ b → b < result → limit ≤ slice_index index.now b }
{
    let mut at = from;
    while at <= 240 {
        let Some(lanes) = index[at..].first_chunk() else {
            return at;
        };
        let skip = first_below(lanes, limit);
        at += skip;
        if skip < 16 {
            return at;
        }
    }
    at
}

/// The first byte from this number on whose place is below a count, or `None`.
pub fn next_placed(index: &[u8; 256], from: usize, count: usize) -> Option<u8>
    ensures order { IfSome result (λ byte. from ≤ byte) }
    ensures here { IfSome result (λ byte. slice_index index.now byte < count) }
    ensures free { IfSome result (λ byte. (b : ℕ) → from ≤ b → b < byte
        → count ≤ slice_index index.now b) }
    ensures none { IfNone result ((b : ℕ) → from ≤ b → b < 256
        → count ≤ slice_index index.now b) }
{
    let mut at = if count > 255 {
        from
    } else {
        pass_free(index, from, count as u8)
    };
    while at < 256 {
        if (index[at] as usize) < count {
            return Some(at as u8);
        }
        at += 1;
    }
    None
}

/// The last byte below this number whose place is below a count, or `None`.
pub fn last_placed(index: &[u8; 256], to: usize, count: usize) -> Option<u8>
    requires { to ≤ 256 }
    ensures order { IfSome result (λ byte. byte < to) }
    ensures here { IfSome result (λ byte. slice_index index.now byte < count) }
    ensures free { IfSome result (λ byte. (b : ℕ) → byte < b → b < to
        → count ≤ slice_index index.now b) }
    ensures none { IfNone result ((b : ℕ) → b < to → count ≤ slice_index index.now b) }
{
    let mut at = to;
    while at > 0 {
        at -= 1;
        if (index[at] as usize) < count {
            return Some(at as u8);
        }
    }
    None
}

/// The byte of each place that one byte alone has.
///
/// It writes for each byte of the index, so that no step depends on which bytes have a child.
pub fn bytes_by_place(index: &[u8; 256]) -> [u8; 256]
    ensures { (b : ℕ) → b < 256
        → ((d : ℕ) → d < 256 → slice_index index.now d ≡ slice_index index.now b → d ≡ b)
        → slice_index result (slice_index index.now b) ≡ b }
{
    let mut bytes = [0; 256];
    for b in 0..256 {
        bytes[index[b] as usize] = b as u8;
    }
    bytes
}
