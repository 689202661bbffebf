//! Which segment a word is in, how many words a segment has, and which shelf it is on.
ghost use Rattle.std.specs.Prelude.{◌≡◌, ◌+◌, ◌*◌, ◌/◌, ◌<◌, ◌≤◌, ◌^◌};
ghost use Rattle.boxcar.specs.Table.{span, IsAt};
ghost use Rattle.word_segments.specs.Segments.{size, before, keys, IsWithin};

/// How many shelves a directory has. Shelf `b` is for `32 * 2^b` segments.
pub const SHELVES: usize = 40;

/// How many keys each segment has, also where it has fewer words.
pub const KEYS: u64 = 65_536;

/// How many words the segment `number` has.
pub fn size_of(number: u64) -> usize
    ensures { (result ≡ size number) × (512 ≤ result) × (result ≤ keys) }
{
    if number < 224 {
        512 << (number / 32)
    } else {
        65536
    }
}

/// How many words all segments before `number` have.
pub fn before_of(number: u64) -> u64
    requires { number < 2 ^ 44 }
    ensures { (result ≡ before number) × (result < 2 ^ 61) }
{
    if number < 224 {
        ((32 + number % 32) << (number / 32 + 9)) - 16384
    } else {
        (number - 224) * 65536 + 2080768
    }
}

// The segment of a word among those that double, and the word's place there. By 16,384 more, a place has its segment in the five
// bits below its highest one.
fn locate_near(place: u64) -> (u64, u64)
    requires { place < 2080768 }
    ensures within { IsWithin place result.0 result.1 }
    ensures small { result.0 < 224 }
{
    let skewed = place + 16384;
    let top = skewed.ilog2();
    let unit = top - 5;
    let at = skewed >> unit;
    (32 * top as u64 + at - 480, skewed - (at << unit))
}

// The segment of a word behind these, and the word's place there.
fn locate_far(place: u64) -> (u64, u64)
    requires { 2080768 ≤ place }
    ensures within { IsWithin place result.0 result.1 }
    ensures small { result.0 ≤ place / 65536 + 224 }
{
    let rest = place - 2080768;
    (rest / 65536 + 224, rest % 65536)
}

/// How many segments fit into so many bytes, from the first one on.
pub fn fitting(bytes: u64) -> u64
    ensures fits { 8 * before result ≤ bytes }
    ensures most { bytes < 8 * before (result + 1) }
{
    locate(bytes / 8).0
}

/// The segment of a word by its place among the words of all segments, and the word's place there.
pub fn locate(place: u64) -> (u64, u64)
    ensures within { IsWithin place result.0 result.1 }
    ensures small { result.0 ≤ place / 65536 + 224 }
{
    if place < 2080768 {
        return locate_near(place);
    }
    locate_far(place)
}

/// The shelf of a segment, and the segment's slot there.
pub fn shelve(number: u64) -> (usize, usize)
    requires { number < 2 ^ 44 + 225 }
    ensures at { IsAt number result.0 result.1 }
    ensures shelf { result.0 < 40 }
{
    let skewed = number as usize + 32;
    let shelf = skewed.ilog2() as usize - 5;
    (shelf, skewed - span_of(shelf))
}

/// How many segments a shelf is for.
pub fn span_of(shelf: usize) -> usize
    requires { shelf < 40 }
    ensures { (result ≡ span shelf) × (result < 2 ^ 46) }
{
    32 << shelf
}
