//! Lists of pairs, by their numbers.

ghost use Rattle.std.specs.Prelude.{◌≡◌, [], map, IfOk, IsTrue};
ghost use Rattle.congee_tree.specs.Bulk.{put_all};

use face_typed::typed_congee::Congee;
use node_table::allocator::{Allocator, DefaultAllocator};
use spec_map::error::OOMError;
use spec_map::traits::Word;
use std::alloc::{AllocError, Global};

/// The keys and values that these numbers are read back as.
pub fn pairs_back<K: Word, V: Word>(
    alloc: Global,
    numbers: &[(u64, u64)],
) -> Result<Vec<(K, V)>, AllocError>
    ensures { IfOk result (λ pairs.
        pairs.items ≡ map (λ p. (K.of_number p.0, V.of_number p.1)) numbers.now) }
{
    let mut pairs = Vec::with_capacity(alloc, numbers.len())?;
    for &(key, value) in numbers {
        pairs.push((K::from_u64(key), V::from_u64(value)))?;
    }
    Ok(pairs)
}

/// The keys that the first of these numbers are read back as.
pub fn keys_back<K: Word>(alloc: Global, numbers: &[(u64, u64)]) -> Result<Vec<K>, AllocError>
    ensures { IfOk result (λ keys. keys.items ≡ map (λ p. K.of_number p.0) numbers.now) }
{
    let mut keys = Vec::with_capacity(alloc, numbers.len())?;
    for &(key, _) in numbers {
        keys.push(K::from_u64(key))?;
    }
    Ok(keys)
}

/// The pairs of a map with one owner, by their numbers.
pub fn numbers_of<K: Word, V: Word, A: Allocator>(
    alloc: Global,
    owned: &Congee<K, V, A>,
) -> Result<Vec<(u64, u64)>, AllocError>
    ensures { IfOk result (λ numbers. numbers.items ≡ owned.now.pairs) }
{
    let Ok(count) = usize::try_from(owned.value_count()) else {
        return Err(AllocError);
    };
    let mut numbers = vec![in alloc; (0, 0); count]?;
    owned.law_ordered();
    let _ = owned.range_inclusive_of(0, u64::MAX, &mut numbers);
    Ok(numbers)
}

/// A map with one owner, with these pairs, by their numbers.
pub fn owned_of<K: Word, V: Word>(
    alloc: Global,
    numbers: &[(u64, u64)],
) -> Result<Congee<K, V>, OOMError>
    ensures { IfOk result (λ owned.
        owned.pairs ≡ put_all (λ key. key) (λ value. value) [] numbers.now) }
{
    let mut owned = Congee::new(alloc, DefaultAllocator {})?;
    owned.insert_numbers(numbers)?;
    Ok(owned)
}

/// Whether two lists of pairs are the same.
pub fn is_same(a: &[(u64, u64)], b: &[(u64, u64)]) -> bool
    ensures { IsTrue result → a.now ≡ b.now }
{
    a == b
}
