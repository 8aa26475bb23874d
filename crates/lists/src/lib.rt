// Which places of a lent list count: the first 2^28. What lies behind them is neither read nor written.
#![tactic(auto)]

ghost use Rattle.std.specs.Prelude.{◌≡◌, ◌^◌, ◌≤◌, min, length, take, slice_index_or};
ghost use Rattle.lists.specs.Counted.{counted};

// So many places count at most.
const LIMIT: usize = 268_435_456;

// How many places of a list of `len` count.
pub fn counted_len(len: usize) -> usize
    ensures { result ≡ min len (2 ^ 28) }
{
    len.min(LIMIT)
}

// The part of a list that counts.
pub fn counted<T>(list: &[T]) -> &[T]
    ensures value { result.now ≡ counted list.now }
    ensures few { length result.now ≤ 2 ^ 28 }
{
    front(list, LIMIT)
}

// The first `count` places of a list, or the whole list if it has no more.
pub fn front<T>(list: &[T], count: usize) -> &[T]
    ensures { result.now ≡ take count list.now }
{
    list.get(..count).unwrap_or(list)
}

// What stands at a place of a list, or `other` where the list has no such place.
pub fn item_or<T: Copy>(list: &[T], place: usize, other: T) -> T
    ensures { result ≡ slice_index_or list.now place other }
{
    list.get(place).copied().unwrap_or(other)
}
