// Lists of a bounded length, held in an array of their own, so that none can fail for want of memory.
#![tactic(auto)]

ghost use Rattle.std.specs.Prelude.{◌≡◌, ◌+◌, ◌<◌, ◌≤◌, [], ◌∷◌, ◌++◌, length, take, ⊤};

use std::alloc::AllocError;

// At most N items: the first `len` of the array. What the other places hold is of no account.
pub struct Bounded<T, const N: usize> {
    places: [T; N],
    len: usize,
    ghost within: { len ≤ N },
}

impl<T: Copy, const N: usize> Clone for Bounded<T, N> {
    ghost is_clone = { λ x y. y ≡ x };

    ghost is_infallible = { λ _. ⊤ };

    fn clone(&self) -> Result<Self, AllocError> {
        Ok(*self)
    }
}

impl<T: Copy, const N: usize> Copy for Bounded<T, N> {}

impl<T: Copy, const N: usize> Bounded<T, N> {
    ghost use Rattle.bounded.specs.Items.{items};

    // No items; the unused places hold `blank`.
    pub fn new(blank: T) -> Self
        ensures { items result ≡ [] }
    {
        Bounded {
            places: [blank; N],
            len: 0,
        }
    }

    // The first `len` items of an array.
    pub fn front_of(places: [T; N], len: usize) -> Self
        requires { len ≤ N }
        ensures { items result ≡ take len places }
    {
        Bounded { places, len }
    }

    // The items of a list that is short enough.
    pub fn copy_of(list: &[T], blank: T) -> Self
        requires { length list.now ≤ N }
        ensures { items result ≡ list.now }
    {
        let mut places = [blank; N];
        places[..list.len()].copy_from_slice(list);
        Bounded {
            places,
            len: list.len(),
        }
    }

    // The number of items.
    pub fn len(&self) -> usize
        ensures number { result ≡ length (items self.now) }
        ensures within { result ≤ N }
    {
        self.as_slice().len()
    }

    // The items.
    pub fn as_slice(&self) -> &[T]
        ensures { result.now ≡ items self.now }
    {
        &self.places[..self.len]
    }

    // Puts one more item at the end, where there is room.
    pub fn push(&mut self, item: T)
        requires { length (items self.old) < N }
        ensures { items self.new ≡ items self.old ++ item ∷ [] }
    {
        self.places[self.len] = item;
        self.len += 1;
    }
}
