// Lists of at most N elements that lie in the value itself: they take no memory of their own, and are copied like numbers where their elements are.
#![tactic(auto, unfolding(crate::specs::Bounded::items, crate::specs::Bounded::places))]

ghost use Rattle.std.specs.Prelude.{◌≡◌, ◌<◌, ◌≤◌, ◌↔◌, [], ◌∷◌, ◌++◌, length, set, slice_index_or, ℕ, IsOk, IsSome, IfOk, IfNone, OnOk, OnErr, OnSome, ⊤};
ghost use Rattle.std.specs.Option.{option_to_list};
ghost use Rattle.std.specs.List.{AllZip};
ghost use Rattle.std.specs.Array.{AllZipBelow};
ghost use Rattle.std.specs.Array.Iter.{IntoIterFitsInMemory};

use std::alloc::AllocError;

#[cfg(test)]
mod tests;

/// Says that a list has as many elements as it can have.
#[derive(Clone, Copy, Debug, PartialEq, Eq)]
pub struct Full;

/// A list of at most N elements. In clauses `items xs` are its elements.
// No `impl Model`: a struct that has one and holds a reference cannot yet be copied in proved code.
#[derive(Debug)]
pub struct Bounded<T, const N: usize> {
    places: [T; N],
    len: usize,
    ghost few: { len ≤ N },
    ghost wide: { length places ≡ N },
}

// By hand, since a generic struct with a ghost field derives no `Clone`.
impl<T: Copy, const N: usize> Clone for Bounded<T, N> {
    ghost is_clone = { λ x y. y ≡ x };

    ghost is_infallible = { λ _. ⊤ };

    fn clone(&self) -> Result<Bounded<T, N>, AllocError> {
        Ok(*self)
    }
}

impl<T: Copy, const N: usize> Copy for Bounded<T, N> {}

impl<T: Clone, const N: usize> Bounded<T, N> {
    ghost use Rattle.bounded.specs.Bounded.{items, places};

    /// A list of clones. It doesn't fail if no clone of what lies in its places can, unused ones too, and an `IntoIter<T, N>` fits in memory.
    // Not `clone`, which says of elements that are `Copy` that it gives the same list and never fails.
    pub fn clones(&self) -> Result<Bounded<T, N>, AllocError>
        ensures length { IfOk result (λ b. length (items b) ≡ length (items self.now)) }
        ensures items { IfOk result (λ b. AllZip T.is_clone (items self.now) (items b)) }
        ensures places { IfOk result (λ b. AllZipBelow T.is_clone (places self.now) (places b) N) }
        ensures succeeds { IntoIterFitsInMemory T.row N.row → ((i : ℕ) (d : T) → i < N → T.is_infallible (slice_index_or (places self.now) i d)) → IsOk result }
    {
        Ok(Bounded {
            places: self.places.clone()?,
            len: self.len,
        })
    }
}

impl<T: Copy, const N: usize> Bounded<T, N> {
    ghost use Rattle.bounded.specs.Bounded.{items};

    /// No element. The filler lies in the unused places, where nobody sees it.
    pub fn new(filler: T) -> Bounded<T, N>
        ensures { items result ≡ [] }
    {
        Bounded {
            places: [filler; N],
            len: 0,
        }
    }

    /// These elements, if they are not too many.
    pub fn from_slice(filler: T, elements: &[T]) -> Result<Bounded<T, N>, Full>
        ensures fits { IsOk result ↔ (length elements.now ≤ N) }
        ensures items { IfOk result (λ b. items b ≡ elements.now) }
    {
        let len = elements.len();
        if len > N {
            return Err(Full);
        }
        let mut places = [filler; N];
        places[..len].copy_from_slice(elements);
        Ok(Bounded { places, len })
    }

    /// The elements, in their order.
    pub fn as_slice(&self) -> &[T]
        ensures items { result.now ≡ items self.now }
        ensures fits { length result.now ≤ N }
    {
        &self.places[..self.len]
    }

    /// How many elements there are.
    pub fn len(&self) -> usize
        ensures length { result ≡ length (items self.now) }
        ensures fits { result ≤ N }
    {
        self.as_slice().len()
    }

    /// One element more, behind the others, unless there are N.
    pub fn push(&mut self, element: T) -> Result<(), Full>
        ensures fits { IsOk result ↔ (length (items self.old) < N) }
        ensures items { OnOk result (items self.new ≡ items self.old ++ (element ∷ [])) }
        ensures unchanged { OnErr result (self.new ≡ self.old) }
    {
        if self.len == N {
            return Err(Full);
        }
        self.places[self.len] = element;
        self.len += 1;
        Ok(())
    }

    /// This element in the place of the one at that number, if there is one.
    pub fn set(&mut self, at: usize, element: T)
        ensures items { items self.new ≡ set (items self.old) at element }
        ensures unchanged { length (items self.old) ≤ at → self.new ≡ self.old }
    {
        if at < self.len {
            self.places[at] = element;
        }
    }

    /// The last element, which is taken away, if there is one.
    pub fn pop(&mut self) -> Option<T>
        ensures some { IsSome result ↔ (0 < length (items self.old)) }
        ensures items { items self.old ≡ items self.new ++ option_to_list result }
        ensures room { OnSome result (length (items self.new) < N) }
        ensures unchanged { IfNone result (self.new ≡ self.old) }
    {
        if self.len == 0 {
            return None;
        }
        self.len -= 1;
        Some(self.places[self.len])
    }
}
