// A list in fixed memory.
#![tactic(auto)]

ghost use Rattle.std.specs.Prelude.{◌≤◌};

use std::alloc::AllocError;
use std::error::Error;
use std::fmt;

// At most N items: the first `count` of the array. The places after them hold nothing that counts.
pub struct FixedList<T, const N: usize> {
    items: [T; N],
    count: usize,
    ghost within: { count ≤ N },
}

// There was no room for one item more.
#[derive(Clone, Copy, Debug, PartialEq, Eq)]
pub struct Full;

impl<T: Copy, const N: usize> Clone for FixedList<T, N> {
    ghost use Rattle.std.specs.Prelude.{◌≡◌, ⊤};

    ghost is_clone = { λ x y. y ≡ x };

    ghost is_infallible = { λ _. ⊤ };

    fn clone(&self) -> Result<FixedList<T, N>, AllocError> {
        Ok(*self)
    }
}

impl<T: Copy, const N: usize> Copy for FixedList<T, N> {}

impl<T: Copy + Default, const N: usize> FixedList<T, N> {
    ghost use Rattle.std.specs.Prelude.{◌≡◌, ◌↔◌, ◌<◌, ◌≤◌, [], ◌∷◌, ◌++◌, nat_eq, length, slice_index_or, IsSome, IsErr, IfSome, OnSome, IfNone, OnOk, OnErr, MatchOption};
    ghost use Rattle.std.specs.List.{remove};
    ghost use Rattle.fixed_list.specs.Items.{items_of};

    // A list of no item.
    pub fn new() -> FixedList<T, N>
        ensures { items_of result ≡ [] }
    {
        FixedList {
            items: [T::default(); N],
            count: 0,
        }
    }

    // These items, unless there is no room for so many.
    pub fn from_slice(items: &[T]) -> Option<FixedList<T, N>>
        ensures { MatchOption result (N < length items.now) (λ l. (length items.now ≤ N) × (items_of l ≡ items.now)) }
    {
        if items.len() > N {
            return None;
        }
        let mut held = [T::default(); N];
        held[..items.len()].copy_from_slice(items);
        Some(FixedList {
            items: held,
            count: items.len(),
        })
    }

    // The items, in their order.
    pub fn as_slice(&self) -> &[T]
        ensures { result.now ≡ items_of self.now }
    {
        &self.items[..self.count]
    }

    // How many items there are.
    pub fn len(&self) -> usize
        ensures counted { result ≡ length (items_of self.now) }
        ensures within { result ≤ N }
    {
        self.as_slice().len()
    }

    // Whether there is no item.
    pub fn is_empty(&self) -> bool
        ensures { result ≡ nat_eq (length (items_of self.now)) 0 }
    {
        self.count == 0
    }

    // One item more, the last; refused where the list is full.
    pub fn push(&mut self, item: T) -> Result<(), Full>
        ensures pushed { OnOk result (items_of self.new ≡ items_of self.old ++ (item ∷ [])) }
        ensures kept { OnErr result (self.new ≡ self.old) }
        ensures refused { IsErr result ↔ (length (items_of self.old) ≡ N) }
    {
        if self.count == N {
            return Err(Full);
        }
        self.items[self.count] = item;
        self.count += 1;
        Ok(())
    }

    // Takes out the item at place `k`, from 0: those after it move up by one.
    pub fn remove(&mut self, k: usize) -> Option<T>
        ensures item { IfSome result (λ x. x ≡ slice_index_or (items_of self.old) k x) }
        ensures moved { OnSome result (items_of self.new ≡ remove (items_of self.old) k) }
        ensures kept { IfNone result (self.new ≡ self.old) }
        ensures there { IsSome result ↔ (k < length (items_of self.old)) }
    {
        if self.count <= k {
            return None;
        }
        let removed = self.items[k];
        let mut items = self.items;
        let held = &mut items[..self.count];
        held.copy_within(k + 1.., k);
        *self = FixedList {
            items,
            count: self.count - 1,
        };
        Some(removed)
    }
}

impl fmt::Display for Full {
    ghost use Rattle.std.specs.Prelude.{Some, codes};

    ghost output = { λ _. Some (codes "the list is full") };

    fn fmt<W: fmt::Write>(&self, f: &mut fmt::Formatter<W>) -> fmt::Result {
        f.write_str("the list is full")
    }
}

impl Error for Full {}

#[cfg(test)]
mod tests {
    use super::{FixedList, Full};
    use std::test::Fail;

    #[test]
    fn room_for_three(rt: HostRuntime) {
        let mut list: FixedList<u8, 3> = FixedList::new();
        assert_eq!(rt; list.len(), 0);
        assert!(rt; list.is_empty());
        assert_eq!(rt; list.push(5), Ok(()));
        assert!(rt; !list.is_empty());
        assert_eq!(rt; list.push(6), Ok(()));
        assert_eq!(rt; list.push(7), Ok(()));
        assert_eq!(rt; list.push(8), Err(Full));
        assert!(rt; list.as_slice() == [5, 6, 7].as_slice());
    }

    #[test]
    fn one_taken_out(rt: HostRuntime) -> Result<(), Fail> {
        let Some(whole) = FixedList::<u8, 3>::from_slice(&[5, 6, 7]) else {
            return Err(Fail::new("refused"));
        };
        let mut list = whole;
        assert_eq!(rt; list.remove(3), None);
        assert_eq!(rt; list.remove(0), Some(5));
        assert!(rt; list.as_slice() == [6, 7].as_slice());
        assert!(rt; whole.as_slice() == [5, 6, 7].as_slice());
        assert!(rt; FixedList::<u8, 3>::from_slice(&[5, 6, 7, 8]).is_none());
        Ok(())
    }
}
