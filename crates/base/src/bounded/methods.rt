// The calls of a bounded list.
ghost use Rattle.std.specs.Prelude.{◌≡◌, ◌↔◌, ◌<◌, ◌≤◌, [], ◌∷◌, ◌++◌, length, IsOk, OnOk, IfErr, slice_set};
ghost use Rattle.std.specs.List.{slice_get};
ghost use Rattle.base.specs.declared.bounded.ListFault.TheVariants.{Full, NoSuchPlace};

use super::{BoundedList, ListFault};

impl<T: Copy, const N: usize> BoundedList<T, N> {
    // The empty list; `filler` stands in the places that are not used.
    pub fn new(filler: T) -> BoundedList<T, N>
        ensures { result ≡ [] }
    {
        BoundedList {
            items: [filler; N],
            len: 0,
        }
    }

    pub fn len(&self) -> usize
        ensures value { result ≡ length self.now }
        ensures bound { result ≤ N }
    {
        self.as_slice().len()
    }

    // One element more at the end; a full list stays.
    pub fn push(&mut self, x: T) -> Result<(), ListFault>
        ensures variant { IsOk result ↔ (length self.old < N) }
        ensures ok { OnOk result (self.new ≡ self.old ++ x ∷ []) }
        ensures err { IfErr result (λ f. (f ≡ Full) × (self.new ≡ self.old)) }
        ensures bound { length self.new ≤ N }
    {
        if self.len >= N {
            return Err(ListFault::Full);
        }
        self.items[self.len] = x;
        self.len += 1;
        Ok(())
    }

    // Another element at place i; where there is no such place, the list stays.
    pub fn set(&mut self, i: usize, x: T) -> Result<(), ListFault>
        ensures variant { IsOk result ↔ (i < length self.old) }
        ensures ok { OnOk result (self.new ≡ slice_set self.old i x) }
        ensures err { IfErr result (λ f. (f ≡ NoSuchPlace) × (self.new ≡ self.old)) }
        ensures bound { length self.new ≤ N }
    {
        if i >= self.len {
            return Err(ListFault::NoSuchPlace);
        }
        self.items[i] = x;
        Ok(())
    }

    pub fn get(&self, i: usize) -> Option<T>
        ensures value { result ≡ slice_get self.now i }
        ensures bound { length self.now ≤ N }
    {
        self.as_slice().get(i).copied()
    }

    pub fn as_slice(&self) -> &[T]
        ensures value { result.now ≡ self.now }
        ensures bound { length result.now ≤ N }
    {
        &self.items[..self.len]
    }
}
