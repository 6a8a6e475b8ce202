ghost use Rattle.std.specs.Prelude.{◌≡◌, ◌<◌, ◌≤◌, ◌↔◌, [], ◌∷◌, ◌++◌, length, IsOk, OnOk, OnErr, IsTrue};

use std::marker::Model;
use thiserror::Error;

// At most `N` values in order, the first `len` of the array; what lies past them is of no account.
// An array with a length beside it, since the library uses no heap.
#[derive(Drop)]
pub struct ArrayVec<T: Copy, const N: usize> {
    items: [T; N],
    len: usize,
}

// Clauses see the values, in order.
impl<T: Copy, const N: usize> Model for ArrayVec<T, N> {
    ghost use Rattle.std.specs.Prelude.{◌≡◌, ◌≤◌, List, length, take};
    ghost use Rattle.std.specs.Coded.{coded_list};

    ghost Value = { List T };

    ghost coded = { coded_list T.code };

    ghost view = { λ v. take v.len v.items };

    ghost invariant = { λ v. (v.len ≤ N) × (length v.items ≡ N) };
}

// There are `N` values already.
#[derive(Clone, Copy, Debug, PartialEq, Eq, Error)]
#[error("there is no room for another value")]
pub struct Full;

impl<T: Copy, const N: usize> ArrayVec<T, N> {
    // No value; `fill` stands in the places that are not used yet.
    pub fn new(fill: T) -> Self
        ensures { result ≡ [] }
    {
        ArrayVec {
            items: [fill; N],
            len: 0,
        }
    }

    // How many there are.
    pub fn len(&self) -> usize
        ensures value { result ≡ length self.now }
        ensures fits { result ≤ N }
    {
        self.as_slice().len()
    }

    // Whether there are `N` already.
    pub fn is_full(&self) -> bool
        ensures value { IsTrue result ↔ (N ≤ length self.now) }
        ensures fits { length self.now ≤ N }
    {
        self.len >= N
    }

    // Adds `x` at the end, where there are fewer than `N`.
    pub fn try_push(&mut self, x: T) -> Result<(), Full>
        ensures room { IsOk result ↔ (length self.old < N) }
        ensures ok { OnOk result (self.new ≡ self.old ++ x ∷ []) }
        ensures err { OnErr result (self.new ≡ self.old) }
        ensures fits { length self.new ≤ N }
    {
        if self.is_full() {
            return Err(Full);
        }
        self.items[self.len] = x;
        self.len += 1;
        Ok(())
    }

    // The values, in order.
    pub fn as_slice(&self) -> &[T]
        ensures value { result.now ≡ self.now }
        ensures fits { length result.now ≤ N }
    {
        &self.items[..self.len]
    }
}
