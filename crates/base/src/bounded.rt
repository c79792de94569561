// A list of at most N elements that lies in an array and needs no heap.
ghost use Rattle.std.specs.Prelude.{◌≡◌, ◌≤◌, List, length, take};

use std::marker::Model;

#[derive(Drop)]
pub struct BoundedList<T: Copy, const N: usize> {
    items: [T; N],
    len: usize,
}

// Clauses see the elements that it holds.
impl<T: Copy, const N: usize> Model for BoundedList<T, N> {
    ghost Value = { List T };

    ghost view = { λ l. take l.len l.items };

    ghost invariant = { λ l. (l.len ≤ N) × (length l.items ≡ N) };
}

// Why a list was not altered.
#[derive(Clone, Copy, PartialEq, Eq, Debug)]
pub enum ListFault {
    Full,
    NoSuchPlace,
}

pub mod methods;
