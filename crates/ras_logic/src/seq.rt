ghost use Rattle.std.specs.Prelude.{◌≡◌, ◌≤◌, [], ◌∷◌, ◌++◌, length, IfOk, OnOk, OnErr};

use crate::ids::RelId;
use crate::plain::Plain;
use std::alloc::{AllocError, Global};
use std::marker::Model;

/// A list with room for `ROOM` elements: a `Vec` that contracts see as its elements.
#[derive(Debug, Drop)]
pub struct Seq<T, const ROOM: usize> {
    items: Vec<T>,
}

/// A list whose elements a `u32` counts.
pub type List<T> = Seq<T, 4_294_967_295>;

/// The named rows of a cube or a problem, each of a relation: a `u16` names one.
pub type Rows = Seq<RelId, 65_535>;

impl<T, const ROOM: usize> Model for Seq<T, ROOM> {
    ghost use Rattle.std.specs.Prelude.{List, length, ◌≤◌};
    ghost use Rattle.std.specs.Coded.{coded_list};

    ghost Value = { List T };

    ghost coded = { coded_list T.code };

    ghost view = { λ s. s.items.items };

    ghost invariant = { λ s. length s.items.items ≤ ROOM };
}

impl<T, const ROOM: usize> Seq<T, ROOM> {
    /// No elements.
    pub fn new(alloc: Global) -> Seq<T, ROOM>
        ensures { result ≡ [] }
    {
        Seq {
            items: Vec::new(alloc),
        }
    }

    /// No elements, and memory for so many already.
    pub fn with_capacity(alloc: Global, count: usize) -> Result<Seq<T, ROOM>, AllocError>
        ensures { IfOk result (λ seq. seq ≡ []) }
    {
        let items = Vec::with_capacity(alloc, count)?;
        Ok(Seq { items })
    }

    /// The elements of a `Vec`, which takes no memory.
    pub fn from_vec(items: Vec<T>) -> Seq<T, ROOM>
        requires { length items.items ≤ ROOM }
        ensures { result ≡ items.items }
    {
        Seq { items }
    }

    /// The `Vec` of the elements, which takes no memory.
    pub fn into_vec(self) -> Vec<T>
        ensures items { result.items ≡ self }
        ensures room { length result.items ≤ ROOM }
    {
        let Seq { items } = self;
        items
    }

    pub fn as_slice(&self) -> &[T]
        ensures items { result.now ≡ self.now }
        ensures room { length self.now ≤ ROOM }
    {
        self.items.as_slice()
    }

    pub fn len(&self) -> usize
        ensures count { result ≡ length self.now }
        ensures room { result ≤ ROOM }
    {
        self.items.len()
    }
}

impl<T: Drop, const ROOM: usize> Seq<T, ROOM> {
    /// One element more. A list that has no room left refuses it as want of memory.
    pub fn push(&mut self, item: T) -> Result<(), AllocError>
        ensures ok { OnOk result (self.new ≡ self.old ++ item ∷ []) }
        ensures err { OnErr result (self.new ≡ self.old) }
    {
        if self.items.len() >= ROOM {
            return Err(AllocError);
        }
        self.items.push(item)?;
        Ok(())
    }
}

impl<T: Plain, const ROOM: usize> Plain for Seq<T, ROOM> {
    fn copy(&self, alloc: Global) -> Result<Self, AllocError> {
        let mut items = Vec::with_capacity(alloc, self.items.len())?;
        for item in &self.items {
            items.push(item.copy(alloc)?)?;
        }
        Ok(Seq { items })
    }

    fn equal(&self, other: &Self) -> bool {
        let left = self.items.as_slice();
        let right = other.items.as_slice();
        if left.len() != right.len() {
            return false;
        }
        for i in 0..left.len() {
            if !left[i].equal(&right[i]) {
                return false;
            }
        }
        true
    }
}
