ghost use Rattle.std.specs.Prelude.{◌≡◌, [], ◌∷◌, ◌++◌, false, ◌≤◌, length, IfOk, OnOk, IfSome, is_some};
ghost use Rattle.ras_names.specs.Checks.{is_among};
ghost use Rattle.ras_scope.specs.Finding.{Finds};

use crate::name_set::NameSet;
use ras_lexer::Text;
use ras_logic::List;
use std::alloc::{AllocError, Global};

/// Names in the order of their numbers, and what stands behind the colon of each.
#[derive(Drop)]
pub struct Table<T> {
    names: NameSet,
    values: Vec<T>,
    ghost as_long: { length values.items ≡ length names },
}

impl<T: Copy> Table<T> {
    /// No names.
    pub fn new(alloc: Global) -> Table<T>
        ensures names { result.names ≡ [] }
        ensures values { result.values.items ≡ [] }
    {
        Table {
            names: NameSet::new(alloc),
            values: Vec::new(alloc),
        }
    }

    /// The names alone.
    pub fn names(&self) -> &NameSet
        ensures { result.now ≡ self.now.names }
    {
        &self.names
    }

    /// What stands behind the colons.
    pub fn values(&self) -> &[T]
        ensures values { result.now ≡ self.now.values.items }
        ensures few { length result.now ≤ 65535 }
    {
        // As many as there are names, which a `u16` counts.
        let _few = self.names.count();
        self.values.as_slice()
    }

    /// The number of a name, and what stands behind its colon.
    pub fn find(&self, name: &Text) -> Option<(u16, T)>
        ensures found { IfSome result (Finds self.now.names self.now.values.items name.now) }
        ensures known { is_some result ≡ is_among self.now.names name.now }
    {
        let n = self.names.number(name)?;
        Some((n, self.values.as_slice()[n as usize]))
    }

    /// One name more. A table that has no room left refuses it as want of memory.
    pub fn add(&mut self, name: Text, value: T) -> Result<(), AllocError>
        requires { is_among self.old.names name ≡ false }
        ensures names { OnOk result (self.new.names ≡ self.old.names ++ name ∷ []) }
        ensures values { OnOk result (self.new.values.items ≡ self.old.values.items ++ value ∷ []) }
    {
        self.values.push(value)?;
        match self.names.add(name) {
            Ok(()) => Ok(()),
            Err(error) => {
                self.values.pop();
                Err(error)
            }
        }
    }

    /// What stands behind the colons, as a list.
    pub fn into_values(self) -> List<T>
        ensures { result ≡ self.values.items }
    {
        let Table { names: _, values } = self;
        List::from_vec(values)
    }

    /// The names, and what stands behind their colons.
    pub fn parts(self, alloc: Global) -> Result<(List<Text>, Vec<T>), AllocError>
        ensures names { IfOk result (λ p. p.0 ≡ self.names) }
        ensures values { IfOk result (λ p. p.1.items ≡ self.values.items) }
        ensures few { IfOk result (λ p. length p.1.items ≤ 65535) }
    {
        let Table { names, values } = self;
        let list = names.list(alloc)?;
        Ok((list, values))
    }
}
