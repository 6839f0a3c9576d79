ghost use Rattle.std.specs.Prelude.{◌≡◌, ℕ, [], ◌∷◌, ◌++◌, false, ◌≤◌, length, position, is_some, IfOk, IfSome, OnOk, OnErr};
ghost use Rattle.std.specs.Str.{bytes_eq};
ghost use Rattle.ras_names.specs.Checks.{is_among};

use indexmap::IndexSet;
use ras_lexer::Text;
use ras_logic::List;
use std::alloc::{AllocError, Global};
use std::marker::Model;

/// How many names a set has at most, so that a `u16` numbers them.
const ROOM: usize = 65_535;

/// Among as many names one is found sooner by comparing it with each than by its hash.
const FEW: usize = 16;

/// Names in the order of their numbers, no two of them equal.
#[derive(Drop)]
pub struct NameSet {
    names: IndexSet<Text>,
}

impl Model for NameSet {
    ghost use Rattle.std.specs.Prelude.{ℕ, List, length, ◌≤◌};

    ghost Value = { List (List ℕ) };

    ghost view = { λ s. s.names.keys };

    ghost invariant = { λ s. length s.names.keys ≤ 65535 };
}

/// The place of a name among names.
fn place_of(names: &[Text], name: &Text) -> Option<usize>
    ensures { result ≡ position (bytes_eq name.now) names.now }
{
    names.iter().position(|other| name.bytes() == other.bytes())
}

impl NameSet {
    /// No names.
    pub fn new(alloc: Global) -> NameSet
        ensures { result ≡ [] }
    {
        NameSet {
            names: IndexSet::new(alloc),
        }
    }

    /// How many names there are.
    pub fn count(&self) -> u16
        ensures { result ≡ length self.now }
    {
        self.names.len() as u16
    }

    /// How many names there are, as the length of a list.
    pub fn len(&self) -> usize
        ensures { result ≡ length self.now }
    {
        self.names.len()
    }

    /// Whether the name is one of these.
    pub fn has(&self, name: &Text) -> bool
        ensures { result ≡ is_among self.now name.now }
    {
        self.names.contains(name)
    }

    /// The place of a name.
    fn place(&self, name: &Text) -> Option<usize>
        ensures place { result ≡ position (bytes_eq name.now) self.now }
        ensures within { IfSome result (λ n. n ≤ 65535) }
    {
        if self.names.len() <= FEW {
            return place_of(self.names.as_slice(), name);
        }
        self.names.get_index_of(name)
    }

    /// The number of a name.
    pub fn number(&self, name: &Text) -> Option<u16>
        ensures number { result ≡ position (bytes_eq name.now) self.now }
        ensures known { is_some result ≡ is_among self.now name.now }
    {
        match self.place(name) {
            Some(n) => Some(n as u16),
            None => None,
        }
    }

    /// One name more. A set that has no room left refuses it as want of memory.
    pub fn add(&mut self, name: Text) -> Result<(), AllocError>
        requires { is_among self.old name ≡ false }
        ensures ok { OnOk result (self.new ≡ self.old ++ name ∷ []) }
        ensures err { OnErr result (self.new ≡ self.old) }
    {
        if self.names.len() >= ROOM {
            return Err(AllocError);
        }
        match self.names.insert(name) {
            Ok(_) => Ok(()),
            Err(_) => Err(AllocError),
        }
    }

    /// The names, in memory of their own.
    pub fn list(&self, alloc: Global) -> Result<List<Text>, AllocError>
        ensures { IfOk result (λ names. names ≡ self.now) }
    {
        let names = self.names.as_slice().to_vec(alloc)?;
        Ok(List::from_vec(names))
    }
}
