ghost use Rattle.std.specs.Prelude.{◌≡◌, ℕ, ◌==◌, ◌<◌, length, count_by, nat_eq, if◌then◌else◌, IfOk};
ghost use Rattle.ras_closure.specs.Classes.{class, relabelled};

use std::alloc::{AllocError, Global};
use std::marker::Model;

/// For each term the number of its class, which is that of the first term in it.
#[derive(Debug, Drop)]
pub struct Classes {
    numbers: Vec<u32>,
}

impl Model for Classes {
    ghost use Rattle.std.specs.Prelude.{ℕ, List};

    ghost Value = { List ℕ };

    ghost view = { λ c. c.numbers.items };
}

impl Classes {
    /// Each term a class of its own.
    pub fn new(alloc: Global, terms: usize) -> Result<Classes, AllocError>
        requires { terms < 4294967295 }
        ensures long { IfOk result (λ c. length c ≡ terms) }
        ensures own { IfOk result (λ c. (k : ℕ) → k < terms → class c k ≡ k) }
    {
        let mut numbers = Vec::with_capacity(alloc, terms)?;
        for k in 0..terms {
            numbers.push(k as u32)?;
        }
        Ok(Classes { numbers })
    }

    /// The same classes, in memory of their own.
    pub fn copy(&self) -> Result<Classes, AllocError>
        ensures { IfOk result (λ c. c ≡ self.now) }
    {
        let numbers = self.numbers.clone()?;
        Ok(Classes { numbers })
    }

    /// The class of a term.
    pub fn of(&self, term: usize) -> u32
        requires { term < length self.now }
        ensures { result ≡ class self.now term }
    {
        self.numbers[term]
    }

    /// How many terms a class has.
    pub fn size(&self, class: u32) -> usize
        ensures { result ≡ count_by (λ c. c == class) self.now }
    {
        self.numbers.iter().filter(|c| **c == class).count()
    }

    /// The terms of one class join another.
    pub fn relabel(&mut self, from: u32, to: u32)
        ensures { self.new ≡ relabelled from to self.old }
    {
        relabel(&mut self.numbers, from, to);
    }
}

/// The class of a term whose class was this one.
fn renamed(class: u32, from: u32, to: u32) -> u32
    ensures { result ≡ (if nat_eq class from then to else class) }
{
    if class == from { to } else { class }
}

/// Each number that is `from` becomes `to`.
fn relabel(classes: &mut [u32], from: u32, to: u32)
    ensures { classes.new ≡ relabelled from to classes.old }
{
    for c in classes.iter_mut() {
        *c = renamed(*c, from, to);
    }
}
