ghost use Rattle.std.specs.Prelude.{◌≡◌, ◌<◌, ◌≤◌, ℕ, length, nat_eq, IfOk, if◌then◌else◌};
ghost use Rattle.ras_refute.specs.Classes.{class, relabelled, Unites};

use std::alloc::{AllocError, Global};

/// Each term in a class of its own.
pub fn separate(alloc: Global, count: usize) -> Result<Vec<u32>, AllocError>
    requires { count ≤ 4294967295 }
    ensures { IfOk result (λ v. (length v.items ≡ count) × ((i : ℕ) → i < count → class v.items i ≡ i)) }
{
    let mut classes = Vec::new(alloc);
    for i in 0..count {
        classes.push(i as u32)?;
    }
    Ok(classes)
}

/// The number of a class, where `from` becomes `to`.
fn renamed(class: u32, from: u32, to: u32) -> u32
    ensures { result ≡ (if nat_eq class from then to else class) }
{
    if class == from { to } else { class }
}

/// In each class number `from` becomes `to`.
fn relabel(classes: &mut [u32], from: u32, to: u32)
    ensures { classes.new ≡ relabelled from to classes.old }
{
    for class in classes.iter_mut() {
        *class = renamed(*class, from, to);
    }
}

/// The classes of two terms become one, with the smaller of their numbers.
pub fn unite(classes: &mut [u32], left: usize, right: usize)
    requires left { left < length classes.old }
    requires right { right < length classes.old }
    ensures { Unites classes.old classes.new left right }
{
    let to = classes[left].min(classes[right]);
    let from = classes[left].max(classes[right]);
    relabel(classes, from, to);
}
