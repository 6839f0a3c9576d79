ghost use Rattle.std.specs.Prelude.{◌≡◌, ℕ, ◌+◌, ◌<◌, ◌≤◌, ◌&&◌, Bool, true, false, length, get_or, nat_eq, All, take, IfNone, IfSome};
ghost use Rattle.std.specs.List.{list_any};
ghost use Rattle.ras_logic.specs.declared.function.FunDecl.{FunDecl};
ghost use Rattle.ras_logic.specs.Schemas.{IsAcyclic, HasSorts};
ghost use Rattle.ras_logic.specs.SchemaFaults.{IsFirstCycle};
ghost use Rattle.ras_logic.specs.Leading.{leads as the_leads};

use crate::function::FunDecl;

/// A function between sorts, which are numbers.
pub trait Arrow {
    ghost use Rattle.std.specs.Prelude.{ℕ, ◌≡◌};

    ghost source: { Self → ℕ };

    ghost target: { Self → ℕ };

    /// The number of the sort that it goes from.
    fn source(&self) -> usize
        ensures { result ≡ source self.now };

    /// The number of the sort that it goes to.
    fn target(&self) -> usize
        ensures { result ≡ target self.now };
}

impl Arrow for FunDecl {
    ghost source = { λ f. f.source.n };

    ghost target = { λ f. f.target.n };

    fn source(&self) -> usize {
        self.source.n as usize
    }

    fn target(&self) -> usize {
        self.target.n as usize
    }
}

/// The sorts from which a function leads to a marked sort.
fn sources_of<A: Arrow>(functions: &[A], marked: &[bool; 64]) -> [bool; 64]
    requires { All (λ (f : A). (A.source f < 64) × (A.target f < 64)) functions.now }
    ensures { (s : ℕ) → s < 64 → get_or result s false ≡ list_any (λ (f : A). nat_eq (A.source f) s && get_or marked.now (A.target f) false) functions.now }
{
    let mut sources = [false; 64];
    for f in functions {
        if marked[f.target()] {
            sources[f.source()] = true;
        }
    }
    sources
}

/// Whether some of the functions, at most as many as there are rounds, lead one after the other from a sort to a sort.
pub fn leads<A: Arrow>(functions: &[A], rounds: usize, from: usize, to: usize) -> bool
    requires functions { All (λ (f : A). (A.source f < 64) × (A.target f < 64)) functions.now }
    requires from { from < 64 }
    requires to { to < 64 }
    ensures { result ≡ the_leads nat_eq A.source A.target functions.now rounds from to }
{
    let mut marked = [false; 64];
    marked[to] = true;
    for round in 0..rounds {
        prove!(round < rounds);
        marked = sources_of(functions, &marked);
        marked[to] = true;
    }
    marked[from]
}

/// The first function that closes a cycle with those before it: these lead from its target back to its source. Without a
/// cycle among them they need fewer steps than there are sorts.
pub fn first_cycle(functions: &[FunDecl], sorts: u16) -> Option<u16>
    requires few { length functions.now ≤ 256 }
    requires at_most { sorts ≤ 64 }
    requires sorts_exist { All (HasSorts sorts) functions.now }
    ensures none { IfNone result (IsAcyclic sorts functions.now) }
    ensures first { IfSome result (IsFirstCycle functions.now) }
{
    for k in 0..functions.len() {
        let f = functions[k];
        if leads(
            &functions[..k],
            sorts as usize,
            f.target.n as usize,
            f.source.n as usize,
        ) {
            return Some(k as u16);
        }
    }
    None
}
