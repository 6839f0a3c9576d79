use crate::open_tree::{OpenTree, first_open};
use ras_logic::{Cube, Problem, Shared, Tree};
use ras_obligations::{Halt, Visitor};
use ras_system::System;
use std::alloc::Global;

/// The trees of a certificate, each judged by the obligation of its number: how many were passed, and the first that does not
/// close. Those behind it are only counted, since a wrong number of trees is told first.
#[derive(Drop)]
pub struct Judge<'a> {
    pub trees: &'a [Tree],
    pub passed: usize,
    pub first: Option<OpenTree>,
}

impl<'a> Visitor for Judge<'a> {
    ghost use Rattle.std.specs.Prelude.{◌<◌, ◌^◌, List, length, All};
    ghost use Rattle.ras_logic.specs.declared.tree.Tree.{Tree};
    ghost use Rattle.ras_logic.specs.Trees.{IsWhole};
    ghost use Rattle.ras_safety.specs.Judging.{HavePassed};
    ghost use Rattle.std.proofs.Common.{rules};
    ghost use Rattle.std.proofs.lemmas.Grind.{common_steps};

    ghost Given = { List Tree };

    ghost given = { λ judge. judge.trees.now };

    ghost ready = { λ judge. All IsWhole judge.trees.now × (length judge.trees.now < 2 ^ 32) };

    ghost visited = { λ system judge os. HavePassed system judge.trees.now judge.passed judge.first os };

    ghost barred = { λ _ judge os. length judge.trees.now < length os };

    ghost bars_more = { Prim.search (rules, common_steps) };

    fn visit(
        &mut self,
        alloc: Global,
        system: &System,
        premise: &Problem,
        formulas: &[Shared<Cube>],
    ) -> Result<(), Halt> {
        if self.passed >= self.trees.len() {
            return Err(Halt::Stopped);
        }
        let tree = &self.trees[self.passed];
        let number = self.passed as u32;
        self.first = first_open(alloc, system, number, self.first, premise, formulas, tree)?;
        self.passed += 1;
        Ok(())
    }
}
