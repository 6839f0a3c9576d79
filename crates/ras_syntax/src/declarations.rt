ghost use Rattle.std.specs.Prelude.{◌≡◌, ◌∷◌, [], MatchOption, false};
ghost use Rattle.std.specs.List.{flat_map};
ghost use Rattle.ras_lexer.specs.declared.fixed.Fixed.TheVariants as signs;
ghost use Rattle.ras_syntax.specs.Machine as m;
ghost use Rattle.ras_syntax.specs.Machine.{begins};
ghost use Rattle.ras_syntax.specs.Places as places;
ghost use Rattle.ras_syntax.specs.Places.{words};
ghost use Rattle.ras_syntax.specs.Reading.{Moves, Took};

use crate::fault::ReadError;
use crate::reader::Reader;
use crate::tree::{
    Column, CommaColumn, Constant, Function, Initial, Relation, Sort, Totality, Variable,
};
use ras_lexer::Fixed;
use std::alloc::Global;

/// The sorts, functions, constants, variables and relations of a file.
impl<'a> Reader<'a> {
    /// Reads `{sort}`.
    #[tactic(auto, using(crate::proofs::Skips::no_sorts, std::proofs::lemmas::Grind::common_steps))]
    pub fn sorts(&mut self, alloc: Global) -> Result<Vec<Sort>, ReadError>
        ensures reads { Moves (m.sorts ∷ []) self.old.rest.now self.new.rest.now (λ x. []) result }
        ensures took { Took self.old.rest.now self.new.rest.now (λ x. flat_map places.of_sort x.items) result }
    {
        let mut sorts = Vec::new(alloc);
        while let Some(at) = self.eat(Fixed::Sort) {
            let sort = self.sort(at)?;
            sorts.push(sort)?;
        }
        Ok(sorts)
    }

    fn sort(&mut self, at: u32) -> Result<Sort, ReadError>
        ensures reads { Moves (m.name ∷ m.fixed signs.Semicolon ∷ []) self.old.rest.now self.new.rest.now
            (λ x. []) result }
        ensures took { Took (places.at at signs.Sort ∷ self.old.rest.now) self.new.rest.now
            (λ x. places.of_sort x) result }
    {
        let name = self.name()?;
        let semicolon = self.expect(Fixed::Semicolon)?;
        Ok(Sort {
            at,
            name,
            semicolon,
        })
    }

    /// Takes `total` or `nullable`, where the tokens begin with one.
    fn eat_totality(&mut self) -> Option<(u32, Totality)>
        ensures { MatchOption result
            ((begins signs.Total (words self.old.rest.now) ≡ false)
            × (begins signs.Nullable (words self.old.rest.now) ≡ false) × (self.new.rest.now ≡ self.old.rest.now))
            (λ x. self.old.rest.now ≡ places.at x.0 (places.of_totality x.1) ∷ self.new.rest.now) }
    {
        if let Some(at) = self.eat(Fixed::Total) {
            return Some((at, Totality::Total));
        }
        match self.eat(Fixed::Nullable) {
            Some(at) => Some((at, Totality::Nullable)),
            None => None,
        }
    }

    /// Reads `{function}`.
    #[tactic(auto, using(crate::proofs::Skips::no_functions, std::proofs::lemmas::Grind::common_steps))]
    pub fn functions(&mut self, alloc: Global) -> Result<Vec<Function>, ReadError>
        ensures reads { Moves (m.functions ∷ []) self.old.rest.now self.new.rest.now (λ x. []) result }
        ensures took { Took self.old.rest.now self.new.rest.now (λ x. flat_map places.of_function x.items)
            result }
    {
        let mut functions = Vec::new(alloc);
        while let Some((at, totality)) = self.eat_totality() {
            let function = self.function(at, totality)?;
            functions.push(function)?;
        }
        Ok(functions)
    }

    fn function(&mut self, at: u32, totality: Totality) -> Result<Function, ReadError>
        ensures reads { Moves (m.name ∷ m.fixed signs.Colon ∷ m.name ∷ m.fixed signs.Arrow ∷ m.name ∷
            m.fixed signs.Semicolon ∷ []) self.old.rest.now self.new.rest.now (λ x. []) result }
        ensures took { Took (places.at at (places.of_totality totality) ∷ self.old.rest.now)
            self.new.rest.now (λ x. places.of_function x) result }
    {
        let name = self.name()?;
        let colon = self.expect(Fixed::Colon)?;
        let source = self.name()?;
        let arrow = self.expect(Fixed::Arrow)?;
        let target = self.name()?;
        let semicolon = self.expect(Fixed::Semicolon)?;
        Ok(Function {
            at,
            totality,
            name,
            colon,
            source,
            arrow,
            target,
            semicolon,
        })
    }

    /// Reads `{constant}`.
    #[tactic(auto, using(crate::proofs::Skips::no_constants, std::proofs::lemmas::Grind::common_steps))]
    pub fn constants(&mut self, alloc: Global) -> Result<Vec<Constant>, ReadError>
        ensures reads { Moves (m.constants ∷ []) self.old.rest.now self.new.rest.now (λ x. []) result }
        ensures took { Took self.old.rest.now self.new.rest.now (λ x. flat_map places.of_constant x.items)
            result }
    {
        let mut constants = Vec::new(alloc);
        while let Some(at) = self.eat(Fixed::Const) {
            let constant = self.constant(at)?;
            constants.push(constant)?;
        }
        Ok(constants)
    }

    fn constant(&mut self, at: u32) -> Result<Constant, ReadError>
        ensures reads { Moves (m.name ∷ m.fixed signs.Colon ∷ m.name ∷ m.fixed signs.Semicolon ∷ [])
            self.old.rest.now self.new.rest.now (λ x. []) result }
        ensures took { Took (places.at at signs.Const ∷ self.old.rest.now) self.new.rest.now
            (λ x. places.of_constant x) result }
    {
        let name = self.name()?;
        let colon = self.expect(Fixed::Colon)?;
        let sort = self.name()?;
        let semicolon = self.expect(Fixed::Semicolon)?;
        Ok(Constant {
            at,
            name,
            colon,
            sort,
            semicolon,
        })
    }

    /// Reads `{variable}`.
    #[tactic(auto, using(crate::proofs::Skips::no_variables, std::proofs::lemmas::Grind::common_steps))]
    pub fn variables(&mut self, alloc: Global) -> Result<Vec<Variable>, ReadError>
        ensures reads { Moves (m.variables ∷ []) self.old.rest.now self.new.rest.now (λ x. []) result }
        ensures took { Took self.old.rest.now self.new.rest.now (λ x. flat_map places.of_variable x.items)
            result }
    {
        let mut variables = Vec::new(alloc);
        while let Some(at) = self.eat(Fixed::Var) {
            let variable = self.variable(at)?;
            let _initial = &variable.initial;
            variables.push(variable)?;
        }
        Ok(variables)
    }

    fn variable(&mut self, at: u32) -> Result<Variable, ReadError>
        ensures reads { Moves
            (m.name ∷ m.fixed signs.Colon ∷ m.name ∷ m.initial ∷ m.fixed signs.Semicolon ∷ [])
            self.old.rest.now self.new.rest.now (λ x. []) result }
        ensures took { Took (places.at at signs.Var ∷ self.old.rest.now) self.new.rest.now
            (λ x. places.of_variable x) result }
    {
        let name = self.name()?;
        let colon = self.expect(Fixed::Colon)?;
        let sort = self.name()?;
        let initial = self.initial()?;
        let semicolon = self.expect(Fixed::Semicolon)?;
        Ok(Variable {
            at,
            name,
            colon,
            sort,
            initial,
            semicolon,
        })
    }

    #[tactic(auto, using(crate::proofs::Skips::no_initial))]
    fn initial(&mut self) -> Result<Option<Initial>, ReadError>
        ensures reads { Moves (m.initial ∷ []) self.old.rest.now self.new.rest.now (λ x. []) result }
        ensures took { Took self.old.rest.now self.new.rest.now (λ x. places.of_initial x) result }
    {
        match self.eat(Fixed::Equal) {
            None => Ok(None),
            Some(at) => {
                let constant = self.name()?;
                Ok(Some(Initial { at, constant }))
            }
        }
    }

    /// Reads `{relation}`.
    #[tactic(auto, using(crate::proofs::Skips::no_relations, std::proofs::lemmas::Grind::common_steps))]
    pub fn relations(&mut self, alloc: Global) -> Result<Vec<Relation>, ReadError>
        ensures reads { Moves (m.relations ∷ []) self.old.rest.now self.new.rest.now (λ x. []) result }
        ensures took { Took self.old.rest.now self.new.rest.now (λ x. flat_map places.of_relation x.items)
            result }
    {
        let mut relations = Vec::new(alloc);
        while let Some(at) = self.eat(Fixed::Relation) {
            let relation = self.relation(alloc, at)?;
            relations.push(relation)?;
        }
        Ok(relations)
    }

    fn relation(&mut self, alloc: Global, at: u32) -> Result<Relation, ReadError>
        ensures reads { Moves (m.name ∷ m.fixed signs.OpenParen ∷ m.name ∷ m.fixed signs.Colon ∷ m.name ∷
            m.columns ∷ m.fixed signs.CloseParen ∷ m.fixed signs.Semicolon ∷ []) self.old.rest.now
            self.new.rest.now (λ x. []) result }
        ensures took { Took (places.at at signs.Relation ∷ self.old.rest.now) self.new.rest.now
            (λ x. places.of_relation x) result }
    {
        let name = self.name()?;
        let open = self.expect(Fixed::OpenParen)?;
        let first = self.column()?;
        let others = self.columns(alloc)?;
        let close = self.expect(Fixed::CloseParen)?;
        let semicolon = self.expect(Fixed::Semicolon)?;
        Ok(Relation {
            at,
            name,
            open,
            first,
            others,
            close,
            semicolon,
        })
    }

    fn column(&mut self) -> Result<Column, ReadError>
        ensures reads { Moves (m.name ∷ m.fixed signs.Colon ∷ m.name ∷ []) self.old.rest.now self.new.rest.now
            (λ x. []) result }
        ensures took { Took self.old.rest.now self.new.rest.now (λ x. places.of_column x) result }
    {
        let name = self.name()?;
        let colon = self.expect(Fixed::Colon)?;
        let sort = self.name()?;
        Ok(Column { name, colon, sort })
    }

    #[tactic(auto, using(crate::proofs::Skips::no_columns, std::proofs::lemmas::Grind::common_steps))]
    fn columns(&mut self, alloc: Global) -> Result<Vec<CommaColumn>, ReadError>
        ensures reads { Moves (m.columns ∷ []) self.old.rest.now self.new.rest.now (λ x. []) result }
        ensures took { Took self.old.rest.now self.new.rest.now (λ x. flat_map places.of_comma x.items)
            result }
    {
        let mut columns = Vec::new(alloc);
        while let Some(comma) = self.eat(Fixed::Comma) {
            let column = self.column()?;
            columns.push(CommaColumn { comma, column })?;
        }
        Ok(columns)
    }
}
