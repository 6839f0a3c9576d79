ghost use Rattle.std.specs.Prelude.{◌∷◌, ◌++◌, []};
ghost use Rattle.std.specs.List.{flat_map};
ghost use Rattle.ras_lexer.specs.declared.fixed.Fixed.TheVariants as signs;
ghost use Rattle.ras_syntax.specs.Machine as m;
ghost use Rattle.ras_syntax.specs.Places as places;
ghost use Rattle.ras_syntax.specs.Reading.{Moves, Took};

use crate::fault::ReadError;
use crate::reader::Reader;
use crate::tree::{Assignment, Case, Dotted, Each, Goal, Name, Param, Row, Step, Update};
use ras_lexer::Fixed;
use std::alloc::Global;

/// The steps and the unsafe items of a file.
impl<'a> Reader<'a> {
    /// Reads `{step}`.
    #[tactic(auto, using(crate::proofs::Skips::no_steps, std::proofs::lemmas::Grind::common_steps))]
    pub fn steps(&mut self, alloc: Global) -> Result<Vec<Step>, ReadError>
        ensures reads { Moves (m.steps ∷ []) self.old.rest.now self.new.rest.now (λ x. []) result }
        ensures took { Took self.old.rest.now self.new.rest.now (λ x. flat_map places.of_step x.items) result }
    {
        let mut steps = Vec::new(alloc);
        while let Some(at) = self.eat(Fixed::Step) {
            let step = self.step(alloc, at)?;
            steps.push(step)?;
        }
        Ok(steps)
    }

    fn step(&mut self, alloc: Global, at: u32) -> Result<Step, ReadError>
        ensures reads { Moves (m.name ∷ m.fixed signs.OpenBrace ∷ m.rows ∷ m.params ∷ m.fixed signs.When ∷
            m.conjunction ∷ m.ors ∷ m.fixed signs.Semicolon ∷ m.updates ∷ m.eachs ∷
            m.fixed signs.CloseBrace ∷ []) self.old.rest.now self.new.rest.now (λ x. []) result }
        ensures took { Took (places.at at signs.Step ∷ self.old.rest.now) self.new.rest.now
            (λ x. places.of_step x) result }
    {
        let name = self.name()?;
        let open = self.expect(Fixed::OpenBrace)?;
        let rows = self.rows(alloc)?;
        let params = self.params(alloc)?;
        let when = self.expect(Fixed::When)?;
        let guard = self.guard(alloc)?;
        let semicolon = self.expect(Fixed::Semicolon)?;
        let (updates, eachs, close) = self.effects(alloc)?;
        Ok(Step {
            at,
            name,
            open,
            rows,
            params,
            when,
            guard,
            semicolon,
            updates,
            eachs,
            close,
        })
    }

    /// Reads what a step does, and its closing sign.
    fn effects(&mut self, alloc: Global) -> Result<(Vec<Update>, Vec<Each>, u32), ReadError>
        ensures reads { Moves (m.updates ∷ m.eachs ∷ m.fixed signs.CloseBrace ∷ []) self.old.rest.now
            self.new.rest.now (λ x. []) result }
        ensures took { Took self.old.rest.now self.new.rest.now
            (λ x. flat_map places.of_update x.0.items
            ++ (flat_map places.of_each x.1.items ++ places.only x.2 signs.CloseBrace))
            result }
    {
        let updates = self.updates(alloc)?;
        let eachs = self.eachs(alloc)?;
        let close = self.expect(Fixed::CloseBrace)?;
        Ok((updates, eachs, close))
    }

    /// Reads `{goal}`.
    #[tactic(auto, using(crate::proofs::Skips::no_goals, std::proofs::lemmas::Grind::common_steps))]
    pub fn goals(&mut self, alloc: Global) -> Result<Vec<Goal>, ReadError>
        ensures reads { Moves (m.goals ∷ []) self.old.rest.now self.new.rest.now (λ x. []) result }
        ensures took { Took self.old.rest.now self.new.rest.now (λ x. flat_map places.of_goal x.items) result }
    {
        let mut goals = Vec::new(alloc);
        while let Some(at) = self.eat(Fixed::Unsafe) {
            let goal = self.goal(alloc, at)?;
            goals.push(goal)?;
        }
        Ok(goals)
    }

    fn goal(&mut self, alloc: Global, at: u32) -> Result<Goal, ReadError>
        ensures reads { Moves (m.fixed signs.OpenBrace ∷ m.rows ∷ m.fixed signs.When ∷ m.conjunction ∷ m.ors ∷
            m.fixed signs.Semicolon ∷ m.fixed signs.CloseBrace ∷ []) self.old.rest.now
            self.new.rest.now (λ x. []) result }
        ensures took { Took (places.at at signs.Unsafe ∷ self.old.rest.now) self.new.rest.now
            (λ x. places.of_goal x) result }
    {
        let open = self.expect(Fixed::OpenBrace)?;
        let rows = self.rows(alloc)?;
        let when = self.expect(Fixed::When)?;
        let guard = self.guard(alloc)?;
        let semicolon = self.expect(Fixed::Semicolon)?;
        let close = self.expect(Fixed::CloseBrace)?;
        Ok(Goal {
            at,
            open,
            rows,
            when,
            guard,
            semicolon,
            close,
        })
    }

    #[tactic(auto, using(crate::proofs::Skips::no_rows, std::proofs::lemmas::Grind::common_steps))]
    fn rows(&mut self, alloc: Global) -> Result<Vec<Row>, ReadError>
        ensures reads { Moves (m.rows ∷ []) self.old.rest.now self.new.rest.now (λ x. []) result }
        ensures took { Took self.old.rest.now self.new.rest.now (λ x. flat_map places.of_row x.items) result }
    {
        let mut rows = Vec::new(alloc);
        while let Some(at) = self.eat(Fixed::Row) {
            let row = self.row(at)?;
            rows.push(row)?;
        }
        Ok(rows)
    }

    fn row(&mut self, at: u32) -> Result<Row, ReadError>
        ensures reads { Moves (m.name ∷ m.fixed signs.Colon ∷ m.name ∷ m.fixed signs.Semicolon ∷ [])
            self.old.rest.now self.new.rest.now (λ x. []) result }
        ensures took { Took (places.at at signs.Row ∷ self.old.rest.now) self.new.rest.now
            (λ x. places.of_row x) result }
    {
        let name = self.name()?;
        let colon = self.expect(Fixed::Colon)?;
        let relation = self.name()?;
        let semicolon = self.expect(Fixed::Semicolon)?;
        Ok(Row {
            at,
            name,
            colon,
            relation,
            semicolon,
        })
    }

    #[tactic(auto, using(crate::proofs::Skips::no_params, std::proofs::lemmas::Grind::common_steps))]
    fn params(&mut self, alloc: Global) -> Result<Vec<Param>, ReadError>
        ensures reads { Moves (m.params ∷ []) self.old.rest.now self.new.rest.now (λ x. []) result }
        ensures took { Took self.old.rest.now self.new.rest.now (λ x. flat_map places.of_param x.items)
            result }
    {
        let mut params = Vec::new(alloc);
        while let Some(at) = self.eat(Fixed::Param) {
            let param = self.param(at)?;
            params.push(param)?;
        }
        Ok(params)
    }

    fn param(&mut self, at: u32) -> Result<Param, ReadError>
        ensures reads { Moves (m.name ∷ m.fixed signs.Colon ∷ m.name ∷ m.fixed signs.Semicolon ∷ [])
            self.old.rest.now self.new.rest.now (λ x. []) result }
        ensures took { Took (places.at at signs.Param ∷ self.old.rest.now) self.new.rest.now
            (λ x. places.of_param x) result }
    {
        let name = self.name()?;
        let colon = self.expect(Fixed::Colon)?;
        let sort = self.name()?;
        let semicolon = self.expect(Fixed::Semicolon)?;
        Ok(Param {
            at,
            name,
            colon,
            sort,
            semicolon,
        })
    }

    #[tactic(auto, using(crate::proofs::Skips::no_updates, std::proofs::lemmas::Grind::common_steps))]
    fn updates(&mut self, alloc: Global) -> Result<Vec<Update>, ReadError>
        ensures reads { Moves (m.updates ∷ []) self.old.rest.now self.new.rest.now (λ x. []) result }
        ensures took { Took self.old.rest.now self.new.rest.now (λ x. flat_map places.of_update x.items)
            result }
    {
        let mut updates = Vec::new(alloc);
        while let Some(target) = self.eat_name() {
            let update = self.update(alloc, target)?;
            let _column = &update.column;
            updates.push(update)?;
        }
        Ok(updates)
    }

    fn update(&mut self, alloc: Global, target: Name) -> Result<Update, ReadError>
        ensures reads { Moves (m.dotted ∷ m.fixed signs.Assign ∷ m.term ∷ m.fixed signs.Semicolon ∷ [])
            self.old.rest.now self.new.rest.now (λ x. []) result }
        ensures took { Took (places.of_name target ∷ self.old.rest.now) self.new.rest.now
            (λ x. places.of_update x) result }
    {
        let column = self.dotted()?;
        let at = self.expect(Fixed::Assign)?;
        let term = self.term(alloc)?;
        let semicolon = self.expect(Fixed::Semicolon)?;
        Ok(Update {
            target,
            column,
            at,
            term,
            semicolon,
        })
    }

    #[tactic(auto, using(crate::proofs::Skips::no_dotted))]
    fn dotted(&mut self) -> Result<Option<Dotted>, ReadError>
        ensures reads { Moves (m.dotted ∷ []) self.old.rest.now self.new.rest.now (λ x. []) result }
        ensures took { Took self.old.rest.now self.new.rest.now (λ x. places.of_dotted x) result }
    {
        match self.eat(Fixed::Dot) {
            None => Ok(None),
            Some(dot) => {
                let column = self.name()?;
                Ok(Some(Dotted { dot, column }))
            }
        }
    }

    #[tactic(auto, using(crate::proofs::Skips::no_eachs, std::proofs::lemmas::Grind::common_steps))]
    fn eachs(&mut self, alloc: Global) -> Result<Vec<Each>, ReadError>
        ensures reads { Moves (m.eachs ∷ []) self.old.rest.now self.new.rest.now (λ x. []) result }
        ensures took { Took self.old.rest.now self.new.rest.now (λ x. flat_map places.of_each x.items) result }
    {
        let mut eachs = Vec::new(alloc);
        while let Some(at) = self.eat(Fixed::Each) {
            let each = self.each(alloc, at)?;
            eachs.push(each)?;
        }
        Ok(eachs)
    }

    fn each(&mut self, alloc: Global, at: u32) -> Result<Each, ReadError>
        ensures reads { Moves
            (m.name ∷ m.fixed signs.Colon ∷ m.name ∷ m.fixed signs.OpenBrace ∷ m.fixed signs.If ∷
            m.conjunction ∷ m.fixed signs.OpenBrace ∷ m.assignments ∷ m.fixed signs.CloseBrace ∷
            m.cases ∷ m.fixed signs.CloseBrace ∷ []) self.old.rest.now self.new.rest.now (λ x. [])
            result }
        ensures took { Took (places.at at signs.Each ∷ self.old.rest.now) self.new.rest.now
            (λ x. places.of_each x) result }
    {
        let row = self.name()?;
        let colon = self.expect(Fixed::Colon)?;
        let relation = self.name()?;
        let open = self.expect(Fixed::OpenBrace)?;
        let first = self.first_case(alloc)?;
        let others = self.cases(alloc)?;
        let close = self.expect(Fixed::CloseBrace)?;
        Ok(Each {
            at,
            row,
            colon,
            relation,
            open,
            first,
            others,
            close,
        })
    }

    fn first_case(&mut self, alloc: Global) -> Result<Case, ReadError>
        ensures reads { Moves (m.fixed signs.If ∷ m.conjunction ∷ m.fixed signs.OpenBrace ∷ m.assignments ∷
            m.fixed signs.CloseBrace ∷ []) self.old.rest.now self.new.rest.now (λ x. []) result }
        ensures took { Took self.old.rest.now self.new.rest.now (λ x. places.of_case x) result }
    {
        let at = self.expect(Fixed::If)?;
        self.case(alloc, at)
    }

    #[tactic(auto, using(crate::proofs::Skips::no_cases, std::proofs::lemmas::Grind::common_steps))]
    fn cases(&mut self, alloc: Global) -> Result<Vec<Case>, ReadError>
        ensures reads { Moves (m.cases ∷ []) self.old.rest.now self.new.rest.now (λ x. []) result }
        ensures took { Took self.old.rest.now self.new.rest.now (λ x. flat_map places.of_case x.items) result }
    {
        let mut cases = Vec::new(alloc);
        while let Some(at) = self.eat(Fixed::If) {
            let case = self.case(alloc, at)?;
            cases.push(case)?;
        }
        Ok(cases)
    }

    fn case(&mut self, alloc: Global, at: u32) -> Result<Case, ReadError>
        ensures reads { Moves
            (m.conjunction ∷ m.fixed signs.OpenBrace ∷ m.assignments ∷ m.fixed signs.CloseBrace ∷
            []) self.old.rest.now self.new.rest.now (λ x. []) result }
        ensures took { Took (places.at at signs.If ∷ self.old.rest.now) self.new.rest.now
            (λ x. places.of_case x) result }
    {
        let condition = self.conjunction(alloc)?;
        let open = self.expect(Fixed::OpenBrace)?;
        let assignments = self.assignments(alloc)?;
        let close = self.expect(Fixed::CloseBrace)?;
        Ok(Case {
            at,
            condition,
            open,
            assignments,
            close,
        })
    }

    #[tactic(auto, using(crate::proofs::Skips::no_assignments, std::proofs::lemmas::Grind::common_steps))]
    fn assignments(&mut self, alloc: Global) -> Result<Vec<Assignment>, ReadError>
        ensures reads { Moves (m.assignments ∷ []) self.old.rest.now self.new.rest.now (λ x. []) result }
        ensures took { Took self.old.rest.now self.new.rest.now (λ x. flat_map places.of_assignment x.items)
            result }
    {
        let mut assignments = Vec::new(alloc);
        while let Some(row) = self.eat_name() {
            let assignment = self.assignment(alloc, row)?;
            assignments.push(assignment)?;
        }
        Ok(assignments)
    }

    fn assignment(&mut self, alloc: Global, row: Name) -> Result<Assignment, ReadError>
        ensures reads { Moves (m.fixed signs.Dot ∷ m.name ∷ m.fixed signs.Assign ∷ m.term ∷
            m.fixed signs.Semicolon ∷ []) self.old.rest.now self.new.rest.now (λ x. []) result }
        ensures took { Took (places.of_name row ∷ self.old.rest.now) self.new.rest.now
            (λ x. places.of_assignment x) result }
    {
        let dot = self.expect(Fixed::Dot)?;
        let column = self.name()?;
        let at = self.expect(Fixed::Assign)?;
        let term = self.term(alloc)?;
        let semicolon = self.expect(Fixed::Semicolon)?;
        Ok(Assignment {
            row,
            dot,
            column,
            at,
            term,
            semicolon,
        })
    }
}
