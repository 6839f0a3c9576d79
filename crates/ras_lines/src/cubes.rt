ghost use Rattle.ras_lines.specs.Formulas as first;

use crate::spelled::{Spelled, counted};
use crate::stop::Stop;
use crate::words::Words;
use ras_logic::{Cube, List, Literal, Problem, Rows, Shared};
use std::alloc::Global;

impl Spelled for Problem {
    ghost first = { first.cube };

    fn read(words: &mut Words<'_>, alloc: Global) -> Result<Problem, Stop> {
        words.fixed(b"cube")?;
        let rows: Rows = counted(words, alloc)?;
        let literals: List<Literal> = counted(words, alloc)?;
        let params = List::new(alloc);
        Ok(Problem {
            rows,
            params,
            literals,
        })
    }
}

impl Spelled for Cube {
    ghost first = { first.cube };

    fn read(words: &mut Words<'_>, alloc: Global) -> Result<Cube, Stop> {
        let Problem { rows, literals, .. } = Problem::read(words, alloc)?;
        match Cube::new(rows, literals) {
            Ok(cube) => Ok(cube),
            // what was read names no data parameter
            Err(_) => Err(Stop::Misfit),
        }
    }
}

impl Spelled for Shared<Cube> {
    ghost first = { first.cube };

    fn read(words: &mut Words<'_>, alloc: Global) -> Result<Shared<Cube>, Stop> {
        let cube = Cube::read(words, alloc)?;
        Ok(Shared::new(alloc, cube)?)
    }
}
