use ras_core::{CoreState, Event, Origin};
use ras_logic::{Cube, List, Rows, Shared};
use std::alloc::Global;
use std::process::Abort;
use std::test::Fail;

fn cube(rt: &impl Abort, alloc: Global) -> Result<Shared<Cube>, Fail> {
    let cube = Cube::new(Rows::new(alloc), List::new(alloc));
    Ok(Shared::new(alloc, cube.expect(rt, "no literal"))?)
}

fn admission(cube: &Shared<Cube>) -> Result<Event, Fail> {
    Ok(Event::Admit {
        origin: Origin::Goal { disjunct: 0 },
        cube: cube.another()?,
    })
}

/// Takes a copy of each event, as long as they are allowed; whether all were.
fn all_taken(state: &mut CoreState, events: &[Event], alloc: Global) -> Result<bool, Fail> {
    for event in events {
        if !state.allowed(event) {
            return Ok(false);
        }
        state.apply(&event.copy(alloc)?)?;
    }
    Ok(true)
}

// A goal is admitted and worked on; from it another cube is skipped, a hit and a spill come.
#[test]
fn cubes_are_kept(rt: HostRuntime) -> Result<(), Fail> {
    let alloc = rt.alloc();
    let cube = cube(&rt, alloc)?;
    let origin = Origin::Step {
        entry: 0,
        transition: 0,
    };
    let admit = admission(&cube)?;
    let skip = Event::Skip {
        origin,
        cube: cube.another()?,
        reasons: List::new(alloc),
    };
    let spill = Event::Spill {
        origin,
        cube: cube.another()?,
    };
    let hit = Event::Hit {
        origin,
        cube: cube.another()?,
    };
    let events = [admit, Event::Claim { entry: 0 }, skip, spill, hit];
    let mut state = CoreState::new(alloc, 1, 1);
    assert!(rt; all_taken(&mut state, &events, alloc)?);
    assert!(rt;
        state
            .entries()
            .iter()
            .all(|entry| entry.submissions().len() == 1)
    );
    Ok(())
}

// Each of 200 entries is admitted, claimed, given back, claimed again and done.
#[test]
fn a_thousand_events_are_taken(rt: HostRuntime) -> Result<(), Fail> {
    let alloc = rt.alloc();
    let cube = cube(&rt, alloc)?;
    let mut state = CoreState::new(alloc, 1, 200);
    for entry in 0..200 {
        let round = [
            admission(&cube)?,
            Event::Claim { entry },
            Event::GiveBack { entry },
            Event::Claim { entry },
            Event::Done { entry },
        ];
        assert!(rt; all_taken(&mut state, &round, alloc)?);
    }
    assert!(rt; state.is_quiet());
    Ok(())
}
