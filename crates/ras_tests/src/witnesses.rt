use ras_database::Database;
use ras_logic::{FunDecl, List, Plain, RawDb, Schema};
use ras_steps::Witness;
use ras_system::State;
use std::alloc::Global;
use std::test::Fail;

/// A database without elements, and its state without variables and relations.
fn witness(alloc: Global) -> Result<Witness, Fail> {
    let functions: List<FunDecl> = List::new(alloc);
    let schema = Schema::new(0, functions, List::new(alloc))?;
    let raw = RawDb {
        sizes: List::new(alloc),
        tables: List::new(alloc),
        constants: List::new(alloc),
    };
    let db = Database::new(&schema, raw)?;
    let state = State {
        vars: List::new(alloc),
        relations: List::new(alloc),
    };
    Ok(Witness { db, state })
}

#[test]
fn a_copy_of_a_witness_is_the_same(rt: HostRuntime) -> Result<(), Fail> {
    let witness = witness(rt.alloc())?;
    let copy = witness.copy(rt.alloc())?;
    assert!(rt; copy.equal(&witness));
    Ok(())
}
