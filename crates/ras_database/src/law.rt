ghost use Rattle.std.specs.Prelude.{◌≡◌};
ghost use Rattle.ras_logic.specs.declared.raw_db.RawDb.{RawDb};
ghost use Rattle.ras_logic.specs.Schemas.{SchemaParts};
ghost use Rattle.ras_logic.specs.Databases.{IsDatabase};
ghost use Rattle.ras_database.specs.declared.db_fault.DbFault.{DbFault};
ghost use Rattle.ras_database.specs.DatabaseFaults.{IsDatabaseFault};

/// Numbers with a fault are no database.
pub fn a_fault_is_no_database()
    ensures { (s : SchemaParts) (d : RawDb) (fault : DbFault) → IsDatabaseFault s d fault → ¬ IsDatabase s d }
{}

/// Numbers that are no database have a first fault.
pub fn no_database_has_a_fault()
    ensures { (s : SchemaParts) (d : RawDb) → ¬ IsDatabase s d → (fault : DbFault) × IsDatabaseFault s d fault }
{}

/// No two faults are the first.
pub fn the_first_fault_is_one()
    ensures { (s : SchemaParts) (d : RawDb) (fault other : DbFault) → IsDatabaseFault s d fault → IsDatabaseFault s d other → fault ≡ other }
{}
