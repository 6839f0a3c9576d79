ghost use Rattle.ras_store.specs.Stores.{StoreParts};
ghost use Rattle.ras_submit.specs.Progress.{GoesOn};

/// A store goes on as itself, and where it goes on twice it goes on.
pub fn going_on_composes()
    ensures itself { (s : StoreParts) → GoesOn s s }
    ensures two { (first second third : StoreParts) → GoesOn first second → GoesOn second third → GoesOn first third }
{}
