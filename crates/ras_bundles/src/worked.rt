ghost use Rattle.ras_bundles.specs.declared.fault.BundleKind.TheVariants as kind;
ghost use Rattle.ras_bundles.specs.declared.fault.BundleError.TheVariants.{System};
ghost use Rattle.ras_bundles.specs.Bundles.{IsBundle};
ghost use Rattle.ras_bundles.specs.BundleFaults.{IsBundleFault};
ghost use Rattle.ras_bundles.specs.Worked.{one_variable_text, one_variable, never_other, ring_text, twice_text, no_disjunct_text, cut_text};

/// The bundle of a system with one variable, whose evidence begins in line 10.
pub fn text_of_a_bundle()
    ensures { IsBundle one_variable_text one_variable never_other 10 }
{}

/// A ring of functions, a variable that is assigned twice, a guard without disjuncts, and the same guard where a line is missing: later
/// lines have faults too.
pub fn texts_with_a_system_fault()
    ensures ring { IsBundleFault ring_text (System 6 kind.Cycle) }
    ensures twice { IsBundleFault twice_text (System 12 kind.Target) }
    ensures no_disjunct { IsBundleFault no_disjunct_text (System 8 kind.Disjunct) }
    ensures cut { IsBundleFault cut_text (System 10 kind.Text) }
{}
