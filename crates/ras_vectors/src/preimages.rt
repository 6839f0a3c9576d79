ghost use Rattle.std.specs.Prelude.{◌≡◌};
ghost use Rattle.ras_system.specs.Preimages.{preimage};
ghost use Rattle.ras_vectors.specs.Hiring.{apply, withdraw, wrong_owner, before_apply, before_withdraw};
ghost use Rattle.ras_vectors.specs.Desk.{clear, off_and_on, before_clear, forget, as_the_variable, before_forget};
ghost use Rattle.ras_vectors.specs.Depot.{sweep, shift, sort_out, split_up, twins, at_back, before_sweep, before_shift, before_sort_out};

/// A named row, which the formula's row is or is not, and a data parameter.
pub fn preimages_by_a_row_parameter()
    ensures apply { preimage apply wrong_owner ≡ before_apply }
    ensures withdraw { preimage withdraw wrong_owner ≡ before_withdraw }
{}

/// Two bulk cases for two rows of the formula, one of which may be the row parameter.
pub fn a_preimage_by_bulk_cases()
    ensures { preimage clear off_and_on ≡ before_clear }
{}

/// Two bulk cases for two rows of the formula, with functions applied to what was itself an image.
pub fn a_preimage_by_bulk_cases_and_functions()
    ensures { preimage sweep split_up ≡ before_sweep }
{}

/// A variable that is assigned undef, by two disjuncts.
pub fn a_preimage_by_a_variable_without_a_value()
    ensures { preimage forget as_the_variable ≡ before_forget }
{}

/// Row parameters in the order of their numbers, none twice and none of another relation, and two disjuncts.
pub fn a_preimage_by_two_row_parameters()
    ensures { preimage shift twins ≡ before_shift }
{}

/// Cases before the one that takes a row fail by one literal each, and no case comes after one that always holds.
pub fn a_preimage_by_failing_cases()
    ensures { preimage sort_out at_back ≡ before_sort_out }
{}
