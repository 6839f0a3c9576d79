ghost use Rattle.std.specs.Prelude.{[], ◌∷◌, Contains};
ghost use Rattle.ras_logic.specs.Clashes.{IsTerm, Clash, FactsClash};
ghost use Rattle.ras_logic.specs.Terms.{undef_term, constant_term};
ghost use Rattle.ras_vectors.specs.Words.{sort, constant, same, apart};
ghost use Rattle.ras_vectors.specs.Depot.{schema, place, parcel, shelf, stand, picked, shelf_of, hall_of, front, back, no_parcel, no_shelf, no_hall};

/// The sides of literals with what they are images of, and, though no literal names them, every constant and every undef.
pub fn terms_of_literals()
    ensures side { IsTerm schema (same place (shelf 0) ∷ []) (shelf 0) }
    ensures image { IsTerm schema (same (hall_of (shelf_of picked)) no_hall ∷ []) (hall_of (shelf_of picked)) }
    ensures argument { IsTerm schema (same (hall_of (shelf_of picked)) no_hall ∷ []) (shelf_of picked) }
    ensures base { IsTerm schema (same (hall_of (shelf_of picked)) no_hall ∷ []) picked }
    ensures constant { IsTerm schema [] back }
    ensures undef { IsTerm schema [] no_hall }
    ensures other_image { ¬ IsTerm schema (same (hall_of place) no_hall ∷ []) (hall_of front) }
    ensures other_base { ¬ IsTerm schema (same (hall_of place) no_hall ∷ []) picked }
    ensures no_constant { ¬ IsTerm schema [] (constant_term (constant 3)) }
    ensures no_sort { ¬ IsTerm schema [] (undef_term (sort 3)) }
{}

/// One rule after the other.
pub fn facts_that_clash()
    ensures itself { FactsClash schema (apart place place ∷ []) }
    ensures back { FactsClash schema (same place front ∷ apart front place ∷ []) }
    ensures through { FactsClash schema (same place (shelf 0) ∷ apart place (stand 1) ∷ same (shelf 0) (stand 1) ∷ []) }
    ensures images { FactsClash schema (same place (shelf 0) ∷ apart (hall_of place) (hall_of (shelf 0)) ∷ []) }
    ensures images_of_images { FactsClash schema (apart (hall_of (shelf_of picked)) (hall_of (shelf_of (parcel 0))) ∷ same picked (parcel 0) ∷ []) }
    ensures undef_image { FactsClash schema (same picked no_parcel ∷ apart (shelf_of picked) no_shelf ∷ []) }
    ensures undef_image_of_image { FactsClash schema (same picked no_parcel ∷ apart (hall_of (shelf_of picked)) no_hall ∷ []) }
    ensures only_undef { FactsClash schema (same (hall_of place) no_hall ∷ apart place no_shelf ∷ []) }
    ensures constants { FactsClash schema (same place front ∷ same back place ∷ []) }
    ensures constant_and_undef { FactsClash schema (same (hall_of front) no_hall ∷ []) }
{}

/// A nullable function has no image of some elements, and different elements may have one image. Not all that is apart clashes.
pub fn facts_that_hold_together()
    ensures nullable { ¬ FactsClash schema (same (shelf_of picked) no_shelf ∷ apart picked no_parcel ∷ []) }
    ensures one_image { ¬ FactsClash schema (same (hall_of place) (hall_of (shelf 0)) ∷ apart place (shelf 0) ∷ []) }
    ensures third_element { ¬ FactsClash schema (apart place front ∷ apart place back ∷ apart place no_shelf ∷ []) }
    ensures no_facts { ¬ FactsClash schema [] }
{}

/// Facts over the terms of other literals.
pub fn facts_learned_later()
    ensures clash { Clash schema (apart (hall_of place) (hall_of (shelf 0)) ∷ []) (Contains (same place (shelf 0) ∷ same no_hall (hall_of place) ∷ apart (shelf 0) no_shelf ∷ [])) }
    ensures clash_of_images { Clash schema (apart (hall_of place) (hall_of (shelf 0)) ∷ []) (Contains (same place (shelf 0) ∷ apart (hall_of place) (hall_of (shelf 0)) ∷ [])) }
{}
