ghost use Rattle.std.specs.Prelude.{◌≡◌};
ghost use Rattle.ras_names.specs.declared.spec_fault.SpecKind.TheVariants.{Cycle};
ghost use Rattle.ras_names.specs.PlacedTokens.{IsFileOf};
ghost use Rattle.ras_names.specs.Faults.{IsFirstFault};
ghost use Rattle.ras_names.specs.Texts.{TokensDenote};
ghost use Rattle.ras_names_vectors.specs.Words.{name, fault};
ghost use Rattle.ras_names_vectors.specs.Wrong.{cycle_of_two};
ghost use Rattle.ras_names_vectors.specs.Processes.{nullable_text};
ghost use Rattle.ras_names_vectors.specs.Denoted.{nullable_system, nullable_names};
ghost use Rattle.ras_names_vectors.specs.Tokens.{cycle_tokens, nullable_tokens};

use crate::denoted::texts_of_systems;

/// The files of tokens, the first fault of tokens, and what tokens denote.
pub fn tokens_of_texts()
    ensures cycle { IsFileOf cycle_tokens cycle_of_two }
    ensures nullable { IsFileOf nullable_tokens nullable_text }
    ensures moved { ¬ IsFileOf nullable_tokens (record nullable_text { name = name 8 "p" }) }
    ensures fault { IsFirstFault cycle_tokens (fault 50 (Cycle (record { n = 1 }))) }
    ensures denoted { TokensDenote nullable_tokens nullable_system nullable_names }
{
    texts_of_systems();
}
