ghost use Rattle.std.specs.Prelude.{◌≡◌, ℕ, List};
ghost use Rattle.ras_lines.specs.Faults.{AreLines};

/// Bytes are lines, each with its end, and a rest without one, which may be empty.
pub fn bytes_are_lines()
    ensures every { (bytes : List ℕ) → (lines : List (List ℕ)) × (rest : List ℕ) × AreLines bytes lines rest }
    ensures one { (bytes rest more : List ℕ) (lines others : List (List ℕ)) → AreLines bytes lines rest → AreLines bytes others more → (lines ≡ others) × (rest ≡ more) }
{}
