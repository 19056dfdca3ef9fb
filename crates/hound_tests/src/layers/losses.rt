// What a loss of power may leave, evaluated by the prover.
ghost use Rattle.std.specs.Prelude.{◌∷◌, []};
ghost use Rattle.hound_durable.specs.{Ascends, SurvivesLoss};

use std::test::Fail;

// A file of four zeros, where a 7 is written at 4, after them, and then a 1 at 0, which counts it;
// a sector has two bytes. If both bytes may be lost, the count can be there and not what it counts.
// If the 7 was flushed before the 1 was written, it can't.
fn a_loss_of_two_bytes()
    ensures goes_back { Ascends ((4, 7) ∷ (0, 1) ∷ []) 0 2 → ⊥ }
    ensures counts_what_is_lost { SurvivesLoss 2 (0 ∷ 0 ∷ 0 ∷ 0 ∷ []) ((4, 7) ∷ (0, 1) ∷ []) 0 2
        (1 ∷ 0 ∷ 0 ∷ 0 ∷ []) }
    ensures ascends { Ascends ((4, 7) ∷ (0, 1) ∷ []) 1 2 }
    ensures is_there { SurvivesLoss 2 (0 ∷ 0 ∷ 0 ∷ 0 ∷ []) ((4, 7) ∷ (0, 1) ∷ []) 1 2
        (1 ∷ 0 ∷ 0 ∷ 0 ∷ []) → ⊥ }
    ensures before { SurvivesLoss 2 (0 ∷ 0 ∷ 0 ∷ 0 ∷ []) ((4, 7) ∷ (0, 1) ∷ []) 1 2
        (0 ∷ 0 ∷ 0 ∷ 0 ∷ 7 ∷ []) }
    ensures after { SurvivesLoss 2 (0 ∷ 0 ∷ 0 ∷ 0 ∷ []) ((4, 7) ∷ (0, 1) ∷ []) 1 2
        (1 ∷ 0 ∷ 0 ∷ 0 ∷ 7 ∷ []) }
    ensures no_other { SurvivesLoss 2 (0 ∷ 0 ∷ 0 ∷ 0 ∷ []) ((4, 7) ∷ (0, 1) ∷ []) 1 2
        (1 ∷ 0 ∷ 0 ∷ 0 ∷ 0 ∷ []) → ⊥ }
{}

#[test]
fn a_loss_is_what_the_definition_says() -> Result<(), Fail> {
    a_loss_of_two_bytes();
    Ok(())
}
