//! Worked examples of how an input begins, and near misses. The functions do nothing.
ghost use Rattle.std.specs.Prelude.{[], ◌∷◌, ◌++◌, None, Some, codes};
ghost use Rattle.aprs_fold.specs.Begun.{BeginsWith};
ghost use Rattle.aprs_fold.specs.Examples.{begun_under_31, uncalled};
ghost use Rattle.aprs_fold.specs.Inputs.{BeginsOther, IsRefused};
ghost use Rattle.aprs_fold.specs.declared.fault.FoldFault.TheVariants.{OtherGap};

/// The gap of an input is that of its header, and in version 2 the standard one.
pub fn headers_tell_the_gap()
    ensures other { BeginsOther 30 (Some begun_under_31) }
    ensures version_two { BeginsOther 31 (Some (codes "APRSBOOK 2" ++ 10 ∷ [])) }
    ensures unknown { BeginsOther 30 None }
    ensures begins { BeginsWith 31 [] (Some begun_under_31) }
    ensures misses_same { BeginsOther 31 (Some begun_under_31) → ⊥ }
    ensures misses_standard { BeginsOther 30 (Some (codes "APRSBOOK 2" ++ 10 ∷ [])) → ⊥ }
    ensures misses_gap { BeginsWith 30 [] (Some begun_under_31) → ⊥ }
{}

/// Inputs have numbers from 0 on. The number of a refusal is that of the input that has it.
pub fn refusals_name_an_input()
    ensures second { IsRefused Some 100 31 (OtherGap 1)
        (uncalled begun_under_31 ∷ uncalled (codes "APRSBOOK 2" ++ 10 ∷ []) ∷ []) [] }
    ensures misses_first { IsRefused Some 100 31 (OtherGap 0)
        (uncalled begun_under_31 ∷ uncalled (codes "APRSBOOK 2" ++ 10 ∷ []) ∷ []) [] → ⊥ }
{}
