//! Worked examples of arguments that commands take, and near misses. Their functions do nothing.
ghost use Rattle.std.specs.Prelude.{◌≡◌, ◌∷◌, [], codes, true, false};
ghost use Rattle.clap.specs.Words.{takes};
ghost use Rattle.aprs_arguments.specs.Arguments as Spec;

/// `check` takes one input or none, and `merge` any number. The first word is the
/// command's own name.
pub fn commands_take_inputs()
    ensures none { takes Spec.check_app (codes "check" ∷ []) ≡ true }
    ensures one { takes Spec.check_app (codes "check" ∷ codes "a" ∷ []) ≡ true }
    ensures misses_two { takes Spec.check_app (codes "check" ∷ codes "a" ∷ codes "b" ∷ [])
        ≡ false }
    ensures two { takes Spec.merge_app (codes "merge" ∷ codes "a" ∷ codes "b" ∷ []) ≡ true }
{}

/// `widen` takes a gap of 1 to 3,600 seconds, and has to be given one.
pub fn commands_take_gaps()
    ensures least { takes Spec.widen_app (codes "widen" ∷ codes "1" ∷ []) ≡ true }
    ensures greatest { takes Spec.widen_app (codes "widen" ∷ codes "3600" ∷ []) ≡ true }
    ensures misses_nought { takes Spec.widen_app (codes "widen" ∷ codes "0" ∷ []) ≡ false }
    ensures misses_more { takes Spec.widen_app (codes "widen" ∷ codes "3601" ∷ []) ≡ false }
    ensures misses_none { takes Spec.widen_app (codes "widen" ∷ []) ≡ false }
{}
