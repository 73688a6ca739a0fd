//! Worked examples of what a check writes, and near misses that they leave out. The functions do
//! nothing.
ghost use Rattle.std.specs.Prelude.{[], ◌++◌, ℕ, List, None, codes};
ghost use Rattle.aprs_io.specs.declared.input.InputEnd.TheVariants.{End, Read};
ghost use Rattle.aprs_log.specs.Examples.{hi_line, unended_line};
ghost use Rattle.aprs_convert.specs.Check.{Checks};

/// A check of a log of no line writes that no line is heard and none passed over, and no other
/// number. Where a read failed, a check doesn't end without a fault, and so writes no totals.
pub fn checks_count_lines()
    ensures empty { Checks None [] End (codes "heard 0 passed 0\n") }
    ensures misses_number { Checks None [] End (codes "heard 1 passed 0\n") → ⊥ }
    ensures misses_failed_read { (written : List ℕ) → Checks None [] Read written → ⊥ }
{}

/// A check gives the number of each line that is passed over, of all lines from 1, and says why.
/// Last it says how many lines are heard, and then how many are passed over.
pub fn checks_name_lines()
    ensures second { Checks None
        (hi_line ++ codes "\n" ++ unended_line ++ codes "\n" ++ hi_line ++ codes "\n") End
        (codes "line 2 passed Unended\nheard 2 passed 1\n") }
    ensures misses_totals { Checks None
        (hi_line ++ codes "\n" ++ unended_line ++ codes "\n" ++ hi_line ++ codes "\n") End
        (codes "line 2 passed Unended\nheard 1 passed 2\n") → ⊥ }
{}
