//! Worked examples of numbers with decimals, and near misses.
ghost use Rattle.std.specs.Prelude.{pos, codes, neg_ℤ, ℕ, ◌∷◌, []};
ghost use Rattle.aprs_details.specs.Decimal.{decimal_degrees_text, hundredths_text, metres_text, nearest, IsNearest};
ghost use Rattle.aprs_details.specs.Examples.{Gives, parts};

/// Angles have seven decimals, to the nearest, and the sign of their number; what is rounded to 0
/// has none.
pub fn degrees_have_seven_decimals()
    ensures reads { Gives decimal_degrees_text (
        (parts (pos 294350) (pos 6000), codes "49.0583333") ∷  -- plain
        (parts (neg_ℤ (pos 432175)) (pos 6000), codes "-72.0291667") ∷  -- west
        (parts (pos 18855837) (pos 380926), codes "49.5000000") ∷  -- compressed
        (parts (pos 540000) (pos 6000), codes "90.0000000") ∷  -- the pole
        (parts (neg_ℤ (pos 1080000)) (pos 6000), codes "-180.0000000") ∷  -- the date line
        (parts (pos 1) (pos 6000), codes "0.0001667") ∷  -- small
        (parts (pos 0) (pos 6000), codes "0.0000000") ∷  -- nought
        (parts (neg_ℤ (pos 1)) (pos 6000), codes "-0.0001667") ∷  -- small, below
        (parts (pos 1) (pos 380926), codes "0.0000026") ∷  -- the least compressed
        (parts (neg_ℤ (pos 1)) (pos 380926), codes "-0.0000026") ∷  -- below
        (parts (pos 1) (pos 60000), codes "0.0000167") ∷  -- a digit more
        (parts (neg_ℤ (pos 1)) (pos 60000), codes "-0.0000167") ∷  -- below
        (parts (pos 1) (pos 20000000), codes "0.0000001") ∷  -- half
        (parts (neg_ℤ (pos 1)) (pos 20000000), codes "-0.0000001") ∷  -- half, below
        (parts (pos 1) (pos 20000001), codes "0.0000000") ∷  -- under half
        (parts (neg_ℤ (pos 1)) (pos 20000001), codes "0.0000000") ∷  -- no minus
        (parts (pos 599999999) (pos 60000000), codes "10.0000000") ∷ [])  -- up to a degree
    }
{}

/// Hundredths have two.
pub fn hundredths_have_two_decimals()
    ensures reads { Gives hundredths_text (
        (2013, codes "20.13") ∷  -- shown
        (5000, codes "50.00") ∷  -- whole
        (0, codes "0.00") ∷  -- nought
        (5, codes "0.05") ∷  -- small
        (99, codes "0.99") ∷  -- below one
        (100, codes "1.00") ∷  -- one
        (203783, codes "2037.83") ∷ [])  -- greatest
    }
{}

/// Metres have four.
pub fn metres_have_four_decimals()
    ensures reads { Gives metres_text (
        (pos 3761232, codes "376.1232") ∷  -- above
        (pos 5, codes "0.0005") ∷  -- small
        (pos 0, codes "0.0000") ∷  -- the sea
        (neg_ℤ (pos 1), codes "-0.0001") ∷  -- below
        (neg_ℤ (pos 5), codes "-0.0005") ∷  -- likewise
        (neg_ℤ (pos 9999), codes "-0.9999") ∷  -- likewise
        (neg_ℤ (pos 10000), codes "-1.0000") ∷ [])  -- a metre below
    }
{}

/// Of two that are equally near the greater one counts.
pub fn halves_are_rounded_up()
    ensures reads { Gives (λ (x : ℕ × ℕ). nearest x.0 x.1) (
        ((0, 1), 0) ∷  -- nought
        ((1, 2), 1) ∷  -- half
        ((3, 2), 2) ∷  -- likewise
        ((4, 9), 0) ∷  -- under half
        ((5, 9), 1) ∷  -- over half
        ((7, 1), 7) ∷ [])  -- whole
    }
{}

/// The nearest whole number is at most half above, and less than half below.
pub fn nearest_numbers_are_within_half()
    ensures whole { IsNearest 7 1 7 }
    ensures half { IsNearest 3 2 2 }
    ensures just_under { IsNearest 13 9 1 }
    ensures just_over { IsNearest 14 9 2 }
    ensures misses_half { IsNearest 3 2 1 → ⊥ }
    ensures misses_under { IsNearest 13 9 2 → ⊥ }
    ensures misses_over { IsNearest 14 9 1 → ⊥ }
    ensures misses_nought { IsNearest 4 9 1 → ⊥ }
{}
