//! Worked examples of runs of copies and of first answers, and near misses.
ghost use Rattle.std.specs.Prelude.{◌≡◌, [], ◌∷◌, None, Some};
ghost use Rattle.aprs_lists.specs.Answers.{first_in_time};
ghost use Rattle.aprs_lists.specs.Examples.{IsZeroOrTwenty};
ghost use Rattle.aprs_lists.specs.NetExamples.{ack_at, rej_at, reply_at, said, sent};
ghost use Rattle.aprs_lists.specs.Runs.{IsCopyOf, IsRunOf, runs_of};

/// A copy goes on a run if it begins at most the gap after the end of those before, also where one
/// of these ends later than the last of them. The next run says when the one before ends to count.
pub fn copies_within_the_gap_are_one_run()
    ensures none { runs_of 1000 [] ≡ [] }
    ensures one { runs_of 1000 (said 5 9 ∷ []) ≡ sent 5 9 None ∷ [] }
    ensures at_the_gap { runs_of 1000 (said 0 10 ∷ said 1010 1020 ∷ []) ≡ sent 0 1020 None ∷ [] }
    ensures past_the_gap { runs_of 1000 (said 0 10 ∷ said 1011 1020 ∷ [])
        ≡ sent 0 10 (Some 1011) ∷ sent 1011 1020 None ∷ [] }
    ensures after_a_long_one { runs_of 1000 (said 0 5000 ∷ said 10 20 ∷ said 6000 6010 ∷ [])
        ≡ sent 0 6010 None ∷ [] }
    ensures from_one_to_the_next { runs_of 1000 (said 0 0 ∷ said 900 900 ∷ said 1800 1800 ∷ [])
        ≡ sent 0 1800 None ∷ [] }
    ensures three { runs_of 10 (said 0 0 ∷ said 20 20 ∷ said 40 40 ∷ [])
        ≡ sent 0 0 (Some 20) ∷ sent 20 20 (Some 40) ∷ sent 40 40 None ∷ [] }
{}

/// The first answer counts from the start on and before the end of its time.
pub fn first_answers_are_in_time()
    ensures none { first_in_time (ack_at 100) None [] ≡ None }
    ensures at_the_start { first_in_time (ack_at 100) None (ack_at 100 ∷ []) ≡ Some (ack_at 100) }
    ensures before_the_start { first_in_time (ack_at 100) None (ack_at 99 ∷ []) ≡ None }
    ensures before_the_end { first_in_time (ack_at 100) (Some 200) (ack_at 199 ∷ [])
        ≡ Some (ack_at 199) }
    ensures at_the_end { first_in_time (ack_at 100) (Some 200) (ack_at 200 ∷ []) ≡ None }
    ensures first_of_two { first_in_time (ack_at 100) None
        (ack_at 99 ∷ rej_at 101 ∷ ack_at 102 ∷ []) ≡ Some (rej_at 101) }
    ensures of_another_form { first_in_time (ack_at 100) None (reply_at 100 ∷ []) ≡ None }
{}

/// A run goes on over the gap, and ends where nothing is within it.
pub fn runs_are_bounded_by_the_gap()
    ensures apart { IsRunOf 19 IsZeroOrTwenty 0 0 }
    ensures together { IsRunOf 20 IsZeroOrTwenty 0 20 }
    ensures misses_after { IsRunOf 20 IsZeroOrTwenty 0 0 → ⊥ }
    ensures misses_before { IsRunOf 20 IsZeroOrTwenty 20 20 → ⊥ }
    ensures misses_between { IsRunOf 19 IsZeroOrTwenty 0 20 → ⊥ }
    ensures misses_order { IsRunOf 19 IsZeroOrTwenty 20 0 → ⊥ }
    ensures misses_first { IsRunOf 19 IsZeroOrTwenty 19 20 → ⊥ }
    ensures misses_last { IsRunOf 19 IsZeroOrTwenty 0 1 → ⊥ }
{}

/// A run has the copies that lie in it.
pub fn runs_have_copies()
    ensures whole { IsCopyOf (sent 5 9 None) (said 5 9) }
    ensures misses_before { IsCopyOf (sent 5 9 None) (said 4 9) → ⊥ }
    ensures misses_after { IsCopyOf (sent 5 9 None) (said 5 10) → ⊥ }
{}
