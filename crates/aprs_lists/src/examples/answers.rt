//! Worked examples of which answer decides on a run of a message, and near misses.
ghost use Rattle.std.specs.Prelude.{◌≡◌, [], ◌∷◌, None, Some, codes, false, true};
ghost use Rattle.aprs_summary.specs.declared.lists.message.MessageState.TheVariants.{Unanswered, Acknowledged, Rejected};
ghost use Rattle.aprs_summary.specs.declared.lists.reply_ack.ReplyAck.TheVariants.{NotAwaited, Awaited, Heard};
ghost use Rattle.aprs_lists.specs.Chosen.{chosen, is_early, is_timely};
ghost use Rattle.aprs_lists.specs.Examples.{message_to};
ghost use Rattle.aprs_lists.specs.NetExamples.{ack_at, answer_by, coded_ack, numbered, rej_at, reply_at, run_of, sent};
ghost use Rattle.aprs_lists.specs.Runs.{Sent};
ghost use Rattle.aprs_lists.specs.Told.{AreTold, IsToldRun, Told, sent_told, told_found};

/// Answers count from the first moment less the gap on, and before the next run begins.
pub fn answers_count_in_the_time_of_a_run()
    ensures at_the_start { (told_found 30 (ack_at 70 ∷ []) (sent 100 200 None)).answered ≡ Some 70 }
    ensures before_the_start { (told_found 30 (ack_at 69 ∷ []) (sent 100 200 None)).answered
        ≡ None }
    ensures from_the_first_moment { (told_found 30 (ack_at 0 ∷ []) (sent 10 200 None)).answered
        ≡ Some 0 }
    ensures long_after { (told_found 30 (ack_at 999 ∷ []) (sent 100 200 None)).answered ≡ Some 999 }
    ensures before_the_next { (told_found 30 (ack_at 299 ∷ []) (sent 100 200 (Some 300))).answered
        ≡ Some 299 }
    ensures at_the_next { (told_found 30 (ack_at 300 ∷ []) (sent 100 200 (Some 300))).answered
        ≡ None }
    ensures the_first { (told_found 30 (ack_at 60 ∷ rej_at 110 ∷ ack_at 120 ∷ [])
        (sent 100 200 None)).state ≡ Rejected }
{}

/// An answer is for the number of the message, and comes from its addressee.
pub fn answers_are_for_a_message()
    ensures acknowledged { (told_found 30 (answer_by 8 (codes "1") 110 ∷ [])
        (sent 100 200 None)).state ≡ Acknowledged }
    ensures misses_number { (told_found 30 (answer_by 8 (codes "2") 110 ∷ [])
        (sent 100 200 None)).state ≡ Unanswered }
    ensures misses_station { (told_found 30 (answer_by 9 (codes "1") 110 ∷ [])
        (sent 100 200 None)).state ≡ Unanswered }
    ensures misses_callsign { (told_found 30 (ack_at 110 ∷ [])
        (run_of (message_to (codes "N0CALL-16") (codes "Hi") (Some (codes "1"))))).state
        ≡ Unanswered }
    ensures of_the_text { (told_found 30 (answer_by 8 (codes "05") 110 ∷ [])
        (run_of (message_to (codes "N0CALL-8") (codes "Hi{05}") None))).outcome ≡ Acknowledged }
    ensures misses_text { (told_found 30 (answer_by 8 (codes "06") 110 ∷ [])
        (run_of (message_to (codes "N0CALL-8") (codes "Hi{05}") None))).outcome ≡ Unanswered }
{}

/// An ack or rej makes the state, and a reply-ack what came of the number for reply-acks. The
/// earlier of the two makes the outcome.
pub fn answers_have_two_forms()
    ensures by_reply { (told_found 30 (reply_at 110 ∷ []) (sent 100 200 None)).outcome
        ≡ Acknowledged }
    ensures by_reply_alone { (told_found 30 (reply_at 110 ∷ []) (sent 100 200 None)).state
        ≡ Unanswered }
    ensures of_an_id { (told_found 30 (reply_at 110 ∷ []) (sent 100 200 None)).reply_ack
        ≡ NotAwaited }
    ensures of_a_number { (told_found 30 (reply_at 110 ∷ [])
        (run_of (message_to (codes "N0CALL-8") (codes "Hi{1}") None))).reply_ack ≡ Heard 110 }
    ensures by_an_ack { (told_found 30 (ack_at 110 ∷ [])
        (run_of (message_to (codes "N0CALL-8") (codes "Hi{1}") None))).reply_ack ≡ Awaited }
    ensures earlier_reply { (told_found 30 (rej_at 120 ∷ reply_at 110 ∷ [])
        (sent 100 200 None)).settled ≡ Some 110 }
    ensures earlier_rej { (told_found 30 (rej_at 110 ∷ reply_at 120 ∷ [])
        (sent 100 200 None)).outcome ≡ Rejected }
{}

/// A run is told by its first ack or rej, and by its first reply-ack. Neither counts as the other,
/// and none is told that wasn't heard.
pub fn runs_are_told_by_both_forms()
    ensures ack { IsToldRun 30 (ack_at 110 ∷ []) numbered
        (sent_told numbered (Some (ack_at 110)) None) }
    ensures reply { IsToldRun 30 (reply_at 110 ∷ []) numbered
        (sent_told numbered None (Some (reply_at 110))) }
    ensures misses_ack_as_reply { IsToldRun 30 (ack_at 110 ∷ []) numbered
        (sent_told numbered None (Some (ack_at 110))) → ⊥ }
    ensures misses_reply_as_ack { IsToldRun 30 (reply_at 110 ∷ []) numbered
        (sent_told numbered (Some (reply_at 110)) None) → ⊥ }
    ensures misses_ack { IsToldRun 30 [] numbered
        (sent_told numbered (Some (ack_at 110)) None) → ⊥ }
    ensures misses_reply { IsToldRun 30 [] numbered
        (sent_told numbered None (Some (reply_at 110))) → ⊥ }
{}

/// Among answers in order the first that isn't early is chosen, if it is for the message, and in
/// time.
pub fn answers_are_chosen()
    ensures early { is_early (coded_ack (codes "1") 100) (coded_ack (codes "1") 99) ≡ true }
    ensures misses_early { is_early (coded_ack (codes "1") 100) (coded_ack (codes "1") 100)
        ≡ false }
    ensures timely { is_timely (coded_ack (codes "1") 100) (Some 200) (coded_ack (codes "1") 199)
        ≡ true }
    ensures misses_end { is_timely (coded_ack (codes "1") 100) (Some 200)
        (coded_ack (codes "1") 200) ≡ false }
    ensures misses_number { is_timely (coded_ack (codes "1") 100) (Some 200)
        (coded_ack (codes "2") 199) ≡ false }
    ensures without_end { is_timely (coded_ack (codes "1") 100) None (coded_ack (codes "1") 999)
        ≡ true }
    ensures first { chosen (coded_ack (codes "1") 100) None (coded_ack (codes "1") 101 ∷ [])
        ≡ Some (coded_ack (codes "1") 101) }
    ensures misses_later { chosen (coded_ack (codes "1") 100) None
        (coded_ack (codes "2") 101 ∷ coded_ack (codes "1") 102 ∷ []) ≡ None }
    ensures none { chosen (coded_ack (codes "1") 100) None [] ≡ None }
{}

/// There is a line for each run, and no other.
pub fn runs_have_one_line_each()
    ensures none { AreTold 30 [] [] [] }
    ensures misses_run { (t : Told) → AreTold 30 [] [] (t ∷ []) → ⊥ }
    ensures misses_line { (r : Sent) → AreTold 30 [] (r ∷ []) [] → ⊥ }
{}
