//! Worked examples of the orders of copies, answers and runs, and near misses.
ghost use Rattle.std.specs.Prelude.{codes, true, false, None};
ghost use Rattle.aprs_transmissions.specs.Order.{IsBelow};
ghost use Rattle.aprs_lists.specs.Answers.{asked_cmp, reply_cmp};
ghost use Rattle.aprs_lists.specs.Copies.{copy_cmp};
ghost use Rattle.aprs_lists.specs.Examples.{message_to};
ghost use Rattle.aprs_lists.specs.NetExamples.{ack_at, asked, copy_by, copy_of_text, other_at, rej_at, run_of, said, sent};
ghost use Rattle.aprs_lists.specs.Runs.{IsSentBefore};

/// Copies go by message, first moment, gate, where none comes before any, and last moment.
pub fn copies_are_in_order()
    ensures message { IsBelow copy_cmp (copy_of_text (codes "Ha") 5 9) (said 1 2) }
    ensures first { IsBelow copy_cmp (other_at 0 9) (said 1 2) }
    ensures gate { IsBelow copy_cmp (copy_by 1 0 9) (copy_by 2 0 1) }
    ensures direct { IsBelow copy_cmp (said 0 9) (other_at 0 1) }
    ensures last { IsBelow copy_cmp (said 0 1) (said 0 2) }
    ensures misses_same { IsBelow copy_cmp (said 0 1) (said 0 1) → ⊥ }
{}

/// What is asked goes by whose message it is, who answers, the number, and an ack or rej before a
/// reply-ack.
pub fn questions_are_in_order()
    ensures source { IsBelow asked_cmp (asked 7 9 (codes "2") true) (asked 8 1 (codes "1") false) }
    ensures answerer { IsBelow asked_cmp (asked 7 8 (codes "2") true)
        (asked 7 9 (codes "1") false) }
    ensures number { IsBelow asked_cmp (asked 7 8 (codes "1") true) (asked 7 8 (codes "2") false) }
    ensures form { IsBelow asked_cmp (asked 7 8 (codes "1") false) (asked 7 8 (codes "1") true) }
    ensures misses_same { IsBelow asked_cmp (asked 7 8 (codes "1") true)
        (asked 7 8 (codes "1") true) → ⊥ }
{}

/// Answers go by what they are for, the moment, and an acknowledgement before a rejection.
pub fn answers_are_in_order()
    ensures question { IsBelow reply_cmp
        (record { asked = asked 7 8 (codes "1") false; moment = 9; is_rejection = true })
        (record { asked = asked 7 8 (codes "2") false; moment = 1; is_rejection = false }) }
    ensures moment { IsBelow reply_cmp (rej_at 100) (ack_at 101) }
    ensures ack_before_rej { IsBelow reply_cmp (ack_at 100) (rej_at 100) }
    ensures misses_same { IsBelow reply_cmp (rej_at 100) (rej_at 100) → ⊥ }
    ensures misses_later { IsBelow reply_cmp (ack_at 101) (rej_at 100) → ⊥ }
{}

/// Runs go by message, and runs of one message by their first moment.
pub fn runs_are_in_order()
    ensures message { IsSentBefore (run_of (message_to (codes "N0CALL-8") (codes "Ha") None))
        (sent 5 9 None) }
    ensures first { IsSentBefore (sent 5 9 None) (sent 6 7 None) }
    ensures misses_same { IsSentBefore (sent 5 9 None) (sent 5 9 None) → ⊥ }
{}
