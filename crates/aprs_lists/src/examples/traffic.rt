//! Worked examples of what rows hold of messages: copies of them and answers; and near misses.
ghost use Rattle.std.specs.Prelude.{[], ◌∷◌, codes};
ghost use Rattle.aprs_summary.specs.Examples.{heard_by};
ghost use Rattle.aprs_transmissions.specs.Examples.{example_row, rx1};
ghost use Rattle.aprs_lists.specs.Answers.{Reply};
ghost use Rattle.aprs_lists.specs.Copies.{Copy};
ghost use Rattle.aprs_lists.specs.Examples.{row_by};
ghost use Rattle.aprs_lists.specs.NetExamples.{ack_at, other_at, rej_at, reply_at, said};
ghost use Rattle.aprs_lists.specs.Traffic.{GivesCopy, GivesNetReply};

/// A row is a copy of the message that its frame says, or passes on for a callsign, from its first
/// to its last moment. An ack is none.
pub fn rows_are_copies()
    ensures heard { GivesCopy
        (example_row 40 (rx1 ∷ []) (heard_by 7 45 (codes ":N0CALL-8 :Hi{1"))) (said 40 45) }
    ensures passed_on { GivesCopy (row_by 1 50 (codes "}N0CALL-7>APRS::N0CALL-8 :Hi{1"))
        (other_at 50 50) }
    ensures misses_callsign { (c : Copy)
        → GivesCopy (row_by 1 50 (codes "}N0CALL-16>APRS::N0CALL-8 :Hi{1")) c → ⊥ }
    ensures misses_ack { (c : Copy) → GivesCopy (row_by 8 60 (codes ":N0CALL-7 :ack1")) c → ⊥ }
{}

/// A row is an answer at its first moment: an ack, a rej, or a text that acknowledges, also where a
/// gate passes it on for a callsign.
pub fn rows_are_answers()
    ensures ack { GivesNetReply
        (example_row 60 (rx1 ∷ []) (heard_by 8 65 (codes ":N0CALL-7 :ack1"))) (ack_at 60) }
    ensures rej { GivesNetReply (row_by 8 60 (codes ":N0CALL-7 :rej1")) (rej_at 60) }
    ensures passed_on { GivesNetReply (row_by 1 60 (codes "}N0CALL-8>APRS::N0CALL-7 :ack1"))
        (ack_at 60) }
    ensures reply_ack { GivesNetReply (row_by 8 60 (codes ":N0CALL-7 :ack1}")) (reply_at 60) }
    ensures with_a_reply { GivesNetReply (row_by 8 60 (codes ":N0CALL-7 :Hi{5}1")) (reply_at 60) }
    ensures misses_callsign { (a : Reply)
        → GivesNetReply (row_by 1 60 (codes "}N0CALL-16>APRS::N0CALL-7 :ack1")) a → ⊥ }
{}
