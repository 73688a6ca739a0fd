//! Worked examples of messages and of what answers them, and near misses.
ghost use Rattle.std.specs.Prelude.{◌≡◌, [], ◌∷◌, Some, None, codes};
ghost use Rattle.aprs_transmissions.specs.Order.{IsBelow};
ghost use Rattle.aprs_transmissions.specs.Examples.{key_by};
ghost use Rattle.aprs_summary.specs.declared.lists.message.MessageState.TheVariants.{Unnumbered, Unanswered, Acknowledged, Rejected};
ghost use Rattle.aprs_summary.specs.Messages as Spec;
ghost use Rattle.aprs_summary.specs.Examples.{message_by, hi_message, one, asked_at, acknowledged_at, rejected_at, hi_listed, asked_again};

/// A message has a source, an addressee, a text, and an id or none. Its answer is no message.
pub fn messages_have_four_parts()
    ensures numbered { Spec.message_in (key_by 7 (codes ":N0CALL-8 :Hi{1"))
        ≡ Some (hi_message one) }
    ensures line_end { Spec.message_in (key_by 7 (codes ":N0CALL-8 :Hi{1\r"))
        ≡ Some (hi_message one) }
    ensures unnumbered { Spec.message_in (key_by 7 (codes ":N0CALL-8 :Hi"))
        ≡ Some (hi_message None) }
    ensures answer { Spec.message_in (key_by 8 (codes ":N0CALL-7 :ack1")) ≡ None }
    ensures misses_source { Spec.message_in (key_by 9 (codes ":N0CALL-8 :Hi{1"))
        ≡ Some (hi_message one) → ⊥ }
{}

/// Messages go by source, addressee, text, and then id, where none comes first. SSIDs are ordered
/// as numbers.
pub fn messages_are_in_order()
    ensures source { IsBelow Spec.message_cmp (message_by 2 (codes "b") (codes "b") one)
        (message_by 10 (codes "a") (codes "a") None) }
    ensures addressee { IsBelow Spec.message_cmp (message_by 7 (codes "a") (codes "b") one)
        (message_by 7 (codes "b") (codes "a") None) }
    ensures text { IsBelow Spec.message_cmp (message_by 7 (codes "a") (codes "a") one)
        (message_by 7 (codes "a") (codes "b") None) }
    ensures no_id { IsBelow Spec.message_cmp (hi_message None) (hi_message one) }
    ensures id { IsBelow Spec.message_cmp (hi_message one) (hi_message (Some (codes "2"))) }
    ensures misses_same { IsBelow Spec.message_cmp (hi_message one) (hi_message one) → ⊥ }
{}

/// An answer is for one id, comes from the message's addressee, and goes to its source.
pub fn addressees_answer()
    ensures acknowledged { Spec.AnswersIt (hi_message one) (codes "1")
        (key_by 8 (codes ":N0CALL-7 :ack1")) }
    ensures rejected { Spec.AnswersIt (hi_message one) (codes "1")
        (key_by 8 (codes ":N0CALL-7 :rej1")) }
    ensures misses_id { Spec.AnswersIt (hi_message one) (codes "1")
        (key_by 8 (codes ":N0CALL-7 :ack2")) → ⊥ }
    ensures misses_sender { Spec.AnswersIt (hi_message one) (codes "1")
        (key_by 7 (codes ":N0CALL-7 :ack1")) → ⊥ }
    ensures misses_addressee { Spec.AnswersIt (hi_message one) (codes "1")
        (key_by 8 (codes ":N0CALL-8 :ack1")) → ⊥ }
{}

/// The greatest answer says what came of a message, and counts from the message's first moment on.
pub fn greatest_answers_count()
    ensures unnumbered { Spec.IsStateOf (asked_at 0 ∷ []) (hi_message one) 0 None Unnumbered }
    ensures unanswered { Spec.IsStateOf (asked_at 0 ∷ []) (hi_message one) 0 one Unanswered }
    ensures at_first_moment { Spec.IsStateOf (asked_at 7 ∷ acknowledged_at 7 ∷ [])
        (hi_message one) 7 one Acknowledged }
    ensures rejected { Spec.IsStateOf (asked_at 0 ∷ acknowledged_at 10 ∷ rejected_at 20 ∷ [])
        (hi_message one) 0 one Rejected }

    ensures misses_before { Spec.IsStateOf (asked_at 7 ∷ acknowledged_at 6 ∷ []) (hi_message one) 7
        one Acknowledged → ⊥ }
    ensures misses_lesser { Spec.IsStateOf (asked_at 0 ∷ acknowledged_at 10 ∷ rejected_at 20 ∷ [])
        (hi_message one) 0 one Acknowledged → ⊥ }
{}

/// A message that is sent once more after its acknowledgement stays acknowledged, since its first
/// moment counts. It is one row, whose last moment is that of the second time.
pub fn messages_are_judged_from_their_first_moment()
    ensures again { Spec.AreMessages asked_again (hi_listed 0 20 Acknowledged (Some 10) ∷ []) }
    ensures misses_unanswered { Spec.AreMessages asked_again
        (hi_listed 0 20 Unanswered None ∷ []) → ⊥ }
    ensures misses_last { Spec.AreMessages asked_again
        (hi_listed 0 0 Acknowledged (Some 10) ∷ []) → ⊥ }
    ensures misses_twice { Spec.AreMessages asked_again
        (hi_listed 0 20 Acknowledged (Some 10) ∷ hi_listed 0 20 Acknowledged (Some 10) ∷ [])
        → ⊥ }
    ensures misses_answered { Spec.AreMessages asked_again
        (hi_listed 0 20 Acknowledged (Some 0) ∷ []) → ⊥ }
    ensures misses_none { Spec.AreMessages asked_again [] → ⊥ }
{}
