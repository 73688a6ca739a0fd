//! Worked examples of reply-acks (APRS 1.1), and near misses.
ghost use Rattle.std.specs.Prelude.{[], ◌∷◌, codes};
ghost use Rattle.aprs_transmissions.specs.Examples.{key_by};
ghost use Rattle.aprs_summary.specs.declared.lists.reply_ack.ReplyAck.TheVariants.{NotAwaited, Awaited, Heard};
ghost use Rattle.aprs_summary.specs.Messages as Spec;
ghost use Rattle.aprs_summary.specs.ReplyAcks.{IsAckText, IsNumberedText, IsReplyAckText};
ghost use Rattle.aprs_summary.specs.Examples.{message_by, hi_message, one, asked_at, numbered_message, numbered_at, replied_at, other_ack_at};

/// A text that has a number, one or two letters or digits, ends with it between braces. After them
/// stands what the text acknowledges: another such number, or nothing.
pub fn numbers_stand_between_braces()
    ensures alone { IsNumberedText (codes "19") [] (codes "Hi{19}") }
    ensures with_another { IsNumberedText (codes "19") (codes "AB") (codes "Hi{19}AB") }
    ensures of_one_byte { IsNumberedText (codes "1") (codes "z") (codes "{1}z") }
    ensures misses_none { IsNumberedText [] [] (codes "Hi{}") → ⊥ }
    ensures misses_three { IsNumberedText (codes "123") [] (codes "Hi{123}") → ⊥ }
    ensures misses_sign { IsNumberedText (codes "1-") [] (codes "Hi{1-}") → ⊥ }
    ensures misses_three_after { IsNumberedText (codes "19") (codes "ABC") (codes "Hi{19}ABC") → ⊥ }
    ensures misses_sign_after { IsNumberedText (codes "19") (codes "A.") (codes "Hi{19}A.") → ⊥ }
    ensures misses_open { IsNumberedText (codes "19") [] (codes "(19}") → ⊥ }
    ensures misses_close { IsNumberedText (codes "19") [] (codes "{19)") → ⊥ }
{}

/// An ack of a text with a number is "ack", the number, a closing brace, and another such number or
/// nothing.
pub fn acks_have_a_brace()
    ensures alone { IsAckText (codes "AB") (codes "ackAB}") }
    ensures with_another { IsAckText (codes "19") (codes "ack19}AB") }
    ensures misses_id { IsAckText (codes "19") (codes "ack19") → ⊥ }
    ensures misses_word { IsAckText (codes "19") (codes "Ack19}") → ⊥ }
    ensures misses_three { IsAckText (codes "123") (codes "ack123}") → ⊥ }
    ensures misses_three_after { IsAckText (codes "19") (codes "ack19}ABC") → ⊥ }
{}

/// A text acknowledges the number after its own, and an ack the number before the brace.
pub fn texts_reply_to_one_number()
    ensures text { IsReplyAckText (codes "19") (codes "Yes{20}19") }
    ensures ack { IsReplyAckText (codes "20") (codes "ack20}19") }
    ensures misses_own { IsReplyAckText (codes "20") (codes "Yes{20}19") → ⊥ }
    ensures misses_nothing { IsReplyAckText [] (codes "Yes{20}") → ⊥ }
{}

/// A message has the number in its text, unless it has an id.
pub fn messages_with_an_id_have_no_number()
    ensures number { Spec.HasNumber numbered_message (codes "19") }
    ensures misses_id { Spec.HasNumber (message_by 7 (codes "N0CALL-8") (codes "Hi{19}") one)
        (codes "19") → ⊥ }
{}

/// A reply-ack is for one number, comes from the message's addressee, and goes to its source. An
/// ack of an id is none.
pub fn addressees_reply()
    ensures text { Spec.RepliesTo numbered_message (codes "19")
        (key_by 8 (codes ":N0CALL-7 :Yes{20}19")) }
    ensures ack { Spec.RepliesTo numbered_message (codes "19")
        (key_by 8 (codes ":N0CALL-7 :ack19}")) }
    ensures misses_number { Spec.RepliesTo numbered_message (codes "19")
        (key_by 8 (codes ":N0CALL-7 :ack20}")) → ⊥ }
    ensures misses_id { Spec.RepliesTo numbered_message (codes "19")
        (key_by 8 (codes ":N0CALL-7 :ack19")) → ⊥ }
    ensures misses_sender { Spec.RepliesTo numbered_message (codes "19")
        (key_by 7 (codes ":N0CALL-7 :ack19}")) → ⊥ }
    ensures misses_addressee { Spec.RepliesTo numbered_message (codes "19")
        (key_by 8 (codes ":N0CALL-8 :ack19}")) → ⊥ }
{}

/// The greatest reply-ack says what came of a number, and counts from the message's first moment
/// on.
pub fn greatest_reply_acks_count()
    ensures not_awaited { Spec.IsReplyAckOf (asked_at 0 ∷ []) (hi_message one) 0 NotAwaited }
    ensures awaited { Spec.IsReplyAckOf (numbered_at 0 ∷ other_ack_at 10 ∷ []) numbered_message 0
        Awaited }
    ensures at_first_moment { Spec.IsReplyAckOf (numbered_at 7 ∷ replied_at 7 ∷ [])
        numbered_message 7 (Heard 7) }
    ensures before { Spec.IsReplyAckOf (numbered_at 7 ∷ replied_at 6 ∷ []) numbered_message 7
        Awaited }
    ensures misses_before { Spec.IsReplyAckOf (numbered_at 7 ∷ replied_at 6 ∷ []) numbered_message 7
        (Heard 6) → ⊥ }
    ensures misses_not_awaited { Spec.IsReplyAckOf (numbered_at 7 ∷ replied_at 7 ∷ [])
        numbered_message 7 NotAwaited → ⊥ }
{}
