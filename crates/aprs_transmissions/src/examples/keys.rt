//! Worked examples of keys and their order, and near misses.
ghost use Rattle.std.specs.Prelude.{◌≡◌, [], ◌∷◌, codes};
ghost use Rattle.std.specs.declared.cmp.Ordering.TheVariants.{Less, Equal, Greater};
ghost use Rattle.aprs_ax25.specs.Callsign.{call_cmp};
ghost use Rattle.aprs_log.specs.Reception.{bytes_cmp};
ghost use Rattle.aprs_transmissions.specs.Key.{key_of, key_cmp};
ghost use Rattle.aprs_transmissions.specs.JoinRow.{plain_book};
ghost use Rattle.aprs_transmissions.specs.Examples.{half_minute, rx1, hi_frame, hi_after_digipeater, hi_as_response, hi_to, of_other, hi_key, n0call, key_by, key_to, sent_to, example_row};

/// Copies of a frame with other digipeaters and other C and H bits have one key. Another SSID is
/// another key.
pub fn copies_have_one_key()
    ensures direct { key_of hi_frame ≡ hi_key }
    ensures repeated { key_of hi_after_digipeater ≡ hi_key }
    ensures as_response { key_of hi_as_response ≡ hi_key }

    ensures misses_other_ssid { key_of of_other ≡ hi_key → ⊥ }
    ensures misses_bytes { hi_frame ≡ hi_after_digipeater → ⊥ }
{}

/// Keys are ordered by source first. SSIDs are ordered as numbers, and not as their texts.
#[tactic(auto, unfolding(crate::specs::Key::key_cmp))]
pub fn sources_are_ordered_first()
    ensures source { key_cmp (key_by 2 (codes "b")) (key_by 10 (codes "a")) ≡ Less }
    ensures misses_information { bytes_cmp (codes "b") (codes "a") ≡ Greater }
    ensures ssid { call_cmp (n0call 2) (n0call 10) ≡ Less }
    ensures misses_text { bytes_cmp (codes "N0CALL-2") (codes "N0CALL-10") ≡ Greater }
{}

/// The destination's SSID is part of the key, so that two frames to APRS-1 and APRS-2 are two
/// transmissions, and two to APRS-1 are one.
#[tactic(auto, unfolding(crate::specs::Key::key_of, crate::specs::Key::key_cmp))]
pub fn destinations_have_ssids()
    ensures direct { key_of (hi_to 0) ≡ hi_key }
    ensures misses_other_ssid { key_of (hi_to 1) ≡ key_of (hi_to 2) → ⊥ }

    ensures one_row { plain_book half_minute (sent_to 1 ∷ sent_to 1 ∷ [])
        ≡ example_row 0 (rx1 ∷ []) (sent_to 1) ∷ [] }
    ensures two_rows { plain_book half_minute (sent_to 1 ∷ sent_to 2 ∷ [])
        ≡ example_row 0 (rx1 ∷ []) (sent_to 1) ∷ example_row 0 (rx1 ∷ []) (sent_to 2) ∷ [] }
{}

/// Keys go by source, then destination, then information, and callsigns by their letters and then
/// by their SSID: what comes later decides only where all before it is equal.
#[tactic(auto, unfolding(crate::specs::Key::key_cmp))]
pub fn keys_are_ordered_part_by_part()
    ensures source { key_cmp (key_to 1 2 (codes "b")) (key_to 2 1 (codes "a")) ≡ Less }
    ensures destination { key_cmp (key_to 1 1 (codes "b")) (key_to 1 2 (codes "a")) ≡ Less }
    ensures information { key_cmp (key_to 1 1 (codes "a")) (key_to 1 1 (codes "b")) ≡ Less }
    ensures same { key_cmp (key_to 1 1 (codes "a")) (key_to 1 1 (codes "a")) ≡ Equal }

    ensures letters { call_cmp (record { characters = codes "AA"; ssid = 15 })
        (record { characters = codes "AB"; ssid = 0 }) ≡ Less }
    ensures shorter { call_cmp (record { characters = codes "A"; ssid = 15 })
        (record { characters = codes "AA"; ssid = 0 }) ≡ Less }
{}
