//! Worked examples of more digits of a position, and near misses.
ghost use Rattle.std.specs.Prelude.{codes, false, true, Some, pos, neg_ℤ, None, ◌≡◌, ◌∷◌, []};
ghost use Rattle.aprs_details.specs.Examples.{Gives, more_digits, Misses, with_digits, one_and_two, here, angle, far_south, nowhere, digit_left_out, compressed_place, halves_in, halves, signed_digits_in, signed_digits, mic_e_signed_digits, bytes_with, numbers_from};
ghost use Rattle.aprs_details.specs.Halves.{mic_e_halves_of};
ghost use Rattle.aprs_details.specs.Precision.{precision_of, scale_of, tenth_of, ninety_first_of};
ghost use Rattle.aprs_details.specs.declared.precision.Scale.TheVariants.{Tenths, NinetyFirsts};

/// Decimal digits after W, and digits of base 91 after w, anywhere.
pub fn comments_have_more_digits()
    ensures reads { Gives precision_of (
        (codes "!W12!", more_digits Tenths 1 2) ∷  -- decimal
        (codes "!w:!!", more_digits NinetyFirsts 25 0) ∷  -- base 91
        (codes "!w{ !", more_digits NinetyFirsts 90 0) ∷  -- greatest, open
        (codes "!W 9!", more_digits Tenths 0 9) ∷  -- open
        (codes "Hi!!W12!!W34!", more_digits Tenths 1 2) ∷  -- first
        (codes "!N27!!W12!", more_digits Tenths 1 2) ∷ [])  -- after another datum
    }
    ensures misses { Misses precision_of (
        codes "!W1!" ∷  -- one digit
        codes "!W123!" ∷  -- three
        codes "!W1a!" ∷  -- no decimal digit
        codes "!W/1!" ∷  -- before the digits
        codes "!W:1!" ∷  -- after the digits
        codes "!w|1!" ∷  -- past base 91
        codes "!V12!" ∷  -- before W
        codes "!X12!" ∷  -- after W
        codes "!v12!" ∷  -- before w
        codes "!x12!" ∷  -- after w
        codes "!yes!" ∷  -- a word
        codes "W12!" ∷  -- no mark before
        codes "!W12" ∷ [])  -- no mark after
    }
{}

/// Digits count away from the equator and from Greenwich, as tenths or ninety-firsts. A place at 0
/// degrees lies in the half that its letter names.
pub fn digits_make_places_finer()
    ensures tenths { with_digits (one_and_two Tenths false true, here)
        ≡ Some (angle (pos 2943501) 60000, angle (neg_ℤ (pos 4321752)) 60000) }
    ensures ninety_firsts { with_digits (one_and_two NinetyFirsts false true, here)
        ≡ Some (angle (pos 26785851) 546000, angle (neg_ℤ (pos 39327927)) 546000) }
    ensures far_south { with_digits (one_and_two Tenths true false, far_south)
        ≡ Some (angle (neg_ℤ (pos 2943501)) 60000, angle (pos 4321752) 60000) }

    ensures north_and_east { with_digits (one_and_two Tenths false false, nowhere)
        ≡ Some (angle (pos 1) 60000, angle (pos 2) 60000) }
    ensures south_and_west { with_digits (one_and_two Tenths true true, nowhere)
        ≡ Some (angle (neg_ℤ (pos 1)) 60000, angle (neg_ℤ (pos 2)) 60000) }
    ensures south { with_digits (one_and_two NinetyFirsts true false, nowhere)
        ≡ Some (angle (neg_ℤ (pos 1)) 546000, angle (pos 2) 546000) }
    ensures west { with_digits (one_and_two NinetyFirsts false true, nowhere)
        ≡ Some (angle (pos 1) 546000, angle (neg_ℤ (pos 2)) 546000) }

    ensures misses_left_out { with_digits (one_and_two Tenths false false, digit_left_out) ≡ None }
    ensures misses_compressed { with_digits
        (one_and_two Tenths false false, compressed_place (codes " sT"))
        ≡ None }
{}

/// The letters of a plain position stand right before its comment, in whatever report it is.
pub fn letters_name_halves()
    ensures reads { Gives halves_in (
        ((codes "!5128.70N/00000.00W-", codes "!W99!"), halves false true) ∷  -- Greenwich, west
        ((codes "!5128.70N/00000.00E-", codes "!W99!"), halves false false) ∷  -- east
        ((codes "=0000.00S/00000.00W-", []), halves true true) ∷  -- the equator, south
        ((codes "=0000.00N/00000.00W-", []), halves false true) ∷  -- north
        ((codes "@092345z0000.00SN00000.00ES", codes "N"), halves true false) ∷  -- with a stamp
        -- an object
        (
          (codes ";LEADER   *092345z0000.00NS00000.00WE", codes "E"),
          halves false true,
        ) ∷
        ((codes ")LEADER!0000.00SW00000.00EW", codes "Hi"), halves true false) ∷ [])  -- an item
    }
{}

/// The fourth and the sixth letter of a Mic-E destination name the halves.
pub fn letters_of_a_destination_name_halves()
    ensures reads { Gives mic_e_halves_of (
        (codes "PPPPPP", halves false true) ∷  -- the first letter of the north, and of the west
        (codes "PPPZPZ", halves false true) ∷  -- the last
        (codes "PPP0P0", halves true false) ∷  -- the first letter of the south, and of the east
        (codes "PPP9P9", halves true false) ∷  -- the last digit
        (codes "PPPLPL", halves true false) ∷  -- the last
        (codes "000P00", halves false false) ∷  -- north alone
        (codes "00000P", halves true true) ∷ [])  -- south, and west
    }
{}

/// The digits that a comment says go with the halves that the letters name.
pub fn digits_go_with_halves()
    ensures of_report { signed_digits_in (codes "!5128.70N/00000.00W-", codes "!W99!")
        ≡ signed_digits 9 9 false true }
    ensures of_object { signed_digits_in
        (codes ";LEADER   *092345z0000.00S/00000.00E-", codes "Hi !W10!")
        ≡ signed_digits 1 0 true false }
    ensures misses_report { signed_digits_in (codes "!5128.70N/00000.00W-", codes "W99!") ≡ None }
    ensures of_mic_e { mic_e_signed_digits (codes "PPP0PP", codes "!W12!")
        ≡ signed_digits 1 2 true true }
    ensures misses_mic_e { mic_e_signed_digits (codes "PPP0PP", codes "!W1!") ≡ None }
{}

/// The letter of the datum says what a digit more counts. A space is 0.
pub fn digits_have_a_scale()
    ensures letters { bytes_with scale_of ≡ codes "Ww" }
    ensures decimal { scale_of 87 ≡ Some Tenths }
    ensures base_91 { scale_of 119 ≡ Some NinetyFirsts }
    ensures tenths { bytes_with tenth_of ≡ codes " 0123456789" }
    ensures tenths_read { Gives tenth_of (
        (32, Some 0) ∷  -- a space
        (48, Some 0) ∷
        (49, Some 1) ∷
        (57, Some 9) ∷ []) }
    ensures ninety_firsts { bytes_with ninety_first_of ≡ numbers_from 32 92 }
    ensures ninety_firsts_read { Gives ninety_first_of (
        (32, Some 0) ∷  -- a space
        (33, Some 0) ∷
        (34, Some 1) ∷
        (123, Some 90) ∷ []) }
{}
