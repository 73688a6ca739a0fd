//! Worked examples of numbers, and near misses.
ghost use Rattle.std.specs.Prelude.{codes, true, false, Some, None, ◌≡◌, ◌∷◌, []};
ghost use Rattle.aprs_details.specs.Compressed.{is_base91};
ghost use Rattle.aprs_details.specs.Examples.{Gives, bytes_where, numbers_from};
ghost use Rattle.aprs_details.specs.Value.{is_value, known, is_whole, without_minus, is_number, is_dot};

/// The places of a number are all digits, all dots or all spaces. Dots and spaces leave it open.
pub fn places_hold_a_value()
    ensures values { Gives is_value (
        (codes "036", true) ∷  -- digits
        (codes "...", true) ∷  -- dots
        (codes "   ", true) ∷  -- spaces
        ([], true) ∷  -- no place
        (codes ". .", false) ∷  -- dots and spaces
        (codes ".. ", false) ∷
        (codes "0  ", false) ∷  -- digits and spaces
        (codes "03.", false) ∷  -- digits and dots
        (codes "-03", false) ∷  -- a minus
        (codes "/03", false) ∷  -- before the digits
        (codes ":03", false) ∷  -- after them
        (codes "03/", false) ∷
        (codes "---", false) ∷ [])  -- before the dots
    }
    ensures numbers { Gives known (
        (codes "036", Some 36) ∷
        (codes "999", Some 999) ∷
        (codes "...", None) ∷
        (codes "   ", None) ∷ []) }
{}

/// A whole number has one digit or more.
pub fn whole_numbers_have_digits()
    ensures whole { Gives is_whole (
        (codes "0", true) ∷  -- a digit
        (codes "12", true) ∷
        ([], false) ∷  -- nothing
        (codes "1a", false) ∷  -- a letter
        (codes "/", false) ∷  -- before the digits
        (codes ":", false) ∷  -- after them
        (codes "1.2", false) ∷
        (codes "-1", false) ∷ []) }
    ensures sign { Gives without_minus (
        (codes "-1", codes "1") ∷  -- one
        (codes "--1", codes "-1") ∷  -- two
        (codes "1-", codes "1-") ∷  -- behind
        (codes "+1", codes "+1") ∷  -- another
        ([], []) ∷ [])  -- nothing
    }
{}

/// A decimal number may have a minus, and a point with a digit after it.
pub fn decimal_numbers_have_digits()
    ensures numbers { Gives is_number (
        (codes "12", true) ∷  -- whole
        (codes "0", true) ∷  -- a digit
        (codes "007", true) ∷  -- noughts
        (codes "-12", true) ∷  -- a minus
        (codes "1.5", true) ∷  -- a point
        (codes ".5", true) ∷  -- no digit before it
        (codes "-.5", true) ∷
        (codes "-1.50", true) ∷
        ([], false) ∷  -- nothing
        (codes "-", false) ∷  -- a minus alone
        (codes ".", false) ∷  -- a point alone
        (codes "12.", false) ∷  -- no digit after it
        (codes "-.", false) ∷
        (codes "1.2.3", false) ∷  -- two points
        (codes "..5", false) ∷
        (codes "--1", false) ∷  -- two signs
        (codes "1-2", false) ∷  -- a minus between
        (codes "1.-5", false) ∷
        (codes "+1", false) ∷  -- a plus
        (codes "1 ", false) ∷  -- a space
        (codes " 1", false) ∷
        (codes "1/", false) ∷  -- before the digits
        (codes "1:", false) ∷ [])  -- after them
    }
{}

/// The digits of base 91 are the 91 bytes from `!` on.
pub fn base_91_has_91_digits()
    ensures digits { bytes_where is_base91 ≡ numbers_from 33 91 }
    ensures dot { bytes_where is_dot ≡ codes "." }
{}
