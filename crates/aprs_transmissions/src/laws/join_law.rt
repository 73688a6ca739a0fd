//! Laws of joining, and what follows for many values joined one after another.
//!
//! Words of the contracts here:
//! - `JoinLaws valid alike joined`: two valid values that are alike have exactly one joined value.
//!   It is the same in whatever order and grouping, and a value joined with itself is itself.
//! - `FoldsFreely`: valid values joined one after another give the same in any order, with any
//!   repeats.
//! - `IsAny`: each value is valid. `AreAny`: any two values are alike.
//! - `IsUnited`: the list ascends, and has the members of both lists and no others.
//! - Witnesses of rows are receptions that would give just these rows. `Joined gap a b c`: c is the
//!   book of the witnesses of a and b.
ghost use Rattle.std.specs.Prelude.{ℕ, ◌<◌};
ghost use Rattle.aprs_log.specs.Reception.{bytes_cmp};
ghost use Rattle.aprs_transmissions.specs.Lists.{Ordered};
ghost use Rattle.aprs_transmissions.specs.Order.{IsBelow};
ghost use Rattle.aprs_transmissions.specs.Sound.{Sound};
ghost use Rattle.aprs_transmissions.specs.BookValue.{IsSoundBook, HaveOneGap, AreJoined, UnionHasJoinedBook};
ghost use Rattle.aprs_transmissions.specs.Merged.{MergesInOnePass};
ghost use Rattle.aprs_transmissions.specs.Joining as Spec;

/// Taking the greater of two receptions has the laws of a join: in any order, in any groups and
/// with any repeats the outcome is the same.
pub fn receptions_join()
    ensures laws { Spec.JoinLaws Spec.IsAny Spec.AreAny Spec.IsGreaterOf }
    ensures folds { Spec.FoldsFreely Spec.IsAny Spec.IsGreaterOf }
{}

/// Ascending lists of receivers join to the ascending list of the names of both, by the laws of a
/// join and in one pass. Many lists give the same in any order and with any repeats.
pub fn receivers_join()
    ensures laws { Spec.JoinLaws (Ordered (IsBelow bytes_cmp)) Spec.AreAny
        (Spec.IsUnited bytes_cmp) }
    ensures folds { Spec.FoldsFreely (Ordered (IsBelow bytes_cmp)) (Spec.IsUnited bytes_cmp) }
    ensures one_pass { MergesInOnePass bytes_cmp }
{}

/// Sound books of one gap join to the book of the witnesses of both, under that gap, by the laws of
/// a join. It holds the union of what the two hold. Many books give the same in any order and with
/// any repeats.
pub fn books_join()
    ensures laws { Spec.JoinLaws IsSoundBook HaveOneGap AreJoined }
    ensures folds { Spec.FoldsFreely IsSoundBook AreJoined }
    ensures union { UnionHasJoinedBook }
    ensures rows { (gap : ℕ) → 0 < gap → Spec.JoinLaws (Sound gap) Spec.AreAny (Spec.Joined gap) }
{}
