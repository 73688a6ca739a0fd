//! Under one gap, what a merge writes depends on the set of receptions alone. So do a history, each
//! table and the positions in a listing. An input that stands for a set has no fault. The functions
//! do nothing: what they ensure are the laws.
ghost use Rattle.std.specs.Prelude.{ℕ};
ghost use Rattle.aprs_arguments.specs.declared.jobs.Table.{Table};
ghost use Rattle.aprs_runs.specs.HistoryOf.{HaveOneHistory, HistoriesTellItems, HistoriesTellObjects, HistoriesTellPlaces};
ghost use Rattle.aprs_runs.specs.Merge.{AreBooksOfUnions, HaveOneMerge};
ghost use Rattle.aprs_runs.specs.Refused.{HaveNoFault};
ghost use Rattle.aprs_runs.specs.Show.{ListingsTellPositions};
ghost use Rattle.aprs_runs.specs.TableOf.{HaveOneTable};

/// Under one gap, inputs that stand for sets with the same members have one book, and `merge_run`
/// writes the same bytes of them: in any order, with repeats, and some of them through books that
/// were written before. A log stands for its receptions, and the text of a book for each set whose
/// book it is.
pub fn same_receptions_same_bytes()
    ensures book { (gap : ℕ) → AreBooksOfUnions gap }
    ensures one { (gap : ℕ) → HaveOneMerge gap }
{}

/// An input of at most `MAX_INPUT` (1,073,741,824) bytes that stands for a set of receptions has no
/// fault: it is refused only where an allocation failed.
pub fn faultless_inputs_have_no_fault()
    ensures none { HaveNoFault }
{}

/// In the listing of any set of receptions under any gap, each station's line is followed by the
/// position that is its greatest reception of a position report in the set, where it has one.
pub fn listings_tell_positions()
    ensures positions { (gap : ℕ) → ListingsTellPositions gap }
{}

/// Under one gap, inputs that stand for sets with the same members have one history: in any order,
/// with repeats, and some of them through books that were written before.
pub fn same_receptions_same_history()
    ensures { (gap : ℕ) → HaveOneHistory gap }
{}

/// Under one gap, inputs that stand for sets with the same members have one text of each table: in
/// any order, with repeats, and some of them through books that were written before.
pub fn same_receptions_same_table()
    ensures { (t : Table) (gap : ℕ) → HaveOneTable t gap }
{}

/// The history of any set under any gap has a line of each station's greatest position report in
/// the set. That line says the place that the listing says of the station. So it has of each object
/// and each item, as reported by any station.
pub fn histories_tell_places()
    ensures places { (gap : ℕ) → HistoriesTellPlaces gap }
    ensures objects { (gap : ℕ) → HistoriesTellObjects gap }
    ensures items { (gap : ℕ) → HistoriesTellItems gap }
{}
