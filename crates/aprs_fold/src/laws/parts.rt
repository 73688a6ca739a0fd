//! The laws of ranges of sources. Their function does nothing: what it ensures are the laws.
ghost use Rattle.aprs_fold.specs.Range.{AllAreWithin, PartsAreWhole};

/// A range may be cut in two at a source within it. Of rows in order, those of the first part and
/// then those of the second are those of the range. The range of all sources has all rows.
pub fn parts_are_the_whole()
    ensures all { AllAreWithin }
    ensures parts { PartsAreWhole }
{}
