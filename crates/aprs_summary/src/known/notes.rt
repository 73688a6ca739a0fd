//! What rows report, taken one after another.
//!
//! Words of the contracts here:
//! - `AreNotesOf rows`: whatever these rows report on, its greatest reception is noted.
//! - `AreIndexesOf rows`: the indexes have of each station, object and item its greatest report.
//! - `SameKnown`: of everything the same is known. `known_at`: what an index knows at these bytes.
ghost use Rattle.std.specs.Prelude.{◌≡◌, ℕ, List, [], ◌∷◌, ◌++◌, IfOk, OnOk, OnErr};
ghost use Rattle.aprs_transmissions.specs.Row.{Row, row_key};
ghost use Rattle.aprs_summary.specs.Known as Spec;
ghost use Rattle.aprs_summary.specs.Notes.{AreNotesOf, known_with};

use crate::known::greater::greater_known;
use crate::known::indexes::Indexes;
use crate::known::kept::{Kept, KeptFrom};
use crate::known::subject::Subject;
use aprs_log::ReceptionRef;
use aprs_rows::Memory;
use std::alloc::{Allocator, Global};

/// What some rows, one after another, all report on, and the greatest of their receptions.
#[derive(Drop)]
pub(crate) struct Streak<'t> {
    subject: Subject<'t>,
    greatest: ReceptionRef<'t>,
}

/// What rows report. The last rows that report on one thing are kept in `last`. They are put into
/// the indexes when a row follows that reports on something else, since most rows report on what
/// the row before them does.
pub struct Notes<'t, X: Kept, A: Allocator = Global> {
    indexes: Indexes<X, A>,
    last: Option<Streak<'t>>,
}

impl<'t, X: Kept, A: Allocator> Drop for Notes<'t, X, A> {
    fn drop(self) {
        let Notes { indexes, last: _ } = self;
        drop(indexes);
    }
}

impl<'t, X: KeptFrom<'t>, A: Allocator + Copy> Notes<'t, X, A> {
    /// The notes of no rows. Takes no memory.
    pub fn new(alloc: A) -> Notes<'t, X, A>
        ensures { AreNotesOf [] result }
    {
        Notes {
            indexes: Indexes::new(alloc),
            last: None,
        }
    }

    /// Notes one more row, by what it reports on and its greatest reception `x`: the notes of some
    /// rows become those of these rows and this one. A row that reports on nothing changes
    /// nothing. After `Memory` what was noted last may be lost.
    pub fn take(&mut self, subject: Subject<'t>, x: ReceptionRef<'t>) -> Result<(), Memory>
        ensures { OnOk result ((rows : List Row) (r : Row) → AreNotesOf rows self.old
            → ((topic : Spec.Topic)
            → Spec.subject_bytes topic subject.entry ≡ Spec.topic_bytes topic (row_key r))
            → x.entry ≡ r.greatest → AreNotesOf (rows ++ r ∷ []) self.new) }
    {
        if subject.is_nothing() {
            return Ok(());
        }
        match self.last.take() {
            Some(run) if run.subject.is_same(&subject) => {
                let greatest = greater_known(Some(&run.greatest), x);
                self.last = Some(Streak { subject, greatest });
                Ok(())
            }
            Some(run) => {
                self.indexes.take(&run.subject, &run.greatest)?;
                self.last = Some(Streak {
                    subject,
                    greatest: x,
                });
                Ok(())
            }
            None => {
                self.last = Some(Streak {
                    subject,
                    greatest: x,
                });
                Ok(())
            }
        }
    }

    /// The indexes of all rows that were noted.
    pub fn into_indexes(self) -> Result<Indexes<X, A>, Memory>
        ensures { IfOk result (λ indexes. (rows : List Row) → AreNotesOf rows self.entry
            → Spec.AreIndexesOf rows indexes) }
    {
        let Notes { mut indexes, last } = self;
        put(&mut indexes, last)?;
        Ok(indexes)
    }
}

/// Puts into the indexes what the last streak of rows reports; `None` changes nothing. After
/// `Memory` the same is known as before.
fn put<'t, X: KeptFrom<'t>, A: Allocator + Copy>(
    indexes: &mut Indexes<X, A>,
    last: Option<Streak<'t>>,
) -> Result<(), Memory>
    ensures put { OnOk result ((topic : Spec.Topic) (bytes : List ℕ)
        → Spec.known_at bytes (Spec.index_of topic indexes.new)
        ≡ known_with last.entry topic bytes indexes.old) }
    ensures same { OnErr result (Spec.SameKnown indexes.old indexes.new) }
{
    match last {
        Some(run) => indexes.take(&run.subject, &run.greatest),
        None => Ok(()),
    }
}
