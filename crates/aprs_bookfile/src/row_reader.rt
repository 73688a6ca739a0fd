//! A book's text, while it is read line by line.
//!
//! Words of the contracts here:
//! - A line is held as far as it decides what it is. `size_read` counts the rows that were read and
//!   the bytes that are held; `most_stream` is the most that it may be.
//! - `HasReadText reader rows text`: the reader has read this text, of which these are the rows,
//!   whatever it keeps of them. `HasReadTo`: and it keeps those that it is to keep.
//! - `ReadsOne`: with one line more it has read this text, which gave one row more, or none.
//! - `IsFault most fault text`: the fault is the text's first one, however the input ends; or
//!   memory was refused in the line that it names, with at most `most` bytes of the text after what
//!   was read.
//! - `StopsHere`: if memory was refused and each row is kept, there are as many as rows' lines
//!   before the one that the fault names.
//! - `IsOfText`: no read failed, and the limit wasn't passed. `KeepsVersion`: the header's version
//!   stays.
//! - `JudgesKept`: the line is judged so after these rows, and of those after it these are kept.
//! - `MovesOn`: a row was read, and the last one before it is the one that is taken; or none was,
//!   and the rows stay.
//! - `IsAnswerFor answer text ending`: a book, if the text is that of its rows and the input ended
//!   after it; or a fault that the text has at this ending.
ghost use Rattle.std.specs.Prelude.{All, ◌≡◌, ◌<◌, ◌+◌, ◌≤◌, ◌++◌, ◌∷◌, ℕ, [], false, List, length, None, Some, OnErr, OnOk, IfErr, IfOk, IfSome, IfNone};
ghost use Rattle.std.specs.List.{join_with_byte, last_or};
ghost use Rattle.aprs_transmissions.specs.Row.{Row};
ghost use Rattle.aprs_transmissions.specs.Sound.{IsSoundRow};
ghost use Rattle.aprs_rows.specs.Packed.{IsShort};
ghost use Rattle.aprs_bookfile.specs.BookAnswers.{IsAnswerFor};
ghost use Rattle.aprs_bookfile.specs.Fault.{ending_cause};
ghost use Rattle.aprs_io.specs.Cut.{Lacks};
ghost use Rattle.aprs_bookfile.specs.Reader as Spec;
ghost use Rattle.aprs_bookfile.specs.Lines.{pieces};
ghost use Rattle.aprs_bookfile.specs.Text.{row_line};
ghost use Rattle.aprs_log.specs.Receiver.{IsName};
ghost use Rattle.aprs_bookfile.specs.RowReader.{answer_read, count_after, is_row_between, kept_after, most_stream, row_lent, row_taken, rows_kept, size_read, version_in, HasReadText, HasReadTo, JudgesKept, KeepsVersion, MovesOn, ReadsOne, StopsHere};

use crate::end_line::end_line;
use crate::fault::{BookCause, BookFault};
use crate::held_line::HeldLine;
use crate::kept_rows::KeptRows;
use crate::lent_row::LentRow;
use crate::row_buffers::RowBuffers;
use crate::row_line::read_row;
use crate::stage::{Stage, ending_cause, is_done, is_first, judge_end, judge_header, may_end};
use crate::version::Version;
use aprs_io::InputEnd;
use aprs_log::MomentForm;
use aprs_rows::{MOST_NAMES, Memory, PackedRows, RowView};
use aprs_transmissions::Gap;
use std::alloc::Allocator;
use std::mem::{replace, swap};

/// Which rows of a text are kept.
#[derive(Clone, Copy, Debug, PartialEq, Eq)]
pub enum Keeping {
    /// Each row.
    Each,
    /// The last row alone.
    Last,
}

/// What was read of a book's text: how far its whole lines went, the rows that are kept of it, and
/// the beginning of the next line.
#[derive(Drop)]
pub struct RowReader<A: Allocator> {
    line: HeldLine<A>,
    stage: Stage,
    buffers: RowBuffers,
    keeping: Keeping,
    /// The rows that are kept.
    rows: KeptRows<A>,
    /// The row before the last one, where the last alone is kept.
    taken: KeptRows<A>,
    /// How many rows there were.
    count: usize,
}

impl<A: Allocator + Copy> RowReader<A> {
    /// A reader that has read nothing of a text, and is to keep these rows of it.
    pub fn new(alloc: A, keeping: Keeping) -> RowReader<A>
        // By `HasReadTo` these rows and this text were read, and what is to be kept is kept.
        ensures reads { HasReadTo result [] [] }
        // `size_read` counts the rows that were read and the bytes held of a line, together.
        ensures size { size_read result ≡ 0 }
        ensures keeping { result.keeping ≡ keeping }
    {
        RowReader {
            line: HeldLine::new(alloc),
            stage: Stage::Header,
            buffers: RowBuffers::new(),
            keeping,
            rows: KeptRows::new(alloc),
            taken: KeptRows::new(alloc),
            count: 0,
        }
    }

    /// Whether the last line was read.
    pub fn is_done(&self) -> bool
        ensures { result ≡ Spec.is_done self.now.stage }
    {
        is_done(self.stage)
    }

    /// The gap of the text's book, as the header says; before that is read, the standard gap.
    pub fn gap(&self) -> Gap
        ensures { result ≡ Spec.gap_in self.now.stage }
    {
        match self.stage {
            Stage::Header => Gap::STANDARD,
            Stage::Rows(version) | Stage::Done(version) => version.gap(),
        }
    }

    /// The row that was read last. `None` before the first row, once the last line was read, and
    /// after `take_rows`. After a fault it may be any row, or `None`.
    pub fn row(&self) -> Option<RowView<'_>>
        ensures some { IfSome result (λ x. last_or None (row_lent self.now) ≡ Some x) }
        ensures none { IfNone result (row_lent self.now ≡ []) }
        // A row is sound by itself, and its receivers' names have fewer than 4,294,967,296 bytes.
        ensures own { IfSome result (λ x. IsSoundRow x × IsShort x) }
    {
        self.rows.sound();
        match self.stage {
            Stage::Rows(_) => self.rows.last(),
            Stage::Header | Stage::Done(_) => None,
        }
    }

    /// The row that was read last, with its line where that is kept. `None` before the first row,
    /// once the last line was read, and after `take_rows`. After a fault it may be any row, or
    /// `None`.
    pub fn front(&self) -> Option<LentRow<'_>>
        ensures some { IfSome result (λ x. last_or None (row_lent self.now) ≡ Some x) }
        ensures none { IfNone result (row_lent self.now ≡ []) }
        // A row is sound by itself, and its receivers' names have fewer than 4,294,967,296 bytes.
        ensures own { IfSome result (λ x. IsSoundRow x × IsShort x) }
    {
        self.rows.sound();
        match self.stage {
            Stage::Rows(_) => self.rows.last_lent(),
            Stage::Header | Stage::Done(_) => None,
        }
    }

    /// The row that was read before the one that is lent, with its line where that is kept. Once
    /// the last line was read, it is the last row. `None` where there is none, or where each row is
    /// kept and the last line wasn't read. After a fault it may be any row, or `None`.
    pub fn taken(&self) -> Option<LentRow<'_>>
        ensures some { IfSome result (λ x. row_taken self.now ≡ x ∷ []) }
        ensures none { IfNone result (row_taken self.now ≡ []) }
        // A row is sound by itself, and its receivers' names have fewer than 4,294,967,296 bytes.
        ensures own { IfSome result (λ x. IsSoundRow x × IsShort x) }
    {
        let rows = if is_done(self.stage) {
            &self.rows
        } else {
            &self.taken
        };
        rows.sound();
        rows.last_lent()
    }

    /// The rows that are kept, which then are kept no more.
    pub fn take_rows(&mut self, alloc: A) -> PackedRows<A>
        ensures rows { result ≡ self.old.rows }
        // By `HasReadText` these rows and this text were read, whatever is kept of them.
        ensures reads { (rows : List Row) (t : List ℕ) → HasReadText self.old rows t
            → HasReadText self.new rows t }
        ensures stage { self.new.stage ≡ self.old.stage }
        ensures size { size_read self.new ≡ size_read self.old }
    {
        replace(&mut self.rows, KeptRows::new(alloc)).into_rows()
    }

    /// Takes bytes, none of them an LF, after those that were taken of the line. They are held as
    /// far as they decide what the line is: once it is wrong whatever follows, no more are.
    pub fn append(&mut self, bytes: &[u8]) -> Result<(), BookFault>
        requires few { size_read self.old ≤ most_stream }
        requires going { Spec.is_done self.old.stage ≡ false }
        ensures stands { OnOk result ((rows : List Row) (t : List ℕ) → HasReadTo self.old rows t
            → Lacks 10 bytes.now → HasReadTo self.new rows (t ++ bytes.now)) }
        ensures size { OnOk result (size_read self.new ≤ size_read self.old + length bytes.now) }
        ensures stage { self.new.stage ≡ self.old.stage }
        ensures keeping { self.new.keeping ≡ self.old.keeping }
        ensures rows { self.new.rows ≡ self.old.rows }
        ensures fault { IfErr result (λ fault. (rows : List Row) (t more : List ℕ)
            → HasReadTo self.old rows t
            → Spec.IsFault (length bytes.now + length more) fault ((t ++ bytes.now) ++ more)) }
        ensures stops { IfErr result (λ fault. (rows : List Row) (t : List ℕ)
            → HasReadTo self.old rows t → StopsHere fault self.new) }
        ensures cause { IfErr result (λ fault. Spec.IsOfText fault.cause) }
    {
        match self.line.extend(is_first(self.stage), bytes) {
            Ok(()) => Ok(()),
            Err(_) => Err(self.fault(BookCause::Memory)),
        }
    }

    /// Judges the line that is the bytes taken and then `part`. Returns whether it is a row's,
    /// which then is the last row; and then no bytes are held. Fails where the line is wrong, or
    /// with `Memory` where an allocation failed or a row's names have 4 GiB or more. After a fault
    /// bytes may still be held.
    pub fn end_line(&mut self, part: &[u8]) -> Result<bool, BookFault>
        requires few { size_read self.old + length part.now ≤ most_stream }
        requires going { Spec.is_done self.old.stage ≡ false }
        ensures reads { IfOk result (λ is_row. (rows : List Row) (t : List ℕ)
            → HasReadTo self.old rows t → Lacks 10 part.now
            → ReadsOne is_row self.new rows ((t ++ part.now) ++ 10 ∷ [])) }
        ensures version { OnOk result (KeepsVersion self.old.stage self.new.stage) }
        ensures keeping { self.new.keeping ≡ self.old.keeping }
        ensures moves { IfOk result (λ is_row. self.old.keeping ≡ Keeping.Last
            → MovesOn is_row self.new.stage self.old.rows self.new.rows self.new.taken) }
        ensures size { OnOk result
            (size_read self.new ≤ size_read self.old + length part.now + 1) }
        ensures fault { IfErr result (λ fault. (rows : List Row) (t more : List ℕ)
            → HasReadTo self.old rows t → Lacks 10 part.now
            → Spec.IsFault (length part.now + (length more + 1)) fault
            ((t ++ part.now) ++ 10 ∷ more)) }
        ensures stops { IfErr result (λ fault. (rows : List Row) (t : List ℕ)
            → HasReadTo self.old rows t → Lacks 10 part.now → StopsHere fault self.new) }
        ensures cause { IfErr result (λ fault. Spec.IsOfText fault.cause) }
    {
        if self.line.is_empty() {
            return self.take_line(part);
        }
        self.append(part)?;
        self.take_kept_line()
    }

    /// Judges a whole line, where no bytes are held, and returns whether it is a row's.
    fn take_line(&mut self, line: &[u8]) -> Result<bool, BookFault>
        requires few { size_read self.old + length line.now ≤ most_stream }
        requires none { self.old.line ≡ [] }
        requires going { Spec.is_done self.old.stage ≡ false }
        ensures reads { IfOk result (λ is_row. (rows : List Row) (t : List ℕ)
            → HasReadTo self.old rows t → Lacks 10 line.now
            → ReadsOne is_row self.new rows ((t ++ line.now) ++ 10 ∷ [])) }
        ensures version { OnOk result (KeepsVersion self.old.stage self.new.stage) }
        ensures keeping { self.new.keeping ≡ self.old.keeping }
        ensures moves { IfOk result (λ is_row. self.old.keeping ≡ Keeping.Last
            → MovesOn is_row self.new.stage self.old.rows self.new.rows self.new.taken) }
        ensures size { OnOk result (size_read self.new ≤ size_read self.old + 1) }
        ensures fault { IfErr result (λ fault. (rows : List Row) (t more : List ℕ)
            → HasReadTo self.old rows t → Lacks 10 line.now
            → Spec.IsFault (length more + 1) fault ((t ++ line.now) ++ 10 ∷ more)) }
        ensures stops { IfErr result (λ fault. (rows : List Row) (t : List ℕ)
            → HasReadTo self.old rows t → StopsHere fault self.new) }
        ensures cause { IfErr result (λ fault. Spec.IsOfText fault.cause) }
    {
        let judged = judge(
            self.stage,
            self.keeping,
            self.count,
            &mut self.rows,
            &mut self.taken,
            &mut self.buffers,
            line,
        );
        match judged {
            Ok(stage) => Ok(self.enter(stage)),
            Err(cause) => Err(self.fault(cause)),
        }
    }

    /// Judges the bytes held as a whole line, and returns whether it is a row's. Then none are
    /// held; after a fault they stay.
    fn take_kept_line(&mut self) -> Result<bool, BookFault>
        requires few { size_read self.old ≤ most_stream }
        requires going { Spec.is_done self.old.stage ≡ false }
        ensures reads { IfOk result (λ is_row. (rows : List Row) (t : List ℕ)
            → HasReadTo self.old rows t → ReadsOne is_row self.new rows (t ++ 10 ∷ [])) }
        ensures version { OnOk result (KeepsVersion self.old.stage self.new.stage) }
        ensures keeping { self.new.keeping ≡ self.old.keeping }
        ensures moves { IfOk result (λ is_row. self.old.keeping ≡ Keeping.Last
            → MovesOn is_row self.new.stage self.old.rows self.new.rows self.new.taken) }
        ensures size { OnOk result (size_read self.new ≤ size_read self.old + 1) }
        ensures fault { IfErr result (λ fault. (rows : List Row) (t more : List ℕ)
            → HasReadTo self.old rows t → Spec.IsFault (length more + 1) fault (t ++ 10 ∷ more)) }
        ensures stops { IfErr result (λ fault. (rows : List Row) (t : List ℕ)
            → HasReadTo self.old rows t → StopsHere fault self.new) }
        ensures cause { IfErr result (λ fault. Spec.IsOfText fault.cause) }
    {
        let judged = judge(
            self.stage,
            self.keeping,
            self.count,
            &mut self.rows,
            &mut self.taken,
            &mut self.buffers,
            self.line.as_slice(),
        );
        match judged {
            Ok(stage) => {
                self.line.clear();
                Ok(self.enter(stage))
            }
            Err(cause) => Err(self.fault(cause)),
        }
    }

    /// Goes on to the stage after a line, and returns whether the line was a row's.
    fn enter(&mut self, stage: Stage) -> bool
        requires { self.old.count ≤ most_stream }
        ensures row { result ≡ is_row_between self.old.stage stage }
        ensures stage { self.new.stage ≡ stage }
        ensures count { self.new.count ≡ count_after result self.old.count }
        ensures line { self.new.line ≡ self.old.line }
        ensures rows { self.new.rows ≡ self.old.rows }
        ensures taken { self.new.taken ≡ self.old.taken }
        ensures keeping { self.new.keeping ≡ self.old.keeping }
    {
        let is_row = is_row_between(&self.stage, &stage);
        self.stage = stage;
        if is_row {
            self.count += 1;
        }
        is_row
    }

    /// `Ok` where the last line was read and the input ended after it (`End`). Otherwise the fault
    /// of a text that ends in this way.
    pub fn finish(&self, ending: InputEnd) -> Result<(), BookFault>
        requires { self.now.count ≤ most_stream }
        // The text `t` that was read is that of a book with the rows `rows`, or it has the fault.
        ensures reads { (rows : List Row) (t : List ℕ) → HasReadText self.now rows t
            → IsAnswerFor (answer_read result (Spec.gap_in self.now.stage) rows) t ending }
        // `Ok` comes only at `End`, and a fault has the cause of the ending.
        ensures ending { Spec.AgreesWithEnding ending result }
    {
        if may_end(self.stage, ending) {
            return Ok(());
        }
        Err(self.fault_of_ending(ending))
    }

    /// The fault of a text that ends in this way where a book's text may not end: `Ending`, `Read`
    /// or `TooLong`.
    pub fn fault_of_ending(&self, ending: InputEnd) -> BookFault
        requires { self.now.count ≤ most_stream }
        ensures { result ≡ record {
          line = Spec.line_number self.now.stage self.now.count;
          cause = ending_cause ending;
        } }
    {
        self.fault(ending_cause(ending))
    }

    /// The fault where memory is refused after the last line was read. It is in that line.
    pub fn memory_at_last(&self) -> BookFault
        requires { self.now.count ≤ most_stream }
        ensures { result ≡ record { line = self.now.count + 2; cause = BookCause.Memory } }
    {
        BookFault {
            line: self.count as u64 + 2,
            cause: BookCause::Memory,
        }
    }

    /// A fault of this cause in the next line.
    pub fn fault(&self, cause: BookCause) -> BookFault
        requires { self.now.count ≤ most_stream }
        ensures { result ≡ record {
          line = Spec.line_number self.now.stage self.now.count;
          cause = cause;
        } }
    {
        let line = match self.stage {
            Stage::Header => 1,
            Stage::Rows(_) => self.count as u64 + 2,
            Stage::Done(_) => self.count as u64 + 3,
        };
        BookFault { line, cause }
    }
}

/// Whether a line between these stages is a row's.
fn is_row_between(before: &Stage, after: &Stage) -> bool
    ensures { result ≡ is_row_between before.now after.now }
{
    match (before, after) {
        (Stage::Rows(_), Stage::Rows(_)) => true,
        _ => false,
    }
}

/// Judges a whole line at this stage, after so many rows, of which `rows` has those that are kept,
/// and returns the stage after it. A row of the line is kept too; where the last alone is kept, the
/// one before it goes to `taken`. Fails with the cause for which
/// the line is wrong, or with `Memory` where an allocation failed or a row's names have 4 GiB or
/// more.
fn judge<A: Allocator + Copy>(
    stage: Stage,
    keeping: Keeping,
    count: usize,
    rows: &mut KeptRows<A>,
    taken: &mut KeptRows<A>,
    buffers: &mut RowBuffers,
    line: &[u8],
) -> Result<Stage, BookCause>
    ensures judged { (all : List Row) → count ≡ length all → rows.old ≡ rows_kept keeping all
        → JudgesKept keeping stage result all line.now rows.new }
    ensures version { IfOk result (KeepsVersion stage) }
    ensures moves { IfOk result (λ next. keeping ≡ Keeping.Last
        → MovesOn (is_row_between stage next) next rows.old rows.new taken.new) }
    ensures cause { IfErr result Spec.IsOfText }
{
    match stage {
        Stage::Header => judge_header(line),
        Stage::Rows(version) => judge_row(version, keeping, count, rows, taken, buffers, line),
        Stage::Done(_) => Err(BookCause::After),
    }
}

/// Judges a line after those of the header and so many rows in a text of this version.
fn judge_row<A: Allocator + Copy>(
    version: Version,
    keeping: Keeping,
    count: usize,
    rows: &mut KeptRows<A>,
    taken: &mut KeptRows<A>,
    buffers: &mut RowBuffers,
    line: &[u8],
) -> Result<Stage, BookCause>
    ensures judged { (all : List Row) → count ≡ length all → rows.old ≡ rows_kept keeping all
        → JudgesKept keeping (Stage.Rows version) result all line.now rows.new }
    ensures version { IfOk result (λ next. version_in next ≡ Some version) }
    ensures moves { IfOk result (λ next. keeping ≡ Keeping.Last → MovesOn
        (is_row_between (Stage.Rows version) next) next rows.old rows.new taken.new) }
    ensures cause { IfErr result Spec.IsOfText }
{
    if line.starts_with(b"END") {
        return judge_end(line, version, count);
    }
    let before = rows.last();
    let row = read_row(buffers, version.form(), names_of(&before), line)?;
    if let Some(cause) = row.refusal_after(before.as_ref(), version.gap()) {
        return Err(BookCause::from(cause));
    }
    if row.receivers().len() > MOST_NAMES {
        return Err(BookCause::Memory);
    }
    match keep(keeping, rows, taken, &row, version.form(), line) {
        Ok(()) => Ok(Stage::Rows(version)),
        Err(_) => Err(BookCause::Memory),
    }
}

/// The names of a row's receivers, with commas between, or an empty text where there is no row.
fn names_of<'r>(row: &Option<RowView<'r>>) -> &'r [u8]
    ensures { 0 < length result.now → All IsName (pieces 44 result.now) }
{
    match row {
        Some(row) => row.receivers(),
        None => &[],
    }
}

/// Keeps a row, whose line in this form is `line`: after the others where each is kept, and else
/// in the place of the last, which goes to `taken`. After `Memory` the rows are as before where
/// each is kept, and else any.
fn keep<A: Allocator + Copy>(
    keeping: Keeping,
    rows: &mut KeptRows<A>,
    taken: &mut KeptRows<A>,
    row: &RowView<'_>,
    form: MomentForm,
    line: &[u8],
) -> Result<(), Memory>
    requires sound { IsSoundRow row.now }
    requires short { length (join_with_byte 44 row.now.receivers) < 4294967296 }
    requires spelled { line.now ≡ row_line form row.now }
    ensures kept { OnOk result (rows.new ≡ kept_after keeping rows.old row.now) }
    ensures taken { OnOk result (keeping ≡ Keeping.Last → taken.new ≡ rows.old) }
    ensures stays { OnErr result (keeping ≡ Keeping.Each → rows.new ≡ rows.old) }
{
    match keeping {
        Keeping::Each => rows.push(row),
        Keeping::Last => {
            swap(rows, taken);
            rows.set(row, form, line)
        }
    }
}
