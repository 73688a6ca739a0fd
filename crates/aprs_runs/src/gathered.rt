//! The book of inputs, as it is gathered.
//!
//! Words of the contracts here:
//! - `WritesTold Told`: a text of which `Told` holds, of the book, was written whole, or a prefix
//!   of it at `Write`. At `Memory` nothing was.
//! - `WritesText`: so was the book's own text. At `Memory` nothing was, and the book has rows.
//! - `IsExtract`, `IsSummarized`, `IsHistory`, `IsNetTable`, `IsStationsTable`: the text is this of
//!   the book.
ghost use Rattle.std.specs.Prelude.{◌≡◌, ◌≢◌, [], IfOk, OnOk, OnErr};
ghost use Rattle.aprs_transmissions.specs.BookValue.{BookValue};
ghost use Rattle.aprs_transmissions.specs.Coalescing.{AreInOrder};
ghost use Rattle.aprs_runs.specs.Extract.{IsExtract, IsSummarized};
ghost use Rattle.aprs_runs.specs.Gathered.{with_rows, WritesText};
ghost use Rattle.aprs_runs.specs.ToldBook.{IsHistory, WritesTold, answer_of_output};
ghost use Rattle.aprs_table.specs.Table.{table_text};
ghost use Rattle.aprs_lists.specs.Net.{IsNetTable};
ghost use Rattle.aprs_lists.specs.Stations.{IsStationsTable};

use crate::extract::{Extract, Summarized, write_summarized};
use crate::fault::RunFault;
use aprs_arguments::Table;
use aprs_bookfile::write_rows;
use aprs_io::{Counted, WriteFault};
use aprs_lists::{HeardStations, Traffic, write_net_messages, write_stations};
use aprs_rows::{BookStore, Memory, PackedRows, WalkRoom};
use aprs_summary::Summary;
use aprs_table::{write_history, write_table};
use aprs_transmissions::Gap;
use std::alloc::{Allocator, Global};
use std::io::Write;
use std::marker::Model;

/// The book of logs and book files. The rows of the last book file stand in `file`. They join the
/// store just before the next input is read: an allocation that fails then is that input's fault.
/// Without a next one they join it before the book is written.
pub(crate) struct Gathered<A: Allocator = Global> {
    pub(crate) alloc: A,
    pub(crate) store: BookStore<A>,
    pub(crate) file: PackedRows<A>,
}

impl<A: Allocator> Drop for Gathered<A> {
    fn drop(self) {
        let Gathered {
            alloc: _,
            store,
            file,
        } = self;
        drop(store);
        drop(file);
    }
}

impl<A: Allocator> Model for Gathered<A> {
    ghost use Rattle.aprs_transmissions.specs.BookValue.{BookValue};
    ghost use Rattle.aprs_transmissions.specs.Coalescing.{AreInOrder};
    ghost use Rattle.aprs_runs.specs.Gathered.{with_rows};

    ghost Value = { BookValue };

    ghost view = { λ g. with_rows g.store g.file };

    ghost invariant = { λ g. AreInOrder g.file };
}

/// Why the book of the gathered rows, or its listing, history or table, isn't written.
#[derive(Debug, Drop)]
pub(crate) enum OutputFault {
    /// An allocation failed, before the first byte.
    Memory,
    /// The output was refused.
    Write,
}

/// What a run answers where its output was written so.
pub(crate) fn answer_of(written: Result<(), OutputFault>) -> Result<(), RunFault>
    ensures { result ≡ answer_of_output written }
{
    match written {
        Ok(()) => Ok(()),
        Err(OutputFault::Memory) => Err(RunFault::Memory),
        Err(OutputFault::Write) => Err(RunFault::Write),
    }
}

impl From<Memory> for OutputFault {
    ghost use Rattle.aprs_runs.specs.declared.gathered.OutputFault.TheVariants as output;

    ghost from_gives = { λ memory made. made ≡ output.Memory };

    fn from(_memory: Memory) -> OutputFault {
        OutputFault::Memory
    }
}

impl From<WriteFault> for OutputFault {
    ghost use Rattle.aprs_runs.specs.declared.gathered.OutputFault.TheVariants as output;

    ghost from_gives = { λ fault made. made ≡ output.Write };

    fn from(_fault: WriteFault) -> OutputFault {
        OutputFault::Write
    }
}

impl<A: Allocator + Copy> Gathered<A> {
    /// The book of no rows, under this gap. Takes no memory.
    pub(crate) fn new(alloc: A, gap: Gap) -> Gathered<A>
        ensures { result ≡ record { gap = gap; rows = [] } }
    {
        Gathered {
            alloc,
            store: BookStore::new(alloc, gap),
            file: PackedRows::new(alloc),
        }
    }

    /// A store with the book. At `Memory` the book has rows.
    fn into_store(self) -> Result<BookStore<A>, Memory>
        ensures book { IfOk result (λ store. store ≡ self) }
        ensures some { OnErr result (self.rows ≢ []) }
    {
        let Gathered {
            alloc: _,
            mut store,
            file,
        } = self;
        add_rows(&mut store, file)?;
        Ok(store)
    }

    /// Writes the text of the book. At `Memory` an allocation failed, and nothing was written;
    /// without any row this doesn't come. At `Write` a prefix of the text was written.
    pub(crate) fn write<W: Write>(self, w: &mut Counted<W>) -> Result<(), OutputFault>
        ensures { WritesText W.contents result self w.old w.new }
    {
        let mut room = WalkRoom::new(self.alloc);
        let store = self.into_store()?;
        let rows = store.rows(&mut room)?;
        Ok(write_rows(w, rows)?)
    }

    /// Writes this extract of the book. At `Memory` an allocation failed, and nothing was written;
    /// at `Write` a prefix of the extract was written.
    pub(crate) fn extract<W: Write>(
        self,
        extract: Extract,
        w: &mut Counted<W>,
    ) -> Result<(), OutputFault>
        ensures { WritesTold (IsExtract extract) W.contents result self w.old w.new }
    {
        match extract {
            Extract::Listing => self.summarize(Summarized::Listing, w),
            Extract::History => self.history(w),
            Extract::Table(Table::Rows) => self.table_of_rows(w),
            Extract::Table(Table::Messages(Some(gap))) => self.net_messages(gap, w),
            Extract::Table(Table::Messages(None)) => self.summarize(Summarized::Messages, w),
            Extract::Table(Table::Stations) => self.stations(w),
            Extract::Table(Table::Things) => self.summarize(Summarized::Things, w),
        }
    }

    /// Writes this of the book, from its summary. At `Memory` an allocation failed, and nothing was
    /// written; at `Write` a prefix of it was written.
    fn summarize<W: Write>(self, what: Summarized, w: &mut Counted<W>) -> Result<(), OutputFault>
        ensures { WritesTold (IsSummarized what) W.contents result self w.old w.new }
    {
        let alloc = self.alloc;
        let mut room = WalkRoom::new(alloc);
        let store = self.into_store()?;
        let summary = Summary::of(alloc, &store, &mut room)?;
        Ok(write_summarized(w, what, &summary)?)
    }

    /// Writes the table of the stations of the book. At `Memory` an allocation failed, and nothing
    /// was written; at `Write` a prefix of the table was written.
    fn stations<W: Write>(self, w: &mut Counted<W>) -> Result<(), OutputFault>
        ensures { WritesTold IsStationsTable W.contents result self w.old w.new }
    {
        let alloc = self.alloc;
        let mut room = WalkRoom::new(alloc);
        let store = self.into_store()?;
        let stations = HeardStations::of(alloc, &store, &mut room)?;
        Ok(write_stations(w, &stations)?)
    }

    /// Writes the table of the messages of a net in the book, under this message gap. At `Memory`
    /// an allocation failed, and nothing was written; at `Write` a prefix of the table was written.
    fn net_messages<W: Write>(self, message_gap: Gap, w: &mut Counted<W>) -> Result<(), OutputFault>
        ensures { WritesTold (IsNetTable message_gap) W.contents result self w.old w.new }
    {
        let alloc = self.alloc;
        let mut room = WalkRoom::new(alloc);
        let store = self.into_store()?;
        let traffic = Traffic::of(alloc, &store, &mut room)?;
        Ok(write_net_messages(w, &traffic, message_gap)?)
    }

    /// Writes the history of the book. At `Memory` an allocation failed, and nothing was written;
    /// at `Write` a prefix of the history was written.
    fn history<W: Write>(self, w: &mut Counted<W>) -> Result<(), OutputFault>
        ensures { WritesTold IsHistory W.contents result self w.old w.new }
    {
        let mut room = WalkRoom::new(self.alloc);
        let store = self.into_store()?;
        let rows = store.rows(&mut room)?;
        Ok(write_history(w, rows)?)
    }

    /// Writes the table of the book's rows. At `Memory` an allocation failed, and nothing was
    /// written; at `Write` a prefix of the table was written.
    fn table_of_rows<W: Write>(self, w: &mut Counted<W>) -> Result<(), OutputFault>
        ensures { WritesTold (λ book text. text ≡ table_text book.rows) W.contents result self w.old
            w.new }
    {
        let mut room = WalkRoom::new(self.alloc);
        let store = self.into_store()?;
        let rows = store.rows(&mut room)?;
        Ok(write_table(w, rows)?)
    }
}

/// Adds rows, which have to be in order, to the book of a store. After `Memory` the book is as
/// before. Without any row this doesn't come.
pub(crate) fn add_rows<A: Allocator + Copy>(
    store: &mut BookStore<A>,
    rows: PackedRows<A>,
) -> Result<(), Memory>
    requires { AreInOrder rows }
    ensures added { OnOk result (store.new ≡ with_rows store.old rows) }
    ensures unchanged { OnErr result (store.new ≡ store.old) }
    ensures some { OnErr result (rows ≢ []) }
{
    if rows.is_empty() {
        return Ok(());
    }
    store.add(rows)
}
