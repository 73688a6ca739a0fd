//! The table of a book's objects and items.
ghost use Rattle.std.specs.Prelude.{◌≡◌, ◌∷◌, ◌++◌, ℕ, List, map};
ghost use Rattle.std.specs.List.{flat_map};
ghost use Rattle.aprs_io.specs.Device.{Sends};
ghost use Rattle.aprs_io.specs.Outlet.{Puts};
ghost use Rattle.aprs_table.specs.Cells.{cell_text};
ghost use Rattle.aprs_lists.specs.Lines.{tabbed_line};
ghost use Rattle.aprs_lists.specs.Things as Spec;

use crate::line::put_line;
use crate::table::{Lines, write_table};
use aprs_io::{Counted, Outlet, WriteFault};
use aprs_report::{Place, Report, Stamp, Symbol, live_text};
use aprs_summary::{Heard, HeardRoom, NamedWalk, Summary};
use aprs_table::Cell;
use std::alloc::Allocator;
use std::io::Write;

/// The names of the columns.
const COLUMNS: &[u8] = b"\
    kind\tname\tstate\tlast\treceiver\tsource\tstamp\tlatitude\tlongitude\tambiguity\t\
    compressed\tsymbol\ttext\n";

/// Writes the table of the objects and items of a book, from its summary: the names of the columns,
/// and exactly one line for each object, ascending by name, and then for each item, ascending by
/// name, with its last report. Killed ones are among them. At a fault a prefix of this went out.
/// Takes no memory.
pub fn write_things<W: Write, A: Allocator + Copy>(
    w: &mut Counted<W>,
    summary: &Summary<'_, A>,
) -> Result<(), WriteFault>
    ensures { (text : List ℕ) × Spec.IsThingsTable summary.now text
        × Sends W.contents result w.old w.new text }
{
    write_table(w, COLUMNS, summary.objects())
}

impl<'s, 't, A: Allocator + Copy> Lines for NamedWalk<'s, 't, A> {
    ghost lines = { flat_map Spec.report_table_line };

    /// Puts the lines of the objects and items, in their order.
    fn put_lines<W: Write>(mut self, out: &mut Outlet<'_, W>) -> Result<(), WriteFault> {
        let mut room = HeardRoom::new();
        while let Some(named) = self.next(&mut room) {
            put_thing(out, &named.heard)?;
        }
        Ok(())
    }
}

/// Puts the line of what was heard of an object or an item, and nothing where that is another
/// report. Fails where the output is refused.
fn put_thing<W: Write>(out: &mut Outlet<'_, W>, heard: &Heard<'_>) -> Result<(), WriteFault>
    ensures { Puts W.contents result out.old out.new (Spec.heard_thing_line heard.now) }
{
    match heard.report {
        Report::Object {
            name,
            live,
            stamp,
            place,
            symbol,
            comment,
        } => {
            let whereabouts = place_cells(Some(stamp), place, symbol, comment);
            put_named(out, b"object", name, live, heard, &whereabouts)
        }
        Report::Item {
            name,
            live,
            place,
            symbol,
            comment,
        } => {
            let whereabouts = place_cells(None, place, symbol, comment);
            put_named(out, b"item", name, live, heard, &whereabouts)
        }
        _ => Ok(()),
    }
}

/// Puts a line of an object or an item, as `kind` says: its name, whether it is live or killed,
/// when, by whom and from whom it was heard, and these fields of where it is. Fails where the
/// output is refused.
fn put_named<'a, W: Write>(
    out: &mut Outlet<'_, W>,
    kind: &'a [u8],
    name: &'a [u8],
    live: bool,
    heard: &Heard<'a>,
    whereabouts: &[Cell<'_>],
) -> Result<(), WriteFault>
    ensures { Puts W.contents result out.old out.new (tabbed_line (kind.now
        ∷ Spec.named_fields name.now live heard.now ++ map cell_text whereabouts.now)) }
{
    let kind = Cell::Plain(kind);
    let named = [
        Cell::Shown(name),
        Cell::Plain(live_text(live)),
        Cell::Moment(heard.moment),
        Cell::Plain(heard.receiver.as_bytes()),
        Cell::Call(heard.frame.source()),
    ];
    put_line(out, &kind, &named, whereabouts)
}

/// The fields that say where a report places something, and its text.
fn place_cells<'a>(
    stamp: Option<Stamp>,
    place: Place,
    symbol: Symbol,
    text: &'a [u8],
) -> [Cell<'a>; 7]
    ensures { map cell_text result ≡ Spec.placed_fields stamp place symbol text.now }
{
    [
        Cell::Stamp(stamp),
        Cell::Latitude(Some(place)),
        Cell::Longitude(Some(place)),
        Cell::Ambiguity(Some(place)),
        Cell::Compressed(Some(place)),
        Cell::Symbol(Some(symbol)),
        Cell::Shown(text),
    ]
}
