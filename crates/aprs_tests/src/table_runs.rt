//! Tables of several inputs, outputs that refuse them, and a table of many rows.

use aprs_book::Gap;
use aprs_fixtures::{DIRECT, DIRECT_TEXT, Full, MERGED_TEXT, ONE_LINE, THREE_LINES, Tight, heard};
use aprs_kiss::Counted;
use aprs_log::{MAX_INPUT, write_line};
use aprs_tool::{RunFault, Table, table_run};
use std::alloc::Global;
use std::test::Fail;

/// How many tables there are.
pub const TABLES: usize = 5;

/// The table of this number.
pub fn table_at(number: usize) -> Table {
    match number {
        0 => Table::Rows,
        1 => Table::Messages(None),
        2 => Table::Messages(Some(Gap::STANDARD)),
        3 => Table::Stations,
        _ => Table::Things,
    }
}

/// Inputs that stand for the set of `ONE_LINE`.
const SAME: &[&[&[u8]]] = &[
    &[DIRECT_TEXT],
    &[DIRECT_TEXT, ONE_LINE],
    &[ONE_LINE, ONE_LINE, DIRECT_TEXT],
];

/// How many receptions the large log has, each of which is a row.
const MANY: u64 = 5_000;

/// A table of these inputs, with ample memory.
pub fn table_of(alloc: Global, table: Table, texts: &[&[u8]]) -> Result<Vec<u8>, Fail> {
    let mut inputs = Vec::new(alloc);
    for text in texts {
        inputs.push(Counted::new(*text))?;
    }
    let mut out = Counted::new(Vec::new(alloc));
    let gap = Gap::STANDARD;
    let run = table_run(
        alloc,
        MAX_INPUT,
        table,
        gap,
        inputs.as_mut_slice(),
        &mut out,
    );
    if run.is_err() {
        return Err("a fault".into());
    }
    Ok(out.into_inner())
}

// A log and the book of it have one table, also together, and in any order.
#[test]
fn a_book_has_the_table_of_its_log(rt: HostRuntime) -> Result<(), Fail> {
    let alloc = rt.alloc();
    for number in 0..TABLES {
        let wanted = table_of(alloc, table_at(number), &[ONE_LINE])?;
        for &texts in SAME {
            assert!(rt; table_of(alloc, table_at(number), texts)?.as_slice() == wanted.as_slice());
        }
        let wanted = table_of(alloc, table_at(number), &[THREE_LINES])?;
        assert!(rt;
            table_of(alloc, table_at(number), &[MERGED_TEXT])?.as_slice() == wanted.as_slice()
        );
    }
    Ok(())
}

/// Whether so many bytes of the table are written where the output takes no more.
fn is_written_up_to(alloc: Global, table: Table, whole: &[u8], room: usize) -> bool {
    let mut inputs = [Counted::new(THREE_LINES)];
    let mut w = Counted::new(Tight {
        bytes: Vec::new(alloc),
        room,
    });
    let gap = Gap::STANDARD;
    let run = table_run(alloc, MAX_INPUT, table, gap, inputs.as_mut_slice(), &mut w);
    let is_refused = matches!(&run, Err(RunFault::Write)) && w.failures() == 1;
    is_refused && whole.get(..room) == Some(w.into_inner().bytes.as_slice())
}

#[test]
fn a_refused_output_has_a_prefix_of_the_table(rt: HostRuntime) -> Result<(), Fail> {
    let alloc = rt.alloc();
    for number in 0..TABLES {
        let whole = table_of(alloc, table_at(number), &[THREE_LINES])?;
        for room in 0..whole.len() {
            assert!(rt; is_written_up_to(alloc, table_at(number), whole.as_slice(), room));
        }
        let mut inputs = [Counted::new(ONE_LINE)];
        let (gap, mut full) = (Gap::STANDARD, Counted::new(Full));
        let run = table_run(
            alloc,
            MAX_INPUT,
            table_at(number),
            gap,
            inputs.as_mut_slice(),
            &mut full,
        );
        assert!(rt; matches!(&run, Err(RunFault::Write)));
    }
    Ok(())
}

/// A log of so many receptions of one frame, a minute apart.
fn minutes(alloc: Global, count: u64) -> Result<Vec<u8>, Fail> {
    let mut log = Counted::new(Vec::new(alloc));
    for minute in 0..count {
        let x = heard(minute.saturating_mul(60), b"RX1", &DIRECT)?;
        write_line(&mut log, &x).ok().ok_or("memory")?;
    }
    Ok(log.into_inner())
}

/// How many of the bytes are this one.
fn count(bytes: &[u8], wanted: u8) -> usize {
    let mut found = 0usize;
    for byte in bytes {
        if *byte == wanted {
            found = found.saturating_add(1);
        }
    }
    found
}

// With ample memory no table is refused: it has a line of its columns' names, and one for each row.
#[test]
fn a_table_of_many_rows(rt: HostRuntime) -> Result<(), Fail> {
    let alloc = rt.alloc();
    let log = minutes(alloc, MANY)?;
    let rows = table_of(alloc, Table::Rows, &[log.as_slice()])?;
    let none = table_of(alloc, Table::Rows, &[])?;
    assert!(rt; count(rows.as_slice(), b'\n') == 5_001);
    let tabs = count(none.as_slice(), b'\t');
    assert!(rt; count(rows.as_slice(), b'\t') == tabs.saturating_mul(5_001));
    Ok(())
}
