//! Memory that is refused in the midst of a run.

use crate::pieces::{RUNS, writes};
use crate::table_runs::{TABLES, table_at, table_of};
use aprs_book::Gap;
use aprs_booktext::BookCause;
use aprs_fixtures::{MERGED_TEXT, THREE_LINES, arena, is_shown, is_written_as, shown};
use aprs_kiss::Counted;
use aprs_log::MAX_INPUT;
use aprs_tool::{
    Desk, InputFault, RunFault, history_run, merge_run, read_input, show_run, status_of, table_run,
};
use bumpalo::Bump;
use std::alloc::Global;
use std::test::Fail;

/// What is listed of `MERGED_TEXT`.
pub const MERGED_LISTING: &[u8] = b"station N0CALL-7 2\nstatus 2099-12-31T23:59:59.000Z RX2 -:Hi\n";

/// What its history tells.
const MERGED_HISTORY: &[u8] = b"status 1970-01-01T00:00:00.000Z 1970-01-01T00:00:30.000Z RX1,RX2 \
    N0CALL-7 WIDE1-1* -:Hi
status 2099-12-31T23:59:59.000Z 2099-12-31T23:59:59.000Z RX2 N0CALL-7 - -:Hi
";

/// Memory was refused for a log, or in a line of a book.
fn is_memory(fault: &InputFault, is_book: bool) -> bool {
    match fault {
        InputFault::Log(_) => false,
        InputFault::Book(fault) => is_book && fault.cause == BookCause::Memory,
        InputFault::Memory => !is_book,
        InputFault::OtherGap | InputFault::Narrower => false,
    }
}

/// Whether an input is refused for memory with so many units of room. Else its book is written as
/// `MERGED_TEXT`.
fn is_input_refused(
    alloc: Global,
    units: usize,
    input: &[u8],
    is_book: bool,
) -> Result<bool, Fail> {
    let bump = arena(alloc, units)?;
    match read_input(&bump, MAX_INPUT, Gap::STANDARD, &mut Counted::new(input)) {
        Ok(book) if is_written_as(alloc, &book, MERGED_TEXT) => Ok(false),
        Ok(_) => Err("another book".into()),
        Err(fault) if is_memory(&fault, is_book) => Ok(true),
        Err(_) => Err("another fault".into()),
    }
}

#[test]
fn inputs_are_refused_for_memory(rt: HostRuntime) -> Result<(), Fail> {
    const INPUTS: &[(&[u8], bool)] = &[(THREE_LINES, false), (MERGED_TEXT, true)];
    for &(input, is_book) in INPUTS {
        let mut refused = 0usize;
        for units in 0..1024usize {
            if is_input_refused(rt.alloc(), units, input, is_book)? {
                refused = refused.saturating_add(1);
            }
        }
        assert!(rt; refused > 0 && refused < 1024);
    }
    Ok(())
}

/// What an input of a desk was refused memory for.
#[derive(Clone, Copy, PartialEq, Eq)]
enum Refused {
    Nothing,
    Input,
    Merge,
}

/// What memory was refused for, where nothing else is wrong.
fn refused_for(taken: &Result<(), InputFault>, is_book: bool) -> Result<Refused, Fail> {
    match taken {
        Ok(()) => Ok(Refused::Nothing),
        Err(InputFault::Memory) if is_book => Ok(Refused::Merge),
        Err(fault) if is_memory(fault, is_book) => Ok(Refused::Input),
        Err(_) => Err("another fault".into()),
    }
}

/// Takes an input, and where memory is refused takes it again with room. Before that the book has
/// to be as it was.
fn take_again<'a>(
    alloc: Global,
    bump: &'a Bump,
    desk: &mut Desk<&'a Bump>,
    input: &[u8],
    is_book: bool,
) -> Result<Refused, Fail> {
    let before = shown(alloc, desk.book()).ok_or("memory")?;
    let taken = desk.take_input(&mut Counted::new(input));
    let refused = refused_for(&taken, is_book)?;
    if refused == Refused::Nothing {
        return Ok(refused);
    }
    if !is_shown(alloc, desk.book(), before.as_str()) {
        return Err("other rows".into());
    }
    bump.set_allocation_limit(None);
    match desk.take_input(&mut Counted::new(input)) {
        Ok(()) => Ok(refused),
        Err(_) => Err("a fault".into()),
    }
}

/// What is refused of a log and of its book, which a desk takes with so many units of room.
fn refused_at_desk(alloc: Global, units: usize) -> Result<[Refused; 2], Fail> {
    let bump = arena(alloc, units)?;
    let mut desk = Desk::new(&bump, MAX_INPUT);
    let log = take_again(alloc, &bump, &mut desk, THREE_LINES, false)?;
    let book = take_again(alloc, &bump, &mut desk, MERGED_TEXT, true)?;
    if !is_written_as(alloc, &desk.into_book(), MERGED_TEXT) {
        return Err("another book".into());
    }
    Ok([log, book])
}

// With room again the input is taken.
#[test]
fn a_desk_is_as_before_where_memory_is_refused(rt: HostRuntime) -> Result<(), Fail> {
    let (mut logs, mut books, mut merges) = (false, false, false);
    for units in 0..1024usize {
        let [log, book] = refused_at_desk(rt.alloc(), units)?;
        logs |= log == Refused::Input;
        books |= book == Refused::Input;
        merges |= book == Refused::Merge;
    }
    assert!(rt; logs && books && merges);
    Ok(())
}

/// Which run is tried.
#[derive(Clone, Copy)]
enum Gathering {
    Merge,
    Show,
    History,
    /// The table of this number.
    Table(usize),
}

/// How far a run came: to its log, to its book file, to the lists, or to its end.
#[derive(Clone, Copy, PartialEq, Eq)]
enum Stage {
    Log,
    Book,
    Lists,
    End,
}

/// Where an allocation failed, if no other fault is reported.
fn stage_of(run: &Result<(), RunFault>) -> Option<Stage> {
    match run {
        Ok(()) => Some(Stage::End),
        Err(RunFault::Input { index: 0, fault }) => is_memory(fault, false).then_some(Stage::Log),
        Err(RunFault::Input { fault, .. }) => {
            (is_memory(fault, true) || is_memory(fault, false)).then_some(Stage::Book)
        }
        Err(RunFault::Memory) => Some(Stage::Lists),
        Err(RunFault::Write) => None,
    }
}

/// What a run over a log and a book file writes, and its answer.
fn gathered(alloc: Global, bump: &Bump, gathering: Gathering) -> (Vec<u8>, Result<(), RunFault>) {
    let mut given = [Counted::new(THREE_LINES), Counted::new(MERGED_TEXT)];
    let inputs = given.as_mut_slice();
    let mut out = Counted::new(Vec::new(alloc));
    let (limit, gap) = (MAX_INPUT, Gap::STANDARD);
    let run = match gathering {
        Gathering::Merge => merge_run(bump, limit, gap, inputs, &mut out),
        Gathering::Show => show_run(bump, limit, gap, inputs, &mut out),
        Gathering::History => history_run(bump, limit, gap, inputs, &mut out),
        Gathering::Table(number) => {
            table_run(bump, limit, table_at(number), gap, inputs, &mut out)
        }
    };
    (out.into_inner(), run)
}

/// How far a run comes with so many units of room. It writes all only where it comes to its end,
/// and else ends with the status of want of memory.
fn stage_with(
    alloc: Global,
    units: usize,
    gathering: Gathering,
    whole: &[u8],
) -> Result<Stage, Fail> {
    let bump = arena(alloc, units)?;
    let (written, run) = gathered(alloc, &bump, gathering);
    let stage = stage_of(&run).ok_or("another fault")?;
    let is_right = match run {
        Ok(()) => written.as_slice() == whole,
        Err(fault) => written.is_empty() && status_of(&fault) == 4,
    };
    if !is_right {
        return Err("another output or status".into());
    }
    Ok(stage)
}

/// How far a run comes as room grows, until it comes to its end.
fn stages(alloc: Global, gathering: Gathering, whole: &[u8]) -> Result<Vec<Stage>, Fail> {
    let mut seen = Vec::new(alloc);
    for units in 0..1024usize {
        let stage = stage_with(alloc, units, gathering, whole)?;
        if seen.last() != Some(&stage) {
            seen.push(stage)?;
        }
        if stage == Stage::End {
            break;
        }
    }
    Ok(seen)
}

#[test]
fn runs_write_nothing_where_memory_is_refused(rt: HostRuntime) -> Result<(), Fail> {
    let alloc = rt.alloc();
    let merged = stages(alloc, Gathering::Merge, MERGED_TEXT)?;
    assert!(rt; merged.as_slice() == [Stage::Log, Stage::Book, Stage::End].as_slice());
    let shown = stages(alloc, Gathering::Show, MERGED_LISTING)?;
    let wanted = [Stage::Log, Stage::Book, Stage::Lists, Stage::End];
    assert!(rt; shown.as_slice() == wanted.as_slice());
    let told = stages(alloc, Gathering::History, MERGED_HISTORY)?;
    assert!(rt; told.as_slice() == wanted.as_slice());
    Ok(())
}

// A table is that of ample memory, or nothing.
#[test]
fn tables_are_whole_or_nothing_where_memory_is_refused(rt: HostRuntime) -> Result<(), Fail> {
    let alloc = rt.alloc();
    let wanted = [Stage::Log, Stage::Book, Stage::Lists, Stage::End];
    for number in 0..TABLES {
        let whole = table_of(alloc, table_at(number), &[THREE_LINES, MERGED_TEXT])?;
        let seen = stages(alloc, Gathering::Table(number), whole.as_slice())?;
        assert!(rt; seen.as_slice() == wanted.as_slice());
    }
    Ok(())
}

// The allocator refuses everything.
#[test]
fn checks_and_conversions_take_no_memory(rt: HostRuntime) {
    let bump = Bump::new(rt.alloc());
    bump.set_allocation_limit(Some(0));
    assert!(rt; bump.try_alloc(0u8).is_err());
    for &(run, input, text) in RUNS {
        let mut r = Counted::new(input);
        assert!(rt; writes(rt.alloc(), &bump, run, &mut r, text));
    }
}
