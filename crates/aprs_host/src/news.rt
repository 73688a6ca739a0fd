//! What a program writes of a fold that an old book lacks.
use crate::complaint::Complaint;
use crate::digested::Digested;
use crate::ending::{complaint_after, input_name};
use crate::host::{HostInput, Program, has_bounds, parts_of};
use crate::host_opener::HostOpener;
use crate::opening::{open_all, open_standard};
use crate::retried::Retried;
use aprs_fold::{MAX_BOOK, SourceRange};
use aprs_io::Counted;
use aprs_runs::{RunFault, check_books_run, news_run};
use aprs_transmissions::Gap;
use std::alloc::Global;
use std::fs::File;
use std::io::Write;
use std::process::ExitCode;

impl Program<'_> {
    /// Folds the old book with the other ones, or with standard input where there are none, and
    /// writes the rows that the old one lacks, in the range. Where the books are only checked, the
    /// number of the old one's rows and its digest are told on standard error. For the rest it does
    /// as `do_fold` says.
    pub(crate) fn do_news(
        &self,
        gap: Gap,
        range: &SourceRange,
        old: String,
        others: Vec<String>,
        is_check: bool,
    ) -> ExitCode {
        let mut paths = others;
        if paths.insert(0, old).is_err() {
            return self.report(Complaint::OutOfMemory);
        }
        let inputs = match self.open_books(paths.as_slice(), range, is_check) {
            Ok(inputs) => inputs,
            Err(complaint) => return self.report(complaint),
        };
        if is_check {
            return self.check_news(gap, paths.as_slice(), inputs);
        }
        self.news_into_output(gap, range, paths.as_slice(), inputs)
    }

    /// The inputs of these paths, and standard input after the old book where this is alone. Where
    /// they are only checked, the old book has its digest taken. Otherwise the rows of the range
    /// alone are read of a file in which bisection finds them.
    fn open_books<'t>(
        &self,
        paths: &'t [String],
        range: &SourceRange,
        is_check: bool,
    ) -> Result<Vec<Counted<HostInput>>, Complaint<'t>> {
        let alloc = self.rt.alloc();
        let mut opener = HostOpener::of_fold(self.rt, is_check);
        let mut inputs = open_all(&mut opener, alloc, paths)?;
        if paths.len() < 2 {
            let standard = Counted::new(open_standard(&mut opener)?);
            if inputs.push(standard).is_err() {
                return Err(Complaint::OutOfMemory);
            }
        }
        if is_check {
            return with_digest(alloc, inputs);
        }
        if !has_bounds(range) {
            return Ok(inputs);
        }
        parts_of(alloc, inputs, range)
    }

    /// Folds the inputs, which have these paths, writes what is new to the first to standard
    /// output, and reports a fault. Returns the exit status.
    fn news_into_output(
        &self,
        gap: Gap,
        range: &SourceRange,
        paths: &[String],
        mut inputs: Vec<Counted<HostInput>>,
    ) -> ExitCode {
        let alloc = self.rt.alloc();
        let mut w = Counted::new(Retried::new(self.rt.stdout()));
        let outcome = news_run(alloc, MAX_BOOK, gap, range, inputs.as_mut_slice(), &mut w);
        let flushed = w.into_inner().flush().is_ok();
        if let Err(RunFault::Input { index, fault }) = outcome {
            return self.report_input(gap, input_name(paths, index), inputs, index, fault);
        }
        match complaint_after(paths, &outcome, flushed) {
            Some(complaint) => self.report(complaint),
            None => ExitCode::SUCCESS,
        }
    }

    /// Reads the inputs, which have these paths, as whole books of this gap. Tells what the news of
    /// the others would be compared with, if the first is a file, or reports a fault. Returns the
    /// exit status.
    fn check_news(
        &self,
        gap: Gap,
        paths: &[String],
        mut inputs: Vec<Counted<HostInput>>,
    ) -> ExitCode {
        let outcome = check_books_run(self.rt.alloc(), MAX_BOOK, gap, inputs.as_mut_slice());
        if let Some(complaint) = complaint_after(paths, &outcome, true) {
            return self.report(complaint);
        }
        match first_of(inputs) {
            Some(HostInput::Digested(old)) => self.tell_old(input_name(paths, 0), old),
            _ => ExitCode::SUCCESS,
        }
    }

    /// Tells on standard error which book the news were compared with: its path, the number of its
    /// rows and its digest. Returns the exit status.
    fn tell_old(&self, path: &str, old: Digested<File>) -> ExitCode {
        let alloc = self.rt.alloc();
        let (lines, digest) = old.finish();
        // Of its lines the first is the header, and the last has the number of rows.
        let rows = lines.saturating_sub(2);
        let Ok(digits) = hex::encode(alloc, digest) else {
            return self.report(Complaint::OutOfMemory);
        };
        let name = self.name;
        let told = format!(in alloc; "{name}: new to {path}: {rows} rows, sha256 {digits}\n");
        let Ok(line) = told else {
            return self.report(Complaint::OutOfMemory);
        };
        // Where standard error takes nothing, the book is written all the same.
        let _ = Retried::new(self.rt.stderr()).write_all(line.as_bytes());
        ExitCode::SUCCESS
    }
}

/// The inputs, of which the first has its digest taken. Fails where an allocation failed.
fn with_digest(
    alloc: Global,
    inputs: Vec<Counted<HostInput>>,
) -> Result<Vec<Counted<HostInput>>, Complaint<'static>> {
    let mut all = Vec::new(alloc);
    for input in inputs {
        let own = input.into_inner();
        let next = if all.is_empty() { own.digested() } else { own };
        if all.push(Counted::new(next)).is_err() {
            return Err(Complaint::OutOfMemory);
        }
    }
    Ok(all)
}

/// The first of the inputs, if there are any.
fn first_of(mut inputs: Vec<Counted<HostInput>>) -> Option<HostInput> {
    if inputs.is_empty() {
        return None;
    }
    Some(inputs.swap_remove(0).into_inner())
}
