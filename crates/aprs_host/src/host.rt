//! A program between its host and its runs: arguments, files, standard streams and the exit status.
use crate::complaint::{
    Complaint, EXIT_USAGE, complain, complaint_of, complaint_of_arguments, complaint_status,
};
use crate::digested::Digested;
use crate::ending::{complaint_after, input_name};
use crate::host_opener::HostOpener;
use crate::note::{is_book_name, note_empty};
use crate::opening::open_inputs;
use crate::retried::Retried;
use crate::work::{Work, run_work};
use aprs_arguments::{FoldJob, JobFault};
use aprs_fold::{BookRange, MAX_BOOK, SourceRange};
use aprs_io::Counted;
use aprs_runs::{InputFault, RunFault, check_books_run, fold_range_run};
use aprs_transmissions::Gap;
use std::alloc::{Allocator, Global};
use std::env;
use std::fs::{self, File};
use std::io::{self, BufWriter, Read, Seek, Stdin, Write};
use std::process::ExitCode;

/// An input of a program: a file of the host, or its standard input.
#[derive(Drop)]
pub enum HostInput {
    /// A file that is open.
    File(File),
    /// The rows of a range of sources in a book file.
    Part(BookRange<File>),
    /// A file whose digest is taken as it is read.
    Digested(Digested<File>),
    /// Standard input.
    Standard(Stdin),
}

impl HostInput {
    /// The input with its digest, where it is a file. What isn't one stays.
    pub(crate) fn digested(self) -> HostInput {
        match self {
            HostInput::File(file) => HostInput::Digested(Digested::new(file)),
            other => other,
        }
    }

    /// The rows of this range alone, where the input is a book file in which they are found by
    /// bisection; otherwise the input, from its beginning. What isn't a file stays.
    fn within<A: Allocator>(self, alloc: A, range: &SourceRange) -> HostInput {
        let HostInput::File(file) = self else {
            return self;
        };
        match BookRange::find(alloc, file, range) {
            Ok(part) => HostInput::Part(part),
            Err(mut file) => {
                // Of a file that can't be sought nothing was read.
                let _ = file.rewind();
                HostInput::File(file)
            }
        }
    }
}

impl Read for HostInput {
    fn read(&mut self, buf: &mut [u8]) -> io::Result<usize> {
        match self {
            HostInput::File(file) => file.read(buf),
            HostInput::Part(part) => part.read(buf),
            HostInput::Digested(file) => file.read(buf),
            HostInput::Standard(standard) => standard.read(buf),
        }
    }
}

/// A program on its host, with the name that it has in what it reports.
#[derive(Clone, Copy)]
pub struct Program<'a> {
    pub(crate) rt: &'a HostRuntime,
    pub(crate) name: &'a str,
}

impl<'a> Program<'a> {
    /// The program of this name on this host. Takes no memory.
    pub fn new(rt: &'a HostRuntime, name: &'a str) -> Program<'a> {
        Program { rt, name }
    }

    /// The program's arguments, its name being the first, or what is complained of where they can't
    /// be had.
    pub fn arguments(&self) -> Result<Vec<String>, Complaint<'static>> {
        match env::args(self.rt) {
            Ok(arguments) => match arguments.collect::<Vec<String>>(self.rt.alloc()) {
                Ok(arguments) => Ok(arguments),
                Err(_) => Err(Complaint::OutOfMemory),
            },
            Err(error) => Err(complaint_of_arguments(&error)),
        }
    }

    /// Does the work over inputs of these paths, or over standard input where there are none, and
    /// reports a fault to standard error. A run over one input reads the first alone. Where an
    /// input can't be opened, or is the file of the output, none is read. The output is flushed,
    /// also after a run's fault. Of several inputs it is noted which is an empty file with the name
    /// of a book. Returns the exit status.
    pub fn do_work(&self, work: Work, paths: &[String]) -> ExitCode {
        let alloc = self.rt.alloc();
        let mut inputs = match open_inputs(&mut HostOpener::new(self.rt), alloc, paths) {
            Ok(inputs) => inputs,
            Err(complaint) => return self.report(complaint),
        };
        self.note_empty_books(paths);
        let output = match BufWriter::new(alloc, Retried::new(self.rt.stdout())) {
            Ok(output) => output,
            Err(_) => return self.report(Complaint::OutOfMemory),
        };
        let mut w = Counted::new(output);
        let outcome = run_work(alloc, work, inputs.as_mut_slice(), &mut w);
        let flushed = w.into_inner().flush().is_ok();
        match complaint_after(paths, &outcome, flushed) {
            Some(complaint) => self.report(complaint),
            None => ExitCode::SUCCESS,
        }
    }

    /// Notes on standard error which of several inputs is an empty file with the name of a book:
    /// it is taken for an empty log.
    fn note_empty_books(&self, paths: &[String]) {
        if paths.len() < 2 {
            return;
        }
        for path in paths {
            if is_book_name(path.as_str()) && self.is_empty(path.as_str()) {
                let mut w = Counted::new(self.rt.stderr());
                // Where standard error takes nothing, the work is done all the same.
                let _ = note_empty(&mut w, self.name.as_bytes(), path.as_bytes());
            }
        }
    }

    /// Whether this path is that of a regular file of no bytes.
    fn is_empty(&self, path: &str) -> bool {
        match fs::metadata(self.rt, path) {
            Ok(metadata) => metadata.is_file() && metadata.len() == 0,
            Err(_) => false,
        }
    }

    /// Folds the book files of a job, or standard input where it has none, and reports a fault to
    /// standard error. Where a file can't be opened, or is the file of the output, none is read and
    /// nothing is written. Where the job has a range, its rows alone are read of a file in which
    /// bisection finds them. The output has no buffer of its own, so that its header is there as
    /// soon as the fold sends it. Where the books are only checked, they are read whole, whatever
    /// the output is, and nothing is written. Returns the exit status. Where the job has an old
    /// book, it does as `do_news` says.
    pub fn do_fold(&self, job: FoldJob) -> ExitCode {
        let FoldJob {
            gap,
            from,
            until,
            new_to,
            inputs,
            is_check,
        } = job;
        let range = SourceRange { from, until };
        if let Some(old) = new_to {
            return self.do_news(gap, &range, old, inputs, is_check);
        }
        let paths = inputs.as_slice();
        let mut opener = HostOpener::of_fold(self.rt, is_check);
        let mut inputs = match open_inputs(&mut opener, self.rt.alloc(), paths) {
            Ok(inputs) => inputs,
            Err(complaint) => return self.report(complaint),
        };
        if is_check {
            return self.check_books(gap, paths, inputs);
        }
        if has_bounds(&range) {
            inputs = match parts_of(self.rt.alloc(), inputs, &range) {
                Ok(parts) => parts,
                Err(complaint) => return self.report(complaint),
            };
        }
        self.fold_into_output(gap, &range, paths, inputs)
    }

    /// Reads the inputs, which have these paths, as whole books of this gap, and reports a fault.
    /// Returns the exit status.
    fn check_books(
        &self,
        gap: Gap,
        paths: &[String],
        mut inputs: Vec<Counted<HostInput>>,
    ) -> ExitCode {
        let outcome = check_books_run(self.rt.alloc(), MAX_BOOK, gap, inputs.as_mut_slice());
        match complaint_after(paths, &outcome, true) {
            Some(complaint) => self.report(complaint),
            None => ExitCode::SUCCESS,
        }
    }

    /// Folds the inputs, which have these paths, writes the rows of the range of their book to
    /// standard output, and reports a fault. Returns the exit status.
    fn fold_into_output(
        &self,
        gap: Gap,
        range: &SourceRange,
        paths: &[String],
        mut inputs: Vec<Counted<HostInput>>,
    ) -> ExitCode {
        let alloc = self.rt.alloc();
        let mut w = Counted::new(Retried::new(self.rt.stdout()));
        let outcome = fold_range_run(alloc, MAX_BOOK, gap, range, inputs.as_mut_slice(), &mut w);
        let flushed = w.into_inner().flush().is_ok();
        if let Err(RunFault::Input { index, fault }) = outcome {
            return self.report_input(gap, input_name(paths, index), inputs, index, fault);
        }
        match complaint_after(paths, &outcome, flushed) {
            Some(complaint) => self.report(complaint),
            None => ExitCode::SUCCESS,
        }
    }

    /// Reports the fault of an input, and returns the exit status. Where the rows of a range alone
    /// were read of it, its file is read from its beginning, and the file's first fault is reported
    /// in its place. The file may have changed: where no fault is found in it, the given one is
    /// reported. Its line is then counted among the rows of the range.
    pub(crate) fn report_input(
        &self,
        gap: Gap,
        name: &str,
        mut inputs: Vec<Counted<HostInput>>,
        index: usize,
        fault: InputFault,
    ) -> ExitCode {
        let alloc = self.rt.alloc();
        let found = RunFault::Input { index, fault };
        if index >= inputs.len() {
            return self.report(complaint_of(name.as_bytes(), &found));
        }
        let HostInput::Part(part) = inputs.swap_remove(index).into_inner() else {
            return self.report(complaint_of(name.as_bytes(), &found));
        };
        if let Some(fault) = fault_of_file(alloc, gap, part.into_source()) {
            return self.report(complaint_of(name.as_bytes(), &fault));
        }
        match format!(in alloc; "{name}, rows of the range") {
            Ok(place) => self.report(complaint_of(place.as_bytes(), &found)),
            Err(_) => self.report(Complaint::OutOfMemory),
        }
    }

    /// Writes the complaint to standard error, and returns the exit status for it.
    pub fn report(&self, complaint: Complaint<'_>) -> ExitCode {
        let mut w = Counted::new(self.rt.stderr());
        // Where standard error takes nothing, the status alone says it.
        let _ = complain(&mut w, self.name.as_bytes(), complaint);
        ExitCode::from(complaint_status(&complaint))
    }

    /// Prints what is wrong with the program's arguments, or the help or the version that they ask
    /// for. Returns the exit status: 2 for wrong arguments, 4 where an allocation failed, 0 for
    /// help and version, and 3 where these can't be printed.
    pub fn report_usage(&self, fault: JobFault) -> ExitCode {
        match fault {
            JobFault::Clap(error) => self.print_usage(&error),
            JobFault::Options => self.report(Complaint::BadCaptureOptions),
            JobFault::Memory => self.report(Complaint::OutOfMemory),
        }
    }

    /// Prints the text of `clap`, and returns the exit status.
    fn print_usage(&self, error: &clap::Error) -> ExitCode {
        if error.use_stderr() {
            let mut w = Retried::new(self.rt.stderr());
            let _ = w.write_fmt(error);
            return ExitCode::from(EXIT_USAGE);
        }
        let mut w = Retried::new(self.rt.stdout());
        match w.write_fmt(error) {
            Ok(()) => ExitCode::SUCCESS,
            Err(_) => self.report(Complaint::CannotWrite),
        }
    }
}

/// Whether a range has a source to begin with, or one to end before.
pub(crate) fn has_bounds(range: &SourceRange) -> bool {
    range.from.is_some() || range.until.is_some()
}

/// The inputs, each with the rows of the range alone where they can be found. Fails where an
/// allocation failed.
pub(crate) fn parts_of(
    alloc: Global,
    inputs: Vec<Counted<HostInput>>,
    range: &SourceRange,
) -> Result<Vec<Counted<HostInput>>, Complaint<'static>> {
    let mut parts = Vec::new(alloc);
    for input in inputs {
        let part = input.into_inner().within(alloc, range);
        if parts.push(Counted::new(part)).is_err() {
            return Err(Complaint::OutOfMemory);
        }
    }
    Ok(parts)
}

/// The first fault of this file, read from its beginning, as a whole book file of this gap. `None`
/// where it has none, or can't be read from its beginning. `Memory` where an allocation failed.
fn fault_of_file(alloc: Global, gap: Gap, file: File) -> Option<RunFault> {
    let mut file = file;
    file.rewind().ok()?;
    let mut inputs = [Counted::new(HostInput::File(file))];
    check_books_run(alloc, MAX_BOOK, gap, &mut inputs).err()
}
