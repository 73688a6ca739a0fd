//! The program's words.

use aprs_log::{Moment, Receiver};
use aprs_tool::{Form, Job, JobFault, Table, TableJob, job, table_job};
use std::test::Fail;

/// Whether the words ask for a conversion to this form.
fn asks_for(rt: &HostRuntime, form: &Form, words: &[&str]) -> bool {
    matches!(&job(rt.alloc(), words), Ok(Job::Convert(asked, _)) if asked == form)
}

#[test]
fn words_that_ask_for_a_conversion(rt: HostRuntime) {
    assert!(rt; asks_for(&rt, &Form::Text, &["aprsbook", "convert", "text"]));
    assert!(rt; asks_for(&rt, &Form::Kind, &["aprsbook", "convert", "kind"]));
    assert!(rt; asks_for(&rt, &Form::Kiss, &["aprsbook", "convert", "kiss"]));
    assert!(rt; asks_for(&rt, &Form::Log, &["aprsbook", "convert", "log"]));
    assert!(rt; asks_for(&rt, &Form::Text, &["aprsbook"]));
}

/// Whether these are the inputs.
fn are_inputs(inputs: &[String], paths: &[&str]) -> bool {
    inputs.len() == paths.len()
        && inputs
            .iter()
            .zip(paths)
            .all(|(input, path)| input.as_str() == *path)
}

/// Whether the words ask for a capture of this input to this form.
fn asks_for_a_capture(rt: &HostRuntime, words: &[&str], asked: &Form, input: &str) -> bool {
    match job(rt.alloc(), words) {
        Ok(Job::Convert(form, inputs)) => form == *asked && are_inputs(inputs.as_slice(), &[input]),
        _ => false,
    }
}

#[test]
fn words_that_ask_for_a_capture(rt: HostRuntime) -> Result<(), Fail> {
    let words = [
        "aprsbook",
        "convert",
        "capture",
        "--receiver",
        "RX1",
        "--moment",
        "2024-05-01T12:00:00Z",
        "heard.kiss",
    ];
    let receiver = Receiver::parse(b"RX1").ok_or("a name")?;
    let moment = Moment::new(1_714_564_800).ok_or("a moment")?;
    let form = Form::Capture { receiver, moment };
    assert!(rt; asks_for_a_capture(&rt, &words, &form, "heard.kiss"));
    Ok(())
}

/// The name, the gap in seconds, or 0 where there is none, and the inputs of a job that is no
/// conversion.
fn parts_of(asked: &Job) -> Option<(&'static str, u64, &[String])> {
    match asked {
        Job::Check(inputs) => Some(("check", 0, inputs.as_slice())),
        Job::Merge(gap, inputs) => Some(("merge", gap.seconds(), inputs.as_slice())),
        Job::Show(gap, inputs) => Some(("show", gap.seconds(), inputs.as_slice())),
        Job::Widen(gap, inputs) => Some(("widen", gap.seconds(), inputs.as_slice())),
        Job::Convert(_, _) => None,
    }
}

/// Whether a job has this name and gap, and these inputs.
fn is_job(asked: &Job, name: &str, gap: u64, paths: &[&str]) -> bool {
    match parts_of(asked) {
        Some((found, seconds, inputs)) => {
            found == name && seconds == gap && are_inputs(inputs, paths)
        }
        None => false,
    }
}

/// Whether the words ask for such a job.
fn asks_for_job(rt: &HostRuntime, words: &[&str], name: &str, gap: u64, paths: &[&str]) -> bool {
    matches!(&job(rt.alloc(), words), Ok(asked) if is_job(asked, name, gap, paths))
}

/// Words, and the name, the gap and the inputs of the job that they ask for.
const JOBS: &[(&[&str], &str, u64, &[&str])] = &[
    (&["aprsbook", "check", "rx1.log"], "check", 0, &["rx1.log"]),
    (&["aprsbook", "merge"], "merge", 30, &[]),
    (
        &["aprsbook", "merge", "rx1.log", "rx2.book"],
        "merge",
        30,
        &["rx1.log", "rx2.book"],
    ),
    (&["aprsbook", "show", "rx1.log"], "show", 30, &["rx1.log"]),
    (&["aprsbook", "merge", "--gap", "1"], "merge", 1, &[]),
    (
        &["aprsbook", "merge", "--gap=3600", "rx1.log"],
        "merge",
        3600,
        &["rx1.log"],
    ),
    (&["aprsbook", "show", "--gap", "45"], "show", 45, &[]),
    (&["aprsbook", "widen", "45"], "widen", 45, &[]),
    (
        &["aprsbook", "widen", "3600", "net.book"],
        "widen",
        3600,
        &["net.book"],
    ),
];

#[test]
fn words_that_ask_for_other_jobs(rt: HostRuntime) {
    for &(words, name, gap, paths) in JOBS {
        assert!(rt; asks_for_job(&rt, words, name, gap, paths));
    }
}

/// Whether the words are refused: for the options of a capture, or because they are not the
/// command's.
fn is_refused(rt: &HostRuntime, words: &[&str], is_for_options: bool) -> bool {
    match job(rt.alloc(), words) {
        Err(JobFault::Options) => is_for_options,
        Err(JobFault::Clap(_)) => !is_for_options,
        _ => false,
    }
}

/// Words that ask for nothing, and whether the options of a capture are why.
const REFUSED: &[(&[&str], bool)] = &[
    (&["aprsbook", "convert", "capture"], true),
    (&["aprsbook", "convert", "text", "--receiver", "RX1"], true),
    (&["aprsbook", "convert", "nope"], false),
    (&["aprsbook", "convert"], false),
    (&["aprsbook", "unknown"], false),
    (&["aprsbook", "check", "one.log", "two.log"], false),
    (&["aprsbook", "merge", "--gap", "0"], false),
    (&["aprsbook", "merge", "--gap", "3601"], false),
    (&["aprsbook", "show", "--gap", "soon"], false),
    (&["aprsbook", "widen", "0"], false),
    (&["aprsbook", "widen"], false),
    (&["aprsbook", "widen", "45", "one.book", "two.book"], false),
];

#[test]
fn words_that_ask_for_nothing(rt: HostRuntime) {
    for &(words, is_for_options) in REFUSED {
        assert!(rt; is_refused(&rt, words, is_for_options));
    }
}

/// Words that ask for help or the version, and what its text has to say.
const HELP: &[(&[&str], &[&str])] = &[
    (
        &["aprsbook", "--help"],
        &[
            "Usage: aprsbook [COMMAND]",
            "  check ",
            "  convert ",
            "  merge ",
            "  show ",
            "  widen ",
            "convert text of standard input",
            "  aprsbook check rx1.log",
            "  aprsbook convert text rx1.log",
            "  aprsbook merge rx1.log rx2.log",
            "  aprsbook show net.book",
            "  0  done",
            "  1  an input",
            "  2  the words",
            "  3  the output",
            "  4  memory",
        ],
    ),
    (
        &["aprsbook", "convert", "--help"],
        &[
            "Usage: aprsbook convert [OPTIONS] <FORM> [INPUT]",
            "- text: ",
            "- kind: ",
            "- kiss: ",
            "- log: ",
            "- capture: ",
            "--receiver <NAME>",
            "--moment <MOMENT>",
        ],
    ),
    (
        &["aprsbook", "check", "--help"],
        &["Usage: aprsbook check [INPUT]"],
    ),
    (
        &["aprsbook", "merge", "--help"],
        &[
            "Usage: aprsbook merge [OPTIONS] [INPUT]...",
            "--gap <SECONDS>",
        ],
    ),
    (
        &["aprsbook", "show", "--help"],
        &[
            "Usage: aprsbook show [OPTIONS] [INPUT]...",
            "--gap <SECONDS>",
        ],
    ),
    (
        &["aprsbook", "widen", "--help"],
        &["Usage: aprsbook widen <SECONDS> [INPUT]"],
    ),
    (&["aprsbook", "--version"], &["aprsbook 0.3.0"]),
];

// Help and the version go to standard output.
#[test]
fn words_that_ask_for_help(rt: HostRuntime) -> Result<(), Fail> {
    let alloc = rt.alloc();
    for &(words, parts) in HELP {
        let Err(JobFault::Clap(error)) = job(alloc, words) else {
            return Err("help".into());
        };
        assert!(rt; !error.use_stderr());
        let text = format!(in alloc; "{error}")?;
        for part in parts {
            assert!(rt; text.as_str().contains(*part), "{part} in {text}");
        }
    }
    Ok(())
}

/// Whether the words ask for the rows of these inputs under a gap of so many seconds.
fn asks_for_rows(rt: &HostRuntime, words: &[&str], seconds: u64, paths: &[&str]) -> bool {
    match table_job(rt.alloc(), words) {
        Ok(TableJob { table, gap, inputs }) => {
            matches!(table, Table::Rows)
                && gap.seconds() == seconds
                && are_inputs(inputs.as_slice(), paths)
        }
        Err(_) => false,
    }
}

// The first word that is no option names a table, where one has its name.
#[test]
fn words_that_ask_for_a_table(rt: HostRuntime) {
    assert!(rt; asks_for_rows(&rt, &["aprsbook-table"], 30, &[]));
    assert!(rt; asks_for_rows(&rt, &["aprsbook-table", "rows"], 30, &[]));
    assert!(rt;
        asks_for_rows(
            &rt,
            &["aprsbook-table", "a.log", "rows"],
            30,
            &["a.log", "rows"]
        )
    );
    assert!(rt; asks_for_rows(&rt, &["aprsbook-table", "./rows"], 30, &["./rows"]));
    assert!(rt;
        asks_for_rows(
            &rt,
            &["aprsbook-table", "--gap", "60", "rows", "a"],
            60,
            &["a"]
        )
    );
    assert!(rt;
        asks_for_rows(
            &rt,
            &["aprsbook-table", "rows", "a", "--gap", "1"],
            1,
            &["a"]
        )
    );
    assert!(rt; table_job(rt.alloc(), &["aprsbook-table", "--gap", "0"]).is_err());
}
