//! Writes below a buffer that are interrupted.

use aprs_fixtures::{Flushing, Halting};
use aprs_host::{Retried, write_some};
use std::io::{ErrorKind, Write};

#[test]
fn interrupted_writes_below_a_buffer_are_tried_again(rt: HostRuntime) {
    const CASES: &[(u64, bool)] = &[(0, true), (999, true), (1000, false)];
    for &(tries, is_taken) in CASES {
        let mut device = Halting {
            bytes: Vec::new(rt.alloc()),
            tries,
            left: tries,
        };
        assert!(rt;
            write_some(&mut device, b"ab").is_ok() == is_taken,
            "after {tries}"
        );
        assert!(rt; device.bytes.is_empty() != is_taken, "after {tries}");
    }
}

#[test]
fn flushes_below_a_buffer_fail_where_the_device_does(rt: HostRuntime) {
    const FAULTS: &[Option<ErrorKind>] = &[
        None,
        Some(ErrorKind::Other),
        Some(ErrorKind::Interrupted),
    ];
    for &fault in FAULTS {
        let flushed = Retried::new(Flushing { fault }).flush();
        assert!(rt; flushed.is_err() == fault.is_some());
        let kind = flushed.err().map(|error| error.kind());
        assert!(rt; kind != Some(ErrorKind::Interrupted));
    }
}
