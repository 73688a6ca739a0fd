//! Streams and frames, byte for byte.
ghost use Rattle.std.specs.Prelude.{⊤};

use aprs_kiss::{
    Counted, Fed, KissReader, Listener, MAX_FRAME, PassFault, feed_all, feed_in_parts, write_kiss,
};
use arrayvec::ArrayVec;

/// A frame of N0CALL-7 to APRS.
const FRAME: [u8; 19] = [
    0x82, 0xa0, 0xa4, 0xa6, 0x40, 0x40, 0xe0, 0x9c, 0x60, 0x86, 0x82, 0x98, 0x98, 0x6f, 0x03, 0xf0,
    0x3e, 0x48, 0x69,
];

/// `FRAME` on port 0 and on port 5, a frame of command 1, and one that doesn't end.
const STREAM: [u8; 49] = [
    0xc0, 0x00, 0x82, 0xa0, 0xa4, 0xa6, 0x40, 0x40, 0xe0, 0x9c, 0x60, 0x86, 0x82, 0x98, 0x98, 0x6f,
    0x03, 0xf0, 0x3e, 0x48, 0x69, 0xc0, 0xc0, 0x50, 0x82, 0xa0, 0xa4, 0xa6, 0x40, 0x40, 0xe0, 0x9c,
    0x60, 0x86, 0x82, 0x98, 0x98, 0x6f, 0x03, 0xf0, 0x3e, 0x48, 0x69, 0xc0, 0x01, 0xaa, 0xc0, 0x00,
    0x82,
];

/// An answer of the reader: `FRAME` with its port, any other frame with its length, or a fault.
#[derive(Clone, Copy, Debug, Default, PartialEq, Eq)]
enum Heard {
    #[default]
    Nothing,
    Known(u8),
    Other(usize),
    Passed(PassFault),
}

/// Keeps the first 64 answers, but for `Nothing`.
#[derive(Drop)]
struct Log {
    answers: ArrayVec<Heard, 64>,
}

impl Log {
    fn keep(&mut self, heard: Heard) {
        if !self.answers.is_full() {
            self.answers.push(heard);
        }
    }
}

impl Listener for Log {
    ghost hears = { λ _ _ _. ⊤ };

    fn hear(&mut self, fed: Fed<'_>) {
        match fed {
            Fed::Nothing => {}
            Fed::Frame { port, frame } if frame == FRAME.as_slice() => self.keep(Heard::Known(
                port,
            )),
            Fed::Frame { port: _, frame } => self.keep(Heard::Other(frame.len())),
            Fed::Passed(fault) => self.keep(Heard::Passed(fault)),
        }
    }
}

#[test]
fn ports_and_commands_fed_whole(rt: HostRuntime) {
    let mut reader = KissReader::new();
    let (used, fed) = reader.feed(&STREAM);
    assert!(rt;
        fed == Fed::Frame {
            port: 0,
            frame: &FRAME
        }
    );
    let rest = &STREAM[used..];
    let (used, fed) = reader.feed(rest);
    assert!(rt;
        fed == Fed::Frame {
            port: 5,
            frame: &FRAME
        }
    );
    let rest = &rest[used..];
    let (used, fed) = reader.feed(rest);
    assert!(rt; fed == Fed::Passed(PassFault::NotData));
    let rest = &rest[used..];
    let (used, fed) = reader.feed(rest);
    assert!(rt; fed == Fed::Nothing);
    assert!(rt; used == 2);
    assert!(rt; !reader.finish());
}

#[test]
fn ports_and_commands_fed_byte_by_byte(rt: HostRuntime) {
    let mut reader = KissReader::new();
    let mut log = Log {
        answers: ArrayVec::new(),
    };
    feed_in_parts(&mut reader, &STREAM, &[1; 49], &mut log);
    let answers = [
        Heard::Known(0),
        Heard::Known(5),
        Heard::Passed(PassFault::NotData),
    ];
    assert!(rt; log.answers.as_slice() == answers.as_slice());
    assert!(rt; !reader.finish());
}

#[test]
fn escapes_are_undone_across_a_cut(rt: HostRuntime) {
    let mut reader = KissReader::new();
    assert!(rt; reader.finish());
    let (_, fed) = reader.feed(b"\xc0\x00\x3e\xdb");
    assert!(rt; fed == Fed::Nothing);
    let (used, fed) = reader.feed(b"\xdc\xdb\xdd\xc0\xc0");
    assert!(rt;
        fed == Fed::Frame {
            port: 0,
            frame: b"\x3e\xc0\xdb"
        }
    );
    assert!(rt; used == 4);
    // The type byte may come escaped: port 12, command 0.
    let (_, fed) = reader.feed(b"\xc0\xdb\xdc\x41\xc0");
    assert!(rt;
        fed == Fed::Frame {
            port: 12,
            frame: b"\x41"
        }
    );
    assert!(rt; reader.finish());
}

#[test]
fn each_fault_and_then_a_frame(rt: HostRuntime) {
    let mut reader = KissReader::new();
    let mut log = Log {
        answers: ArrayVec::new(),
    };
    feed_all(&mut reader, b"\x00\x3e\xdb\x41\xc0", &mut log);
    feed_all(&mut reader, b"\x00\x3e\xdb\xc0", &mut log);
    feed_all(&mut reader, b"\xdb\xdd\xc0", &mut log);
    feed_all(&mut reader, b"\x10\xc0", &mut log);
    let answers = [
        Heard::Passed(PassFault::BadEscape),
        Heard::Passed(PassFault::BadEscape),
        Heard::Passed(PassFault::NotData),
        Heard::Other(0),
    ];
    assert!(rt; log.answers.as_slice() == answers.as_slice());
}

#[test]
fn the_longest_frame_and_a_longer_one(rt: HostRuntime) {
    let letters = [0x41u8; MAX_FRAME];
    let mut reader = KissReader::new();
    let mut log = Log {
        answers: ArrayVec::new(),
    };
    feed_all(&mut reader, b"\xc0\x00", &mut log);
    feed_all(&mut reader, &letters[1..], &mut log);
    feed_all(&mut reader, b"\xc0\x00", &mut log);
    feed_all(&mut reader, &letters, &mut log);
    feed_all(&mut reader, b"\xc0\x00", &mut log);
    feed_all(&mut reader, &letters, &mut log);
    feed_all(&mut reader, b"\xdb\x41\xc0\x00\x41\xc0", &mut log);
    let answers = [
        Heard::Other(1023),
        Heard::Passed(PassFault::TooLong),
        Heard::Passed(PassFault::BadEscape),
        Heard::Other(1),
    ];
    assert!(rt; log.answers.as_slice() == answers.as_slice());
}

/// Whether a frame is written as this text, where there is room.
fn is_written_as(frame: &[u8], text: &[u8]) -> bool {
    let mut writer = Counted::new(ArrayVec::<u8, 32>::new());
    write_kiss(&mut writer, frame).is_ok() && writer.into_inner().as_slice() == text
}

#[test]
fn frames_are_written(rt: HostRuntime) {
    assert!(rt; is_written_as(b"\x3e\xc0\xdb", b"\xc0\x00\x3e\xdb\xdc\xdb\xdd\xc0"));
    assert!(rt; is_written_as(&FRAME, &STREAM[..22]));
}

#[test]
fn a_device_without_room_fails_once(rt: HostRuntime) {
    let mut writer = Counted::new(ArrayVec::<u8, 4>::new());
    assert!(rt; write_kiss(&mut writer, b"\x3e\xc0").is_err());
    assert!(rt; writer.failures() == 1);
    assert!(rt; writer.into_inner().as_slice() == b"\xc0\x00\x3e\xdb".as_slice());
}

#[test]
fn faults_have_numbers_and_names(rt: HostRuntime) {
    assert!(rt; PassFault::BadEscape.number() == 1);
    assert!(rt; PassFault::TooLong.number() == 2);
    assert!(rt; PassFault::NotData.number() == 3);
    assert!(rt; PassFault::TooLong.name() == "TooLong");
}
