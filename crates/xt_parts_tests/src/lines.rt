//! The rows of the line language, and lines that are none.
//!
//! A test function is proved too, at a cost that grows with the square of its length. So lines
//! stand in constants, helpers compare, and a test has few assertions.

ghost use Rattle.std.specs.Prelude.{◌≤◌};
ghost use Rattle.xt_base.specs.declared.sizes.TheConstants.{DATA_BYTES};

use std::alloc::{AllocError, Global};
use xt_base::content::Data;
use xt_base::sizes::DATA_BYTES;
use xt_base::steps::{Answer, Request, Step};
use xt_text::bad_line::BadLine;
use xt_text::buffer::Text;
use xt_text::line::Line;
use xt_text::parse::parse_line;
use xt_text::print_step::print_step;

/// Each form of a step, with the least and the greatest numbers.
const STEPS: &[&str] = &[
    "mount 0 65536 1024",
    "mount 15 4294967295 18446744073709551615",
    "mount 0 65536 1024 0",
    "mount 0 65536 1024 512",
    "mount 0 65536 1024 4096",
    "mount 15 4294967295 18446744073709551615 4294967295",
    "0.1 alloc 5000 1 plain",
    "15.4294967295 alloc 4294967295 4294967295 perm",
    "0.1 get t1 7",
    "0.1 get t18446744073709551615 18446744073709551615",
    "0.0 get t0 0",
    "0.1 read t1 7",
    "0.1 read t1 7 = 55*4096",
    "0.1 read t1 7 = 11.00*4095",
    "0.1 read t1 7 = 55*512",
    "0.1 read t1 7 = 11.00*1023",
    "0.1 read t1 7 = 00*2047.11",
    "0.1 read t1 7 = fail",
    "15.4294967295 read t18446744073709551615 18446744073709551615 = fail",
    "0.1 view t1 7",
    "0.1 hold t1 7",
    "0.1 unhold t1 7",
    "0.1 relse t1 7",
    "0.1 join t1 7",
    "0.1 drop 7",
    "15.4294967295 drop 18446744073709551615",
    "0.1 cancel t1",
    "0.1 roll t1",
    "15.4294967295 roll t18446744073709551615",
    "0.1 inval t1 7",
    "15.4294967295 inval t18446744073709551615 18446744073709551615",
    "0.1 log t1 7 0 aa*4096",
    "0.1 log t1 7 4294967295 -",
    "0.1 commit t1",
    "0.1 force",
    "0.1 forceto c1",
    "0.1 forceto c0",
    "15.4294967295 forceto c18446744073709551615",
    "0.1 push",
    "0.1 freeze",
    "15.4294967295 freeze",
    "0.1 thaw",
    "15.4294967295 thaw",
    "0.1 stat",
    "15.4294967295 stat",
    "0.1 shutdown",
    "0.1 unmount",
    "post 0.1.ckpt.1",
    "post 15.4294967295.ckpt.18446744073709551615",
    "take 0 0.1.ckpt.1",
    "begin 7 0.1.ckpt.1",
    "end 0 0.1.ckpt.1 2 ok",
    "end 0 0.1.ckpt.1 4294967295 fail",
    "end 7 0.1.ckpt.1 0 none",
    "post 0.1.flush.1",
    "take 7 15.4294967295.flush.18446744073709551615",
    "begin 0 0.1.flush.1",
    "end 0 0.1.flush.1 1 ok",
    "flush 0 0.1.flush.1",
    "flush 7 15.4294967295.flush.18446744073709551615",
    "flush 0 0.1.ckpt.1",
    "flush 0 0.1.flush.1 ok ok",
    "flush 0 0.1.flush.1 ok fail",
    "flush 0 0.1.flush.1 fail ok",
    "flush 0 0.1.flush.1 fail fail",
    "flush 0 0.1.flush.1 ok fail ok fail ok fail ok fail fail",
    "flush 0 0.1.flush.1 ok ok ok ok ok ok ok ok ok",
    "flush 7 15.4294967295.flush.18446744073709551615 fail fail fail fail fail fail fail fail fail",
    "show 0",
    "show 15",
    "peek 0",
    "peek 15",
];

/// Whether a line is a step that is printed as this line.
fn comes_back(alloc: Global, line: &str) -> bool {
    let (Ok(step), Ok(mut out)) = (parse_line(alloc, line.as_bytes()), Text::new(alloc)) else {
        return false;
    };
    print_step(&step, &mut out);
    out.holds(line.as_bytes())
}

#[test]
fn lines_of_steps_are_read_and_printed(rt: HostRuntime) {
    for line in STEPS {
        assert!(rt; comes_back(rt.alloc(), line), "{line}");
    }
}

/// Steps with their fields, as Rust writes them for whoever debugs.
const FIELDS: &[(&str, &str)] = &[
    (
        "3.9 alloc 5000 2 perm",
        "Call { slot: Slot(3), life: Life(9), request: Alloc { unit: 5000, count: 2, perm: true \
         }, answer: None }",
    ),
    (
        "3.9 read t5 7",
        "Call { slot: Slot(3), life: Life(9), request: Read { trans: TransNo(5), block: \
         Block(7) }, answer: None }",
    ),
    (
        "3.9 read t5 7 = fail",
        "Call { slot: Slot(3), life: Life(9), request: Read { trans: TransNo(5), block: \
         Block(7) }, answer: Failed }",
    ),
    (
        "3.9 forceto c5",
        "Call { slot: Slot(3), life: Life(9), request: ForceTo { number: CkptNo(5) }, answer: \
         None }",
    ),
    (
        "mount 3 65536 1024",
        "Mount { slot: Slot(3), log_bytes: 65536, blocks: 1024, size: None }",
    ),
    (
        "mount 3 65536 1024 512",
        "Mount { slot: Slot(3), log_bytes: 65536, blocks: 1024, size: Some(512) }",
    ),
    ("show 11", "Show(Slot(11))"),
    ("peek 12", "Peek(Slot(12))"),
    (
        "flush 0 0.1.flush.1 ok fail ok fail",
        "Flush { worker: Worker(0), name: JobName { slot: Slot(0), life: Life(1), kind: Flush, \
         serial: 1 }, answers: HomeAnswers { count: 3, writes: [true, false, true, false, \
         false, false, false, false], sync: false } }",
    ),
    (
        "flush 0 0.1.flush.1 fail ok",
        "Flush { worker: Worker(0), name: JobName { slot: Slot(0), life: Life(1), kind: Flush, \
         serial: 1 }, answers: HomeAnswers { count: 1, writes: [false, false, false, false, \
         false, false, false, false], sync: true } }",
    ),
    (
        "flush 0 0.1.flush.1 ok ok ok ok ok ok ok ok ok",
        "Flush { worker: Worker(0), name: JobName { slot: Slot(0), life: Life(1), kind: Flush, \
         serial: 1 }, answers: HomeAnswers { count: 8, writes: [true, true, true, true, true, \
         true, true, true], sync: true } }",
    ),
    (
        "flush 0 0.1.flush.1",
        "Flush { worker: Worker(0), name: JobName { slot: Slot(0), life: Life(1), kind: Flush, \
         serial: 1 }, answers: HomeAnswers { count: 0, writes: [false, false, false, false, \
         false, false, false, false], sync: false } }",
    ),
];

/// Whether a line is read as a step with these fields.
fn has_fields(alloc: Global, line: &str, fields: &str) -> Result<bool, AllocError> {
    match parse_line(alloc, line.as_bytes()) {
        Ok(step) => Ok(format!(in alloc; "{step:?}")?.as_str() == fields),
        Err(_) => Ok(false),
    }
}

#[test]
fn fields_are_where_they_belong(rt: HostRuntime) -> Result<(), AllocError> {
    for (line, fields) in FIELDS {
        assert!(rt; has_fields(rt.alloc(), line, fields)?, "{line}");
    }
    Ok(())
}

/// Whether a line is one that a session may have.
fn is_in_session(alloc: Global, line: &str) -> Option<bool> {
    let step = parse_line(alloc, line.as_bytes()).ok()?;
    Some(Line(step).in_session())
}

/// Requests of the mount as a whole that a session makes.
const IN_SESSION: &[&str] = &["0.1 freeze", "0.1 thaw", "0.1 stat"];

#[test]
fn sessions_freeze_thaw_and_ask_and_do_not_unmount(rt: HostRuntime) {
    for line in IN_SESSION {
        assert!(rt; is_in_session(rt.alloc(), line) == Some(true), "{line}");
    }
    assert!(rt; is_in_session(rt.alloc(), "0.1 unmount") == Some(false));
}

/// 4,096 bytes, of which the first is 0x11 and all others are 0.
fn first_alone() -> [u8; DATA_BYTES] {
    let mut bytes = [0; DATA_BYTES];
    bytes[0] = 0x11;
    bytes
}

/// Whether a line is the read of block 7 in transaction 5, answered by the first so many of such bytes.
fn has_content(alloc: Global, line: &str, size: usize) -> bool
    requires { size ≤ DATA_BYTES }
{
    let Ok(step) = parse_line(alloc, line.as_bytes()) else {
        return false;
    };
    match &step {
        Step::Call {
            request: Request::Read { trans, block },
            answer: Answer::Content(content),
            ..
        } => (trans.0, block.0) == (5, 7) && content.bytes() == &first_alone()[..size],
        _ => false,
    }
}

#[test]
fn contents_of_reads_are_read(rt: HostRuntime) {
    assert!(rt; has_content(rt.alloc(), "3.9 read t5 7 = 11.00*4095", 4096));
    assert!(rt; has_content(rt.alloc(), "3.9 read t5 7 = 11.00*511", 512));
}

/// Answers of reads in other spellings.
const BAD_READS: &[&str] = &[
    "0.1 read t1 7 =",
    "0.1 read t1 7 = ",
    "0.1 read t1 7 = -",
    "0.1 read t1 7 = 55",
    "0.1 read t1 7 = 55*128",
    "0.1 read t1 7 = 55*511",
    "0.1 read t1 7 = 55*513",
    "0.1 read t1 7 = 55*1536",
    "0.1 read t1 7 = 55*4095",
    "0.1 read t1 7 = 55*4097",
    "0.1 read t1 7 = ok",
    "0.1 read t1 7 = none",
    "0.1 read t1 7 = fail ",
    "0.1 read t1 7 fail",
    "0.1 read t1 7 55*4096",
    "0.1 read t1 7=55*4096",
    "0.1 read t1 7 =55*4096",
    "0.1 read t1 7  = 55*4096",
    "0.1 read t1 7 = 55*4096 =",
    "0.1 read t1 = 55*4096",
    "0.1 view t1 7 = 55*4096",
    "0.1 get t1 7 = fail",
];

/// Requests of buffers in other spellings.
const BAD_BUFFER_WORDS: &[&str] = &[
    "0.1 view t1",
    "0.1 view t1 7 7",
    "0.1 view 1 7",
    "0.1 View t1 7",
    "0.1 hold t1",
    "0.1 hold t1 07",
    "0.1 un hold t1 7",
    "0.1 unhold t1",
    "0.1 unhold t1 18446744073709551616",
    "0.1 relse t1",
    "0.1 relse 7",
    "0.1 release t1 7",
    "0.1 brelse t1 7",
    "0.1 join t1",
    "0.1 join 7",
    "0.1 drop",
    "0.1 drop t1 7",
    "0.1 drop t1",
    "0.1 drop 7 ",
    "0.1 cancel",
    "0.1 cancel 1",
    "0.1 cancel t1 7",
    "0.1 roll",
    "0.1 roll 1",
    "0.1 roll t1 t2",
    "0.1 roll t1 perm",
];

/// Requests of the mount, and looks at a slot, in other spellings.
const BAD_MOUNT_WORDS: &[&str] = &[
    "0.1 inval t1",
    "0.1 inval 7",
    "0.1 inval t1 7 7",
    "0.1 binval t1 7",
    "0.1 forceto",
    "0.1 forceto 1",
    "0.1 forceto t1",
    "0.1 forceto c",
    "0.1 forceto c01",
    "0.1 forceto c18446744073709551616",
    "0.1 force to c1",
    "0.1 force c1",
    "0.1 push ",
    "0.1 push t1",
    "0.1 shutdown FORCE_UMOUNT",
    "0.1 unmount 0",
    "0.1 umount",
    "unmount 0",
    "push",
    "show",
    "show 16",
    "show 00",
    "show 0 ",
    "show 0.1",
    "0.1 show",
    "0.1 peek",
    "peek",
    "peek 16",
    "peek 0 0",
    "0.1 freeze ",
    "0.1 freeze t1",
    "0.1 frozen",
    "0.1 unfreeze",
    "0.1 thaw 0",
    "0.1 Thaw",
    "freeze 0",
    "thaw",
    "0.1 stat ",
    "0.1 stat 0",
    "0.1 stats",
    "0.1 state",
    "0.1 Stat",
    "stat 0",
    "stat",
];

/// Lines with other spaces, numbers and words.
const BAD_LINES: &[&str] = &[
    "",
    " ",
    "mount",
    "mount 0 65536",
    "mount 0 65536 1024 ",
    " mount 0 65536 1024",
    "mount 0 65536 1024\r",
    "mount 0 65536 1024 4096 ",
    "mount 0 65536 1024 04096",
    "mount 0 65536 1024 4294967296",
    "mount 0 65536 1024 512 512",
    "mount 0 65536 1024 -",
    "mount 0 65536 1024  512",
    "mount  0 65536 1024",
    "mount\t0 65536 1024",
    "mount 00 65536 1024",
    "mount 16 65536 1024",
    "mount +0 65536 1024",
    "mount 0 4294967296 1024",
    "mount 0 65536 18446744073709551616",
    "mount 0 065536 1024",
    "Mount 0 65536 1024",
    "0.1 get 1 7",
    "0.1 get c1 7",
    "0.1 get t01 7",
    "0.1 get t 7",
    "01.1 force",
    "0.4294967296 force",
    "0.1.2 force",
    "0.1 force ",
    "0.1 alloc 1 1 maybe",
    "0.1 frobnicate",
    "take 8 0.1.ckpt.1",
    "post 0.1.ckpt",
    "post 0.1.sync.1",
    "end 0 0.1.ckpt.1 2 maybe",
    "end 0 0.1.ckpt.1 2",
];

/// Flushes and their answers in other spellings.
const BAD_FLUSHES: &[&str] = &[
    "flush",
    "flush 0",
    "flush 8 0.1.flush.1",
    "flush 0.1.flush.1",
    "flush 0 0.1.flush",
    "flush 0 0.1.Flush.1",
    "flush 0 0.1.flush.01",
    "flush 0 0.1.flush.1 ",
    "flush 0 0.1.flush.1 ok",
    "flush 0 0.1.flush.1 fail",
    "flush 0 0.1.flush.1 none",
    "flush 0 0.1.flush.1 0",
    "flush 0 0.1.flush.1 ok ok ",
    "flush 0 0.1.flush.1 ok  ok",
    "flush 0 0.1.flush.1 okok",
    "flush 0 0.1.flush.1 o o",
    "flush 0 0.1.flush.1 ok f",
    "flush 0 0.1.flush.1 ok none",
    "flush 0 0.1.flush.1 of of",
    "flush 0 0.1.flush.1 OK OK",
    "flush 0 0.1.flush.1 ok ok ok ok ok ok ok ok ok ok",
    "post flush",
    "post 0.1.flush.1 ok",
    "0.1 flush",
];

/// Log requests with texts that are no spelling of data.
const BAD_DATA: &[&str] = &[
    "0.1 log t1 7 0 ",
    "0.1 log t1 7 0 a",
    "0.1 log t1 7 0 AA",
    "0.1 log t1 7 0 aaaaaaaa",
    "0.1 log t1 7 0 aa*3",
    "0.1 log t1 7 0 aa*04",
    "0.1 log t1 7 0 aa*4097",
    "0.1 log t1 7 0 aa*4.aa*4",
    "0.1 log t1 7 0 aa*4.aa",
    "0.1 log t1 7 0 11.22",
    "0.1 log t1 7 0 11.00*4096",
    "0.1 log t1 7 0 aa*4.",
    "0.1 log t1 7 0 .aa*4",
    "0.1 log t1 7 0 aa*4..bb*4",
    "0.1 log t1 7 0 aa*4bb",
    "0.1 log t1 7 0 -.aa",
    "0.1 log t1 7 0 zz",
    "0.1 log t1 7 0 aa*",
    "0.1 log t1 7 0 *4",
];

/// Whether a line is refused for its spelling.
fn is_bad(alloc: Global, line: &[u8]) -> bool {
    matches!(parse_line(alloc, line), Err(BadLine::Spelling))
}

#[test]
fn other_spellings_are_bad(rt: HostRuntime) {
    const ALL: &[&[&str]] = &[
        BAD_READS,
        BAD_BUFFER_WORDS,
        BAD_MOUNT_WORDS,
        BAD_LINES,
        BAD_FLUSHES,
        BAD_DATA,
    ];
    for lines in ALL {
        for line in *lines {
            assert!(rt; is_bad(rt.alloc(), line.as_bytes()), "{line}");
        }
    }
}

/// Whether a line of so many digits is refused for its spelling.
fn is_bad_at(alloc: Global, len: usize) -> bool {
    match vec![in alloc; b'1'; len] {
        Ok(digits) => is_bad(alloc, &digits),
        Err(_) => false,
    }
}

#[test]
fn long_lines_are_bad(rt: HostRuntime) {
    assert!(rt; is_bad_at(rt.alloc(), 8400) && is_bad_at(rt.alloc(), 8401));
}

/// Texts of data, and their bytes.
const DATA: &[(&str, &[u8])] = &[
    ("-", &[]),
    ("0102", &[1, 2]),
    ("aaaaaa", &[0xaa, 0xaa, 0xaa]),
    ("aa*4", &[0xaa, 0xaa, 0xaa, 0xaa]),
    ("07.ff*4.00*4.01", &[7, 255, 255, 255, 255, 0, 0, 0, 0, 1]),
];

/// The data of a log request.
fn logged(step: &Step) -> Option<&Data> {
    match step {
        Step::Call {
            request: Request::Log { bytes, .. },
            ..
        } => Some(bytes),
        _ => None,
    }
}

/// Whether a text of data is read as these bytes.
fn is_data(alloc: Global, data: &str, want: &[u8]) -> Result<bool, AllocError> {
    let line = format!(in alloc; "0.1 log t1 7 0 {data}")?;
    let Ok(step) = parse_line(alloc, line.as_bytes()) else {
        return Ok(false);
    };
    match logged(&step) {
        Some(bytes) => Ok(bytes.holds(want)),
        None => Ok(false),
    }
}

#[test]
fn data_has_one_spelling(rt: HostRuntime) -> Result<(), AllocError> {
    for (data, want) in DATA {
        assert!(rt; is_data(rt.alloc(), data, want)?, "{data}");
    }
    assert!(rt; is_data(rt.alloc(), "11.00*4095", &first_alone())?);
    Ok(())
}
