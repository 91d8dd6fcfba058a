//! The log of sealed texts in two files by turns, of which no clause can say what they have.

ghost use Rattle.std.specs.Prelude.{[], false};
ghost use Rattle.xt_dev.specs.TwoFiles.{IsFirst};

use crate::devices::files::{fresh_path, had, has};
use crate::devices::{AB, ALL_TAKEN, CDE, LogCall, SYNC, log_answers, offer_two};
use crate::texts::bytes_of;
use bytes::Bytes;
use std::alloc::Global;
use std::fs;
use std::path::{Path, PathBuf};
use std::test::*;
use xt_base::steps::LogAnswers;
use xt_dev::offer::offer;
use xt_dev::{DevFault, FailAt, FileFault, LogDevice, SealedLog};
use xt_seal::Header;

/// The first header of a life, of a log of ten bytes.
fn header() -> Header
    ensures { IsFirst result }
{
    Header {
        block_size: 512,
        log_bytes: 10,
        generation: 1,
        salt: 0x0123_4567_89ab_cdef,
        link: [0; 8],
        name: *b"vol-a\0\0\0\0\0\0\0\0\0\0\0",
    }
}

/// What stands in the file of each generation, the whole life long, as another program wrote it.
const FILES: [&str; 3] = [
    "58434c31000002000000000a.00*11.010123456789abcdef.00*8.766f6c2d61.00*11.e17e712b2d069147.6162636465.19257f996e548b28.666768696a.27c541064fceb4b8",
    "58434c31000002000000000a.00*11.020123456789abcdef27c541064fceb4b8.766f6c2d61.00*11.3c3e4a2aa6acd2b5.6b6c6d.e9a262f4b9495055.6e6f7071727374.66dd061aebfb91bf",
    "58434c31000002000000000a.00*11.030123456789abcdef66dd061aebfb91bf.766f6c2d61.00*11.6c29db68883e7eb0.75.84961eb1fdb90ba7",
];

/// The texts of each generation: with the next one each file would have more than ten bytes.
const TEXTS: [&[&[u8]]; 3] = [&[b"abcde", b"fghij"], &[b"klm", b"nopqrst"], &[b"u"]];

/// The bytes of a file as xt_seal makes them: a header, and texts with their seals. And the last of these.
fn sealed(alloc: Global, header: Header, texts: &[&[u8]]) -> Result<(Vec<u8>, [u8; 8]), Fail> {
    let (begun, mut sealer) = header.begin();
    let mut bytes = Vec::new(alloc);
    let mut last = [0; 8];
    bytes.extend_from_slice(&begun)?;
    for text in texts {
        sealer.note(text);
        last = sealer.seal();
        bytes.extend_from_slice(text)?;
        bytes.extend_from_slice(&last)?;
    }
    Ok((bytes, last))
}

/// Two paths of this process where nothing is.
fn fresh_pair(rt: &HostRuntime, name: &str) -> Result<(PathBuf, PathBuf), Fail> {
    let second = format!(in rt.alloc(); "{name}-1")?;
    Ok((fresh_path(rt, name)?, fresh_path(rt, second.as_str())?))
}

/// Whether a text is taken whole.
fn is_taken(log: &mut dyn LogDevice, text: &'static [u8]) -> bool {
    let whole = LogAnswers {
        taken: 1,
        sync: Some(true),
    };
    text.len() <= 4096 && offer(log, &[Bytes::from_static(text)]) == whole
}

/// Whether texts are taken whole, one after another.
fn are_taken(log: &mut dyn LogDevice, texts: &[&'static [u8]]) -> bool {
    for text in texts {
        if !is_taken(log, text) {
            return false;
        }
    }
    true
}

/// Whether a file has what another program and xt_seal say that it has.
fn is_golden(rt: &HostRuntime, path: Path<'_>, golden: &str, made: &[u8]) -> Result<bool, Fail> {
    Ok(bytes_of(rt.alloc(), golden)?.as_slice() == made && has(rt, path, made)?)
}

/// A life of two turns: the file of each generation is as it is to be when the next one begins, and the other one is untouched then.
#[test]
fn life_of_several_turns(rt: HostRuntime) -> Result<(), Fail> {
    let (first, second) = fresh_pair(&rt, "turns")?;
    let mut log = SealedLog::open(&rt, first.as_path(), second.as_path(), header())?;
    let mut header = header();
    let mut before = Vec::new(rt.alloc());
    let (mut newer, mut older) = (&first, &second);
    for (texts, golden) in TEXTS.iter().zip(&FILES) {
        assert!(rt; are_taken(&mut log, texts));
        let (bytes, last) = sealed(rt.alloc(), header, texts)?;
        assert!(rt; is_golden(&rt, newer.as_path(), golden, &bytes)?);
        assert!(rt; has(&rt, older.as_path(), &before)?);
        assert!(rt; log.bytes() == (bytes.len() + before.len()) as u64 && log.fault().is_none());
        (newer, older) = (older, newer);
        before = bytes;
        header.generation = header.generation.saturating_add(1);
        header.link = last;
    }
    fs::remove_file(&rt, first.as_path())?;
    fs::remove_file(&rt, second.as_path())?;
    Ok(())
}

/// No turn is taken within a text, and a sync where none is begun writes nothing.
#[test]
fn text_stands_in_one_file(rt: HostRuntime) -> Result<(), Fail> {
    const BEGUN: &[LogCall] = &[(SYNC, true), (CDE, true)];
    const REST: &[LogCall] = &[(AB, true), (SYNC, true), (SYNC, true)];
    let (first, second) = fresh_pair(&rt, "whole")?;
    let mut log = SealedLog::open(&rt, first.as_path(), second.as_path(), header())?;
    log.make_room(11);
    assert!(rt; log.bytes() == 128 && log_answers(&mut log, BEGUN));
    log.make_room(11);
    assert!(rt; log_answers(&mut log, REST) && log.bytes() == 128 + 13);
    let (_, link) = sealed(rt.alloc(), header(), &[])?;
    let (begun, _) = header().begin();
    let mut link = link;
    link.copy_from_slice(&begun[56..]);
    let next = Header {
        generation: 2,
        link,
        ..header()
    };
    let (bytes, _) = sealed(rt.alloc(), next, &[b"cdeab"])?;
    assert!(rt; had(&rt, first.as_path(), &begun)? && had(&rt, second.as_path(), &bytes)?);
    Ok(())
}

/// Whether a log is refused, since a file has something in it.
fn is_not_empty(opened: &Result<SealedLog, FileFault>) -> bool {
    matches!(opened, Err(FileFault::NotEmpty))
}

#[test]
fn either_file_has_something(rt: HostRuntime) -> Result<(), Fail> {
    let (first, second) = fresh_pair(&rt, "some")?;
    fs::write(&rt, second.as_path(), b"x".as_slice())?;
    let opened = SealedLog::open(&rt, first.as_path(), second.as_path(), header());
    assert!(rt; is_not_empty(&opened) && has(&rt, first.as_path(), b"")?);
    let turned = SealedLog::open(&rt, second.as_path(), first.as_path(), header());
    assert!(rt; is_not_empty(&turned) && had(&rt, first.as_path(), b"")?);
    assert!(rt; had(&rt, second.as_path(), b"x")?);
    Ok(())
}

/// A file that can't be emptied, and takes each byte.
const STIFF: &str = "/dev/null";

/// Where the older file can't be emptied, the newer one goes on beyond its bound.
#[test]
fn older_file_that_is_not_emptied(rt: HostRuntime) -> Result<(), Fail> {
    let path = fresh_path(&rt, "stiff")?;
    let mut log = SealedLog::open(&rt, path.as_path(), STIFF, header())?;
    let texts: [&[u8]; 4] = [b"abcde", b"fghij", b"klm", b"nopqrstuvwxyz"];
    assert!(rt; are_taken(&mut log, &texts) && log.fault().is_none());
    let (bytes, _) = sealed(rt.alloc(), header(), &texts)?;
    assert!(rt; had(&rt, path.as_path(), &bytes)?);
    Ok(())
}

/// A file that takes no byte.
const FULL: &str = "/dev/full";

#[test]
fn header_that_is_not_written(rt: HostRuntime) -> Result<(), Fail> {
    let path = fresh_path(&rt, "headless")?;
    let full = SealedLog::open(&rt, FULL, path.as_path(), header());
    assert!(rt; matches!(full, Err(FileFault::Io(_))));
    let unsafe_file = SealedLog::open(&rt, STIFF, path.as_path(), header());
    assert!(rt; matches!(unsafe_file, Err(FileFault::Io(_))));
    assert!(rt; had(&rt, path.as_path(), b"")?);
    Ok(())
}

/// A log that only adds up what it is told of texts to come.
#[derive(Drop)]
struct Told(u64);

impl LogDevice for Told {
    ghost log_tells = { λ _. false };

    ghost log_taken = { λ _. [] };

    ghost log_failures = { λ _. 0 };

    fn append(&mut self, _piece: &[u8]) -> Result<(), DevFault> {
        Ok(())
    }

    fn sync(&mut self) -> Result<(), DevFault> {
        Ok(())
    }

    fn make_room(&mut self, bytes: u64) {
        self.0 = self.0.saturating_mul(100).saturating_add(bytes);
    }
}

/// An offer tells a log how long its text is, once; a device over another one hands that on, and counts no call.
#[test]
fn length_of_a_text_is_told(rt: HostRuntime) {
    let mut log = FailAt::over_log(rt.alloc(), Told(0), 9);
    assert!(rt; offer_two(&mut log) == ALL_TAKEN && log.device.0 == 5 && log.left == 6);
    log.make_room(7);
    assert!(rt; log.device.0 == 507 && log.left == 6);
}
