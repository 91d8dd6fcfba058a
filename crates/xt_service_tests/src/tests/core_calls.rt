//! Sessions over one host: what their lines are answered, and what they give back at their end.

use std::alloc::{AllocError, Global};
use std::io::{self, Read};
use std::process::Abort;
use xt_base::content::{Content, HeldBlocks};
use xt_base::names::{Block, Life, Slot, TransNo};
use xt_base::sizes::{BLOCK_BYTES, SLOTS};
use xt_base::steps::{Answer, Errno, Reply, Request, Step};
use xt_core::HostCore;
use xt_dev::home::HomeDevice;
use xt_dev::mem_home::MemHome;
use xt_service::calls::Calls;
use xt_service::session::session;
use xt_service::session_end::SessionEnd;
use xt_text::buffer::Text;
use xt_text::line::Line;
use xt_text::parse::parse_line;
use xt_text::print_reply::print_reply;
use xt_text::print_step::print_step;

/// How many transactions the sixteen mounts have open at most.
const OPEN: usize = 512;

/// How many buffers the sixteen mounts have busy at most.
const BUSY: usize = 1024;

/// How often a request is made while it finds no memory.
const TRIES: usize = 1000;

/// A transaction of the session.
#[derive(Clone, Copy, PartialEq, Eq, PartialOrd, Ord)]
struct Opened {
    slot: Slot,
    life: Life,
    number: TransNo,
}

/// A buffer that the session holds.
#[derive(Clone, Copy, PartialEq, Eq, PartialOrd, Ord)]
struct Kept {
    slot: Slot,
    life: Life,
    block: Block,
}

/// What takes steps.
trait TakesSteps {
    /// The reply to a step; None where it may not come now.
    fn step(&mut self, step: Step) -> Option<Reply>;
}

impl TakesSteps for HostCore {
    fn step(&mut self, step: Step) -> Option<Reply> {
        HostCore::step(self, step).ok()
    }
}

/// One host with a home device in memory for each slot, and what the session on it holds. All but that it is made is written over what
/// takes steps: a function that names the host itself costs the proof more.
#[derive(Drop)]
struct CoreCalls<C> {
    alloc: Global,
    core: C,
    homes: Vec<MemHome>,
    opened: Vec<Opened>,
    kept: Vec<Kept>,
    /// The lines of what was given back at the end of a session.
    given_back: Vec<u8>,
    ends: usize,
}

/// The transaction that a request names.
fn trans_in(request: &Request) -> Option<TransNo> {
    match request {
        Request::Get { trans, .. }
        | Request::Read { trans, .. }
        | Request::View { trans, .. }
        | Request::Log { trans, .. }
        | Request::Hold { trans, .. }
        | Request::Unhold { trans, .. }
        | Request::Relse { trans, .. }
        | Request::Join { trans, .. }
        | Request::Inval { trans, .. }
        | Request::Commit { trans }
        | Request::Roll { trans }
        | Request::Cancel { trans } => Some(*trans),
        _ => None,
    }
}

/// The transaction that a request ends.
fn ended_by(request: &Request) -> Option<TransNo> {
    match request {
        Request::Commit { trans } | Request::Cancel { trans } => Some(*trans),
        _ => None,
    }
}

/// The held buffer that a request takes over or gives up.
fn taken_by(request: &Request) -> Option<Block> {
    match request {
        Request::Join { block, .. } | Request::Release { block } => Some(*block),
        _ => None,
    }
}

/// Whether a commit or a cancel that was answered so has ended its transaction: EIO gives the leg up.
fn has_ended(reply: &Reply) -> bool {
    match reply {
        Reply::Refused(errno) => *errno == Errno::Io,
        _ => true,
    }
}

/// A home device for each slot.
fn empty_homes(alloc: Global) -> Result<Vec<MemHome>, AllocError> {
    let mut homes = Vec::with_capacity(alloc, SLOTS)?;
    for _ in 0..SLOTS {
        homes.push(MemHome::new(alloc))?;
    }
    Ok(homes)
}

impl<C: TakesSteps> CoreCalls<C> {
    /// A host of which no slot was mounted, with empty home devices.
    fn new(alloc: Global, core: C) -> Result<Self, AllocError>
    where
        C: Drop,
    {
        Ok(CoreCalls {
            alloc,
            core,
            homes: empty_homes(alloc)?,
            opened: Vec::with_capacity(alloc, OPEN)?,
            kept: Vec::with_capacity(alloc, BUSY)?,
            given_back: Vec::new(alloc),
            ends: 0,
        })
    }

    /// Whether the host itself answers a line so, outside any session; None where it can't be asked.
    fn tells(&mut self, line: &str, want: &str) -> Option<bool> {
        let step = parse_line(self.alloc, line.as_bytes()).ok()?;
        let reply = self.core.step(step)?;
        let mut text = Text::new(self.alloc).ok()?;
        print_reply(&reply, &mut text);
        Some(text.bytes() == want.as_bytes())
    }

    /// Writes bytes of one value over a block of a home device; None where that fails.
    fn write_home(&mut self, slot: usize, block: u64, byte: u8) -> Option<()> {
        let home = self.homes.get_mut(slot)?;
        home.write(Block(block), &[byte; BLOCK_BYTES]).ok()
    }

    /// Makes a request that asks no device.
    fn ask(&mut self, slot: Slot, life: Life, request: &Request) -> Reply {
        let Ok(request) = request.copy(self.alloc) else {
            return Reply::Refused(Errno::NoMemory);
        };
        let step = Step::Call {
            slot,
            life,
            request,
            answer: Answer::None,
        };
        self.take(step)
    }

    /// Takes a step; a step out of order is answered `nothing`, which is no reply to a session.
    fn take(&mut self, step: Step) -> Reply {
        self.core.step(step).unwrap_or(Reply::Nothing)
    }

    /// What the home device of a slot has in a block.
    fn content(&mut self, slot: Slot, block: Block) -> Answer {
        let mut bytes = [0; BLOCK_BYTES];
        match self.homes.get_mut(slot.index()) {
            Some(home) => {
                if home.read(block, &mut bytes).is_err() {
                    return Answer::Failed;
                }
            }
            None => return Answer::Failed,
        }
        match Content::of(self.alloc, &bytes) {
            Ok(Some(content)) => Answer::Content(content),
            _ => Answer::Failed,
        }
    }

    /// Reads a block: the home device is asked where the host takes the step in no other way.
    fn read(&mut self, slot: Slot, life: Life, trans: TransNo, block: Block) -> Reply {
        let unasked = Step::Call {
            slot,
            life,
            request: Request::Read { trans, block },
            answer: Answer::None,
        };
        if let Some(reply) = self.core.step(unasked) {
            return reply;
        }
        let answer = self.content(slot, block);
        let asked = Step::Call {
            slot,
            life,
            request: Request::Read { trans, block },
            answer,
        };
        self.take(asked)
    }

    /// Whether the session holds what a request names.
    fn holds(&self, slot: Slot, life: Life, request: &Request) -> bool {
        let trans = match trans_in(request) {
            Some(number) => self.opened.contains(&Opened { slot, life, number }),
            None => true,
        };
        let block = match taken_by(request) {
            Some(block) => self.kept.contains(&Kept { slot, life, block }),
            None => true,
        };
        trans && block
    }

    /// Notes blocks that a leg left held.
    fn keep(&mut self, slot: Slot, life: Life, held: &HeldBlocks) -> Result<(), AllocError> {
        for block in held.blocks() {
            let block = *block;
            self.kept.push(Kept { slot, life, block })?;
        }
        Ok(())
    }

    /// Notes what a reply gives to the session.
    fn note(&mut self, slot: Slot, life: Life, reply: &Reply) -> Result<(), AllocError> {
        match reply {
            Reply::Trans(number) => {
                let number = *number;
                self.opened.push(Opened { slot, life, number })?;
                Ok(())
            }
            Reply::OkayHeld(held) | Reply::Aborted(held) => self.keep(slot, life, held),
            Reply::CommittedHeld { held, .. } => self.keep(slot, life, held),
            _ => Ok(()),
        }
    }

    /// Takes from the session the transaction that a request ended.
    fn forget_opened(&mut self, slot: Slot, life: Life, number: TransNo) {
        let gone = Opened { slot, life, number };
        self.opened.retain(|opened| *opened != gone);
    }

    /// Takes from the session the held buffer that a request took over or gave up.
    fn forget_kept(&mut self, slot: Slot, life: Life, block: Block) {
        let gone = Kept { slot, life, block };
        self.kept.retain(|kept| *kept != gone);
    }

    /// Serves a request of the session.
    fn serve(&mut self, slot: Slot, life: Life, request: &Request) -> Reply {
        if !self.holds(slot, life, request) {
            return Reply::Refused(Errno::Invalid);
        }
        let (ended, taken) = (ended_by(request), taken_by(request));
        let reply = match request {
            Request::Read { trans, block } => self.read(slot, life, *trans, *block),
            other => self.ask(slot, life, other),
        };
        if let Some(number) = ended {
            if has_ended(&reply) {
                self.forget_opened(slot, life, number);
            }
        }
        if let Some(block) = taken {
            if matches!(reply, Reply::Okay) {
                self.forget_kept(slot, life, block);
            }
        }
        match self.note(slot, life, &reply) {
            Ok(()) => reply,
            Err(_) => Reply::Refused(Errno::NoMemory),
        }
    }

    /// Makes a request at the end of a session, again while it finds no memory, and keeps its line.
    fn give_back(&mut self, slot: Slot, life: Life, request: &Request) -> Result<(), AllocError> {
        for _ in 0..TRIES {
            let request = request.copy(self.alloc)?;
            let step = Step::Call {
                slot,
                life,
                request,
                answer: Answer::None,
            };
            let mut text = Text::new(self.alloc)?;
            print_step(&step, &mut text);
            let reply = self.take(step);
            if !matches!(reply, Reply::Refused(Errno::NoMemory)) {
                self.given_back.extend_from_slice(text.bytes())?;
                self.given_back.push(b'\n')?;
                return self.note(slot, life, &reply);
            }
        }
        Ok(())
    }

    /// Cancels the transactions of the session, ascending, and then releases the buffers that it holds, ascending.
    fn close(&mut self) -> Result<(), AllocError> {
        for _ in 0..OPEN {
            let Some(first) = self.opened.iter().copied().min() else {
                break;
            };
            let Opened { slot, life, number } = first;
            self.opened.retain(|opened| *opened != first);
            self.give_back(slot, life, &Request::Cancel { trans: number })?;
        }
        for _ in 0..BUSY {
            let Some(first) = self.kept.iter().copied().min() else {
                break;
            };
            let Kept { slot, life, block } = first;
            self.kept.retain(|kept| *kept != first);
            self.give_back(slot, life, &Request::Release { block })?;
        }
        Ok(())
    }
}

impl<C: TakesSteps> Calls for CoreCalls<C> {
    ghost answers = { λ old line reply new. Unit {0} };

    ghost ends = { λ old new. Unit {0} };

    fn call(&mut self, line: Line) -> Reply {
        match &line.0 {
            Step::Call {
                slot,
                life,
                request,
                ..
            } => self.serve(*slot, *life, request),
            Step::Peek(slot) => self.take(Step::Peek(*slot)),
            _ => Reply::Nothing,
        }
    }

    fn end(&mut self) {
        self.ends = self.ends.saturating_add(1);
        if self.close().is_err() {
            self.given_back.clear();
        }
    }
}

/// Gives at most so many bytes a turn.
#[derive(Drop)]
struct Pieces<'a> {
    rest: &'a [u8],
    size: usize,
}

impl Read for Pieces<'_> {
    fn read(&mut self, buf: &mut [u8]) -> io::Result<usize> {
        let count = self.size.min(buf.len()).min(self.rest.len());
        let (now, later) = self.rest.split_at(count);
        buf[..count].copy_from_slice(now);
        self.rest = later;
        Ok(count)
    }
}

/// Asserts what a session over a host writes, for input in pieces of a size.
fn answers<C: TakesSteps>(
    rt: &impl Abort,
    calls: &mut CoreCalls<C>,
    input: &str,
    size: usize,
    want: &str,
) {
    let mut out = Vec::new(calls.alloc);
    let rest = input.as_bytes();
    let mut reader = Pieces { rest, size };
    let before = calls.ends;
    let end = session(calls.alloc, &mut reader, &mut out, calls);
    assert_eq!(rt; end, SessionEnd::End, "pieces of {size}");
    assert_eq!(rt; out.as_slice(), want.as_bytes(), "pieces of {size}");
    assert_eq!(rt; calls.ends, before.saturating_add(1), "pieces of {size}");
}

/// What is done to a host by a script, and what it answers.
enum Row {
    /// The host is told a line, outside any session.
    Tell(&'static str, &'static str),
    /// A session has this input, and writes this.
    Session(&'static str, &'static str),
    /// What the sessions so far gave back at their ends.
    GivenBack(&'static str),
    /// Bytes of one value are all that a home device has in a block.
    Home { slot: usize, block: u64, byte: u8 },
}

impl<C: TakesSteps> CoreCalls<C> {
    /// Asserts what a row says, with the input of a session in pieces of a size.
    fn plays(&mut self, rt: &impl Abort, size: usize, row: &Row) {
        match row {
            Row::Tell(line, want) => assert_eq!(rt; self.tells(*line, *want), Some(true), "{line}"),
            Row::Session(input, want) => answers(rt, self, *input, size, *want),
            Row::GivenBack(want) => assert_eq!(rt; self.given_back.as_slice(), want.as_bytes()),
            Row::Home { slot, block, byte } => {
                assert!(rt;
                    self.write_home(*slot, *block, *byte).is_some(),
                    "a home device"
                );
            }
        }
    }
}

/// Asserts what a script says of a host of which no slot was mounted, with the input of sessions in pieces of a size.
fn play_over<C: TakesSteps + Drop>(
    rt: &impl Abort,
    calls: CoreCalls<C>,
    size: usize,
    script: &[Row],
) {
    let mut calls = calls;
    for row in script {
        calls.plays(rt, size, row);
    }
}

/// The same over a new host for each size.
fn play(rt: &impl Abort, alloc: Global, sizes: &[usize], script: &[Row]) -> Result<(), AllocError> {
    for size in sizes {
        let calls = CoreCalls::new(alloc, HostCore::new(alloc)?)?;
        play_over(rt, calls, *size, script);
    }
    Ok(())
}

/// What a session leaves open is cancelled.
const ANSWERED: &[Row] = &[
    Row::Tell("mount 0 65536 1024", "life 1"),
    Row::Session(
        "0.1 alloc 1 1 plain\n0.1 unmount\npush\n\n0.1 force\n",
        "t1\nbad line\nbad line\nbad line\ndone\n",
    ),
    Row::GivenBack("0.1 cancel t1\n"),
    Row::Tell("0.1 unmount", "ok"),
];

#[test]
fn a_session_is_answered_by_the_host(rt: HostRuntime) -> Result<(), AllocError> {
    play(&rt, rt.alloc(), &[1, 7, 4096], ANSWERED)
}

/// A change that is left shuts slot 0, and slot 1 goes on.
const LEFT_CHANGED: &[Row] = &[
    Row::Tell("mount 0 65536 1024", "life 1"),
    Row::Tell("mount 1 65536 1024", "life 1"),
    Row::Session(
        "0.1 alloc 176 1 plain\n0.1 read t1 7\n0.1 log t1 7 0 11\n",
        "t1\nok\nok\n",
    ),
    Row::Tell("show 0", "ok"),
    Row::Tell("peek 0", "seen 1 CORRUPT_INCORE"),
    Row::Session(
        "peek 0\n0.1 force\n1.1 alloc 176 1 plain\n1.1 commit t1\n",
        "seen 1 CORRUPT_INCORE\nEIO\nt1\nc0\n",
    ),
    Row::Tell("1.1 unmount", "ok"),
];

#[test]
fn a_session_that_leaves_a_change_shuts_its_mount_alone(rt: HostRuntime) -> Result<(), AllocError> {
    play(&rt, rt.alloc(), &[1, 7, 4096], LEFT_CHANGED)
}

/// Block 7 of slot 3 has one byte all over.
const READ: &[Row] = &[
    Row::Tell("mount 3 65536 1024", "life 1"),
    Row::Home {
        slot: 3,
        block: 7,
        byte: 0x5a,
    },
    Row::Session(
        "3.1 alloc 1 1 plain\n3.1 read t1 7\n3.1 view t1 7\n3.1 read t1 7\n3.1 read t1 1024\n",
        "t1\nok\ndata 5a*4096\nok\nEINVAL\n",
    ),
];

#[test]
fn a_session_reads_what_the_home_device_has(rt: HostRuntime) -> Result<(), AllocError> {
    play(&rt, rt.alloc(), &[7], READ)
}

/// Three transactions and two held buffers are left, and go in order.
const GIVEN_BACK: &[Row] = &[
    Row::Tell("mount 0 65536 1024", "life 1"),
    Row::Tell("mount 1 65536 1024", "life 1"),
    Row::Session(
        "\
        1.1 alloc 176 1 plain\n\
        0.1 alloc 176 1 plain\n\
        0.1 alloc 176 1 plain\n\
        0.1 get t2 9\n\
        0.1 hold t2 9\n\
        0.1 get t1 30\n\
        0.1 hold t1 30\n\
        0.1 get t1 5\n\
        0.1 hold t1 5\n\
        0.1 commit t1\n\
        0.1 commit t1\n\
        5.1 commit t1\n\
        0.1 drop 9\n\
        0.1 alloc 176 1 plain\n\
        0.1 join t3 30\n\
        0.1 join t3 30\n\
        1.1 get t1 3\n\
        0.1 shutdown\n\
        0.1 join t2 5\n",
        "\
        t1\n\
        t1\n\
        t2\n\
        ok\n\
        ok\n\
        ok\n\
        ok\n\
        ok\n\
        ok\n\
        c0 held 5 30\n\
        EINVAL\n\
        EINVAL\n\
        EINVAL\n\
        t3\n\
        ok\n\
        EINVAL\n\
        ok\n\
        ok\n\
        EIO\n",
    ),
    Row::GivenBack(
        "\
        0.1 cancel t2\n\
        0.1 cancel t3\n\
        1.1 cancel t1\n\
        0.1 drop 5\n\
        0.1 drop 9\n",
    ),
    Row::Tell("0.1 unmount", "ok"),
    Row::Tell("1.1 unmount", "ok"),
];

#[test]
fn a_session_gives_back_what_it_holds_in_order(rt: HostRuntime) -> Result<(), AllocError> {
    play(&rt, rt.alloc(), &[7], GIVEN_BACK)
}
