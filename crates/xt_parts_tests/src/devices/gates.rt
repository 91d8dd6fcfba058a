//! Gates whose flag is up, and gates that wait for theirs in vain.

use crate::devices::{
    AB, CDE, LogCall, SYNC, Told, count, home_answers, home_tells, log_answers, log_tells,
};
use std::alloc::{AllocError, Global};
use std::sync::Arc;
use xt_dev::gates::{Flag, GateHome, GateLog, Meeting};
use xt_dev::mem_home::MemHome;
use xt_dev::mem_log::MemLog;

/// How often a gate looks for its flag here.
const TURNS: u64 = 3;

/// The two flags of a meeting, and the meeting.
fn meeting(alloc: Global) -> Result<(Arc<Flag, Global>, Arc<Flag, Global>, Meeting), AllocError> {
    let reached = Arc::new(alloc, Flag::new())?;
    let awaited = Arc::new(alloc, Flag::new())?;
    let meeting = Meeting {
        reached: Arc::try_clone(&reached)?,
        awaited: Arc::try_clone(&awaited)?,
        turns: TURNS,
    };
    Ok((reached, awaited, meeting))
}

/// An append waits in vain and fails, and says that it was there; once the flag is up the next is handed on.
#[test]
fn log_at_a_gate(rt: HostRuntime) -> Result<(), AllocError> {
    const SHUT: &[LogCall] = &[(AB, false)];
    const OPEN: &[LogCall] = &[(CDE, true), (SYNC, true)];
    const CALLS: &[LogCall] = &[(AB, false), (CDE, true), (SYNC, true)];
    let (reached, awaited, meeting) = meeting(rt.alloc())?;
    let mut log = GateLog::new(rt.alloc(), MemLog::new(rt.alloc()), meeting);
    assert!(rt; !reached.is_raised() && log_answers(&mut log, SHUT) && reached.is_raised());
    awaited.raise();
    assert!(rt; log_answers(&mut log, OPEN) && log_tells(log.taken(), CALLS));
    assert!(rt; count(log.device.taken()) == Some(2));
    Ok(())
}

/// A read waits in vain and fails; a write and a sync wait for nothing. Once the flag is up a read gives what was written.
#[test]
fn home_at_a_gate(rt: HostRuntime) -> Result<(), AllocError> {
    const SHUT: &[Told] = &[Told::Unread(7)];
    const OTHERS: &[Told] = &[Told::Write(7, Some(3), true), Told::Sync(true)];
    const OPEN: &[Told] = &[Told::Read(7, Some(3))];
    const CALLS: &[Told] = &[
        Told::Unread(7),
        Told::Write(7, Some(3), true),
        Told::Sync(true),
        Told::Read(7, Some(3)),
    ];
    let (reached, awaited, meeting) = meeting(rt.alloc())?;
    let mut home = GateHome::new(rt.alloc(), MemHome::new(rt.alloc()), meeting);
    assert!(rt; home_answers(&mut home, SHUT) && reached.is_raised());
    assert!(rt; home_answers(&mut home, OTHERS));
    awaited.raise();
    assert!(rt; home_answers(&mut home, OPEN) && home_tells(home.taken(), CALLS));
    assert!(rt; count(home.device.taken()) == Some(3));
    Ok(())
}
