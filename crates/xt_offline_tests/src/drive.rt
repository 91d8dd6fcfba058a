//! One mount, driven call by call over devices in memory.

ghost use Rattle.std.specs.Prelude.{◌≡◌, ◌<◌, ◌≤◌, All, Some, length, true, IfOk};
ghost use Rattle.xt_base.specs.Calls.{asks};
ghost use Rattle.xt_base.specs.Form.{is_size};
ghost use Rattle.xt_base.specs.Jobs.{fits_plan, flush_plan, is_begun, is_waiting};
ghost use Rattle.xt_base.specs.Maps.{is_in};
ghost use Rattle.xt_base.specs.Order.{has_size, is_answer, is_there};
ghost use Rattle.xt_frames.specs.Shares.{no_contents};
ghost use Rattle.xt_mount.specs.Accounts.{IsUnchanged};

use std::alloc::{AllocError, Global};
use std::test::Fail;
use xt_base::content::Content;
use xt_base::names::{Block, JobName, Life, Slot};
use xt_base::outcomes::Outcomes;
use xt_base::sizes::SLOTS;
use xt_base::steps::{Answer, HomeAnswers, LogOffer, Reply, Request, Step};
use xt_dev::call::HomeCall;
use xt_dev::home::HomeDevice;
use xt_dev::log::LogDevice;
use xt_dev::offer::offer;
use xt_dev::offer_home::offer_home;
use xt_frames::share::FrameShare;
use xt_frames::table::FrameTable;
use xt_mount::mount::{Mount, Stage};
use xt_text::buffer::Text;
use xt_text::parse::parse_line;
use xt_text::print_reply::{print_home_offer, print_log_offer, print_slot_reply};

/// What a line of output tells.
#[derive(Clone, Copy, PartialEq, Eq)]
pub enum Told {
    /// The reply of a step.
    Reply,
    /// An offer to the log device.
    Log,
    /// An offer to the home device.
    Home,
}

/// What a line of slot 0 tells.
pub fn told_by(line: &str) -> Told {
    if line.starts_with("0 log") {
        Told::Log
    } else if line.starts_with("0 home") {
        Told::Home
    } else {
        Told::Reply
    }
}

/// The lines of an output that tell one thing, in order.
pub fn lines_of(alloc: Global, output: &str, told: Told) -> Result<Vec<u8>, Fail> {
    let mut lines = Vec::new(alloc);
    for line in output.lines() {
        if told_by(line) == told {
            lines.extend_from_slice(line.as_bytes())?;
            lines.push(b'\n')?;
        }
    }
    Ok(lines)
}

/// The steps of the lines of a script.
pub fn steps_of(alloc: Global, script: &str) -> Result<Vec<Step>, Fail> {
    let mut steps = Vec::new(alloc);
    for line in script.lines() {
        let step = parse_line(alloc, line.as_bytes()).map_err(|_| "a line of a step")?;
        steps.push(step)?;
    }
    Ok(steps)
}

/// Puts what a buffer holds behind other lines, with a newline.
fn put_line(lines: &mut Vec<u8>, text: &Text) -> Result<(), Fail> {
    lines.extend_from_slice(text.bytes())?;
    lines.push(b'\n')?;
    Ok(())
}

/// The lines of what a log device tells.
pub fn log_lines(alloc: Global, slot: Slot, offers: &[LogOffer]) -> Result<Vec<u8>, Fail> {
    let mut lines = Vec::new(alloc);
    let mut text = Text::new(alloc)?;
    for offer in offers {
        text.clear();
        print_log_offer(slot, offer, &mut text);
        put_line(&mut lines, &text)?;
    }
    Ok(lines)
}

/// The lines of what a home device tells, the reads left out.
pub fn home_lines(alloc: Global, slot: Slot, calls: &[HomeCall]) -> Result<Vec<u8>, Fail> {
    let mut lines = Vec::new(alloc);
    let mut text = Text::new(alloc)?;
    for call in calls {
        if let HomeCall::Offer(offer) = call {
            text.clear();
            print_home_offer(slot, offer, &mut text);
            put_line(&mut lines, &text)?;
        }
    }
    Ok(lines)
}

/// The lines of what a run tells that a slot offered to its log device.
pub fn told_log_lines(alloc: Global, slot: Slot, told: &Outcomes) -> Result<Vec<u8>, Fail> {
    let mut lines = Vec::new(alloc);
    let mut text = Text::new(alloc)?;
    for offer in told.log_offers(alloc, slot)? {
        text.clear();
        print_log_offer(slot, offer, &mut text);
        put_line(&mut lines, &text)?;
    }
    Ok(lines)
}

/// The same of its home device.
pub fn told_home_lines(alloc: Global, slot: Slot, told: &Outcomes) -> Result<Vec<u8>, Fail> {
    let mut lines = Vec::new(alloc);
    let mut text = Text::new(alloc)?;
    for offer in told.home_offers(alloc, slot)? {
        text.clear();
        print_home_offer(slot, offer, &mut text);
        put_line(&mut lines, &text)?;
    }
    Ok(lines)
}

/// What the home device answers to the read of a block of a mount.
fn read(
    alloc: Global,
    mount: &Mount,
    home: &mut dyn HomeDevice,
    block: Block,
) -> Result<Answer, Fail>
    ensures answered { IfOk result (λ answer. is_answer answer ≡ true) }
    ensures size { IfOk result (λ answer. has_size answer (Some mount.now) ≡ true) }
{
    let mut bytes = vec![in alloc; 0u8; mount.form().block_bytes()]?;
    if home.read(block, bytes.as_mut_slice()).is_err() {
        return Ok(Answer::Failed);
    }
    match Content::of_vec(alloc, bytes)? {
        Some(content) => Ok(Answer::Content(content)),
        None => Err(Fail::from("the length of a block")),
    }
}

/// A request to the life of the mount, answered by the home device where it asks it.
fn call(
    alloc: Global,
    mount: &mut Mount,
    home: &mut dyn HomeDevice,
    life: Life,
    request: Request,
) -> Result<Reply, Fail> {
    if life != mount.life() {
        return Err(Fail::from("a call of another life"));
    }
    let needed = mount.needs(&request);
    match mount.try_serve(&request) {
        Ok(reply) if needed.is_none() => Ok(reply),
        Err(block) if needed == Some(block) => {
            let answer = read(alloc, mount, home, block)?;
            Ok(mount.call(request, answer))
        }
        _ => Err(Fail::from("a block that the device is asked for, or not")),
    }
}

/// Posts the job that is owed, which must have this name.
fn post(mount: &mut Mount, name: JobName) -> Result<Reply, Fail> {
    let owed = mount.owed(name.kind).ok_or("no job is owed")?;
    if owed != name {
        return Err(Fail::from("another job is owed"));
    }
    mount.posted(owed);
    Ok(Reply::Okay)
}

/// Whether a job of the mount's slot is outstanding and not begun.
fn is_waiting(mount: &Mount, name: &JobName) -> bool
    ensures { result ≡ true → is_waiting name.now mount.now ≡ true }
{
    matches!(mount.stage(name), Some(Stage::Waiting))
}

/// Whether a checkpoint of the mount's slot is begun.
fn is_begun(mount: &Mount, name: &JobName) -> bool
    ensures { result ≡ true → is_begun name.now mount.now ≡ true }
{
    matches!(mount.stage(name), Some(Stage::Begun))
}

/// Begins a checkpoint that was posted.
fn begin(mount: &mut Mount, name: JobName) -> Result<Reply, Fail> {
    if name.kind.is_ckpt() && is_waiting(mount, &name) {
        Ok(mount.begin(name))
    } else {
        Err(Fail::from("no such checkpoint waits"))
    }
}

/// Ends a checkpoint by what the log device answers.
fn end(mount: &mut Mount, log: &mut dyn LogDevice, name: JobName) -> Result<Reply, Fail> {
    if !is_begun(mount, &name) {
        return Err(Fail::from("no such checkpoint is begun"));
    }
    let answers = offer(log, mount.pieces());
    Ok(mount.end(name, answers))
}

/// The write at a place of a plan: its block with the committed content. Behind its end it is the last write again.
fn write_at<'a>(mount: &'a Mount, blocks: &[Block], place: usize) -> (Block, &'a [u8])
    requires some { 0 < length blocks.now }
    requires committed { All (λ b. is_in b mount.now.frames.committed ≡ true) blocks.now }
    requires unchanged { All (λ b. IsUnchanged b mount.now.transactions) blocks.now }
    ensures { is_size (Some (length result.1.now)) ≡ true }
{
    let block = blocks[place.min(blocks.len() - 1)];
    match mount.committed(block) {
        Some(content) => (block, content),
        None => unreachable!(),
    }
}

/// What the home device answers to the writes of these blocks, at most 8, each with its committed content.
fn written_blocks(mount: &Mount, home: &mut dyn HomeDevice, blocks: &[Block]) -> HomeAnswers
    requires few { length blocks.now ≤ 8 }
    requires committed { All (λ b. is_in b mount.now.frames.committed ≡ true) blocks.now }
    requires unchanged { All (λ b. IsUnchanged b mount.now.transactions) blocks.now }
    ensures { result.count ≡ length blocks.now }
{
    if blocks.is_empty() {
        return offer_home(home, &[]);
    }
    let writes = [
        write_at(mount, blocks, 0),
        write_at(mount, blocks, 1),
        write_at(mount, blocks, 2),
        write_at(mount, blocks, 3),
        write_at(mount, blocks, 4),
        write_at(mount, blocks, 5),
        write_at(mount, blocks, 6),
        write_at(mount, blocks, 7),
    ];
    offer_home(home, &writes[..blocks.len()])
}

/// What the home device answers to the writes of a flush.
fn written(mount: &Mount, home: &mut dyn HomeDevice) -> HomeAnswers
    ensures { fits_plan result (flush_plan mount.now) ≡ true }
{
    let Ok(plan) = mount.flush_plan() else {
        unreachable!();
    };
    written_blocks(mount, home, plan.blocks())
}

/// Ends a flush by what the home device answers.
fn flush(mount: &mut Mount, home: &mut dyn HomeDevice, name: JobName) -> Result<Reply, Fail> {
    if name.kind.is_ckpt() || !is_waiting(mount, &name) {
        return Err(Fail::from("no such flush waits"));
    }
    let answers = written(mount, home);
    Ok(mount.flush(name, answers))
}

/// Takes a step. What the step says that a device answered is left out: the devices are asked.
fn take(
    alloc: Global,
    mount: &mut Mount,
    log: &mut dyn LogDevice,
    home: &mut dyn HomeDevice,
    step: Step,
) -> Result<Reply, Fail> {
    match step {
        Step::Call { life, request, .. } => call(alloc, mount, home, life, request),
        Step::Post(name) => post(mount, name),
        Step::Take { .. } => Ok(Reply::Okay),
        Step::Begin { name, .. } => begin(mount, name),
        Step::End { name, .. } => end(mount, log, name),
        Step::Flush { name, .. } => flush(mount, home, name),
        Step::Mount { .. } | Step::Show(_) | Step::Peek(_) => Err(Fail::from("no step of a mount")),
    }
}

/// The frames of a slot, without contents.
fn share_of(alloc: Global, slot: Slot) -> Result<FrameShare, AllocError>
    ensures { IfOk result (λ share. share ≡ no_contents slot) }
{
    let mut table = FrameTable::new(alloc, SLOTS as u8)?;
    match table.take_share(slot) {
        Some(share) => Ok(share),
        None => unreachable!(),
    }
}

/// The first mount of a slot, by the first step of a script.
fn mounted(alloc: Global, step: Option<&Step>) -> Result<Mount, Fail> {
    match step {
        Some(
            Step::Mount {
                slot,
                log_bytes,
                blocks,
                size,
            },
        ) => {
            let share = share_of(alloc, *slot)?;
            let mount = Mount::new(alloc, share, Life(0), *log_bytes, *blocks, *size);
            Ok(mount.map_err(|(errno, _share)| errno)?)
        }
        _ => Err(Fail::from("no mount at first")),
    }
}

/// Drives one mount by the lines of a script over devices, and gives the lines of its replies.
pub fn drive(
    alloc: Global,
    script: &str,
    log: &mut dyn LogDevice,
    home: &mut dyn HomeDevice,
) -> Result<Vec<u8>, Fail> {
    let (_, replies) = driven(alloc, script, log, home)?;
    Ok(replies)
}

/// The same, with the mount as it is then in front.
pub fn driven(
    alloc: Global,
    script: &str,
    log: &mut dyn LogDevice,
    home: &mut dyn HomeDevice,
) -> Result<(Mount, Vec<u8>), Fail> {
    let steps = steps_of(alloc, script)?;
    let mut mount = mounted(alloc, steps.first())?;
    let mut text = Text::new(alloc)?;
    let mut replies = Vec::new(alloc);
    for (i, step) in steps.into_iter().enumerate() {
        let slot = step.slot();
        let reply = if i == 0 {
            Reply::Life(mount.life())
        } else {
            take(alloc, &mut mount, log, home, step)?
        };
        text.clear();
        print_slot_reply(slot, &reply, &mut text);
        put_line(&mut replies, &text)?;
    }
    Ok((mount, replies))
}
