//! One slot of the host: the last life given, and the mount if there is one.

ghost use Rattle.std.specs.Prelude.{◌≡◌, ◌≤◌, ◌+◌, ◌⊎◌, ◌&&◌, All, IfErr, IfOk, IfSome, IsOk, Ok, Some, if◌then◌else◌, is_some, length, option_copied, true, false, None, [], ℕ};
ghost use Rattle.xt_base.specs.Alone.{has_begun, is_okay, reason_of};
ghost use Rattle.xt_base.specs.Calls.{first_of, is_unmount};
ghost use Rattle.xt_base.specs.Form.{form_of, is_size};
ghost use Rattle.xt_base.specs.Jobs.{fits_pieces, fits_plan, is_begun, is_ckpt, is_owed_as, is_waiting};
ghost use Rattle.xt_base.specs.Maps.{at, is_in};
ghost use Rattle.xt_base.specs.Order.{has_size, is_there, mount_is, of_life};
ghost use Rattle.xt_base.specs.State.{mount_of};
ghost use Rattle.xt_base.specs.declared.steps.Answer.TheVariants as Answered;
ghost use Rattle.xt_base.specs.declared.steps.Errno.TheVariants.{NoMemory};
ghost use Rattle.xt_base.specs.declared.steps.Reply.{Reply as AReply};
ghost use Rattle.xt_base.specs.declared.steps.Step.{Step as AStep};
ghost use Rattle.xt_frames.specs.Shares.{no_contents};
ghost use Rattle.xt_mount.specs.Come.{new_refusals, read_block};
ghost use Rattle.xt_mount.specs.Slots.{contents_in, form_in, life_in, owed_in, pieces_in, plan_in, spent_in, stage_in, share_left, unused, IsAnsweredUnlessMemory, IsServed, IsServedUnlessMemory, IsUnchangedIn};

use crate::mount::{Mount, Stage};
use crate::state::SlotState;
use bytes::Bytes;
use std::alloc::Global;
use std::marker::Model;
use xt_base::form::Form;
use xt_base::names::{Block, JobKind, JobName, Life, Slot};
use xt_base::sizes::{PIECE_BYTES, TEXT_PIECES};
use xt_base::steps::{Answer, Errno, HomeAnswers, LogAnswers, Reason, Reply, Request};
use xt_frames::share::FrameShare;
use xt_items::plan::FlushPlan;

/// One slot of the host. Clauses see its number, the last life given, and the state of the mount, if there is one, which is
/// always of this slot and of that life.
#[derive(Debug, Drop)]
pub struct MountSlot {
    alloc: Global,
    slot: Slot,
    /// 0 where none was given.
    last_life: Life,
    mount: Option<Mount>,
    /// The frames of the slot, while no mount has them.
    share: Option<FrameShare>,
}

impl Model for MountSlot {
    ghost use Rattle.xt_base.specs.Own.{IsOwnIn};
    ghost use Rattle.xt_mount.specs.Slots.{SlotState};

    ghost Value = { SlotState };

    ghost view = { λ s. record { slot = s.slot; last_life = s.last_life; mounted = s.mount } };

    ghost use Rattle.std.specs.Prelude.{◌≡◌};
    ghost use Rattle.xt_mount.specs.Slots.{spare_share};

    ghost invariant = { λ s. IsOwnIn s.slot s.last_life s.mount × (s.share ≡ spare_share s.slot s.mount) };
}

impl MountSlot {
    /// The slot of a share, which has no contents; it was never mounted. Its mounts keep their contents in the share's frames.
    pub fn new(alloc: Global, share: FrameShare) -> Self
        requires { share ≡ no_contents share.slot }
        ensures { result ≡ unused share.slot }
    {
        MountSlot {
            alloc,
            slot: share.slot(),
            last_life: Life(0),
            mount: None,
            share: Some(share),
        }
    }

    // ---- what it is
    /// Its number.
    pub fn slot(&self) -> Slot
        ensures { result ≡ self.now.slot }
    {
        self.slot
    }

    /// The last life given, 0 where none was.
    pub fn last_life(&self) -> Life
        ensures { result ≡ self.now.last_life }
    {
        self.last_life
    }

    /// The slot as a plain value, in a copy that stands still where the slot goes on. The one error is `NoMemory`, where memory is
    /// refused; an empty slot takes none.
    pub fn snapshot(&self) -> Result<SlotState, Errno>
        ensures value { IfOk result (λ state. state ≡ self.now) }
        ensures memory { IfErr result (λ errno. errno ≡ NoMemory) }
        ensures empty { self.now.mounted ≡ None → IsOk result }
    {
        let mount = match &self.mount {
            Some(mount) => Some(mount.snapshot()?),
            None => None,
        };
        Ok(SlotState {
            slot: self.slot,
            last_life: self.last_life,
            mount,
        })
    }

    /// The life of the mount; None where the slot is empty.
    pub fn life(&self) -> Option<Life>
        ensures value { result ≡ life_in self.now.mounted }
        ensures last { IfSome result (λ life. life ≡ self.now.last_life) }
    {
        match &self.mount {
            Some(mount) => Some(mount.life()),
            None => None,
        }
    }

    /// Why the mount is shut; None where it is live, or the slot is empty.
    pub fn shut(&self) -> Option<Reason>
        ensures { result ≡ reason_of self.now.mounted }
    {
        match &self.mount {
            Some(mount) => mount.shut(),
            None => None,
        }
    }

    /// The block that a request to this life must ask the home device for, if there is one: a read's, where nothing refuses
    /// it and the block is neither the transaction's own nor resident.
    pub fn needs(&self, life: Life, request: &Request) -> Option<Block>
        ensures asked { is_some result ≡ mount_is (of_life life request.now) self.now.mounted }
        ensures block { IfSome result (λ block. read_block request.now ≡ Some block) }
    {
        match &self.mount {
            Some(mount) if mount.life() == life => mount.needs(request),
            _ => None,
        }
    }

    /// The next job of a kind, if a live mount owes one.
    pub fn owed(&self, kind: JobKind) -> Option<JobName>
        ensures value { result ≡ owed_in kind self.now.mounted }
        ensures slot { IfSome result (λ name. name.slot ≡ self.now.slot) }
        ensures due { IfSome result (λ name. mount_is (is_owed_as name) self.now.mounted ≡ true) }
    {
        match &self.mount {
            Some(mount) => mount.owed(kind),
            None => None,
        }
    }

    /// How many bytes the log has, where the texts on it are of no use any more; None where they may be needed, or the slot is empty.
    pub fn spent_log(&self) -> Option<u32>
        ensures { result ≡ spent_in self.now.mounted }
    {
        match &self.mount {
            Some(mount) => mount.spent_log(),
            None => None,
        }
    }

    /// How far a job has come; None where it is not outstanding here.
    pub fn stage(&self, name: &JobName) -> Option<Stage>
        ensures { result ≡ stage_in name.now self.now }
    {
        match &self.mount {
            Some(mount) => mount.stage(name),
            None => None,
        }
    }

    /// The form of its mount; in an empty slot that of a mount with no size said.
    pub fn form(&self) -> Form
        ensures { result ≡ form_in self.now.mounted }
    {
        match &self.mount {
            Some(mount) => mount.form(),
            None => Form::one(),
        }
    }

    /// The pieces of the checkpoint in flight, at most 65 of 1 to 4,096 bytes each; none where nothing is in flight.
    pub fn pieces(&self) -> &[Bytes]
        ensures value { result.now ≡ pieces_in self.now.mounted }
        ensures few { length result.now ≤ TEXT_PIECES }
        ensures some { All (λ piece. 1 ≤ length piece) result.now }
        ensures short { All (λ piece. length piece ≤ PIECE_BYTES) result.now }
    {
        match &self.mount {
            Some(mount) => mount.pieces(),
            None => &[],
        }
    }

    /// The blocks that a flush writes home now, 0 to 8, in the order of their writes; none in an empty slot. Each has a committed
    /// content, and no open transaction has changed it. It takes no memory.
    pub fn flush_plan(&self) -> FlushPlan
        ensures plan { result ≡ plan_in self.now.mounted }
        ensures committed { All (λ b. is_in b (contents_in self.now.mounted) ≡ true) result }
        ensures unchanged { All (λ b. IsUnchangedIn b self.now.mounted) result }
    {
        match &self.mount {
            Some(mount) => match mount.flush_plan() {
                Ok(plan) => plan,
                Err(_) => unreachable!(),
            },
            None => FlushPlan::none(),
        }
    }

    /// The committed content of a block that no open transaction has changed, of the mount's size: what a flush writes home. None where the mount
    /// keeps none.
    pub fn committed(&self, block: Block) -> Option<&[u8]>
        requires { IsUnchangedIn block self.now.mounted }
        ensures value { option_copied result ≡ at block (contents_in self.now.mounted) }
        ensures size { IfSome result (λ bytes. length bytes.now ≡ (form_in self.now.mounted).size) }
        ensures one_of { IfSome result (λ bytes. is_size (Some (length bytes.now)) ≡ true) }
    {
        match &self.mount {
            Some(mount) => mount.committed(block),
            None => None,
        }
    }

    // ---- steps
    /// Makes an empty mount of the next life, with a log of so many bytes and a home device of so many blocks, of a size where one is
    /// said; what refuses it is `Mount::new`'s, and `Busy` where the slot is in use.
    pub fn mount(&mut self, log_bytes: u32, blocks: u64, size: Option<u32>) -> Reply
        ensures { IsServedUnlessMemory (AStep.Mount self.old.slot log_bytes blocks size) result self.new self.old }
    {
        if self.mount.is_some() {
            return Reply::Refused(Errno::Busy);
        }
        match mounted(
            self.alloc,
            &mut self.share,
            &mut self.mount,
            self.last_life,
            log_bytes,
            blocks,
            size,
        ) {
            Ok(life) => {
                self.last_life = life;
                Reply::Life(life)
            }
            Err(errno) => Reply::Refused(errno),
        }
    }

    /// Serves a request to one life of the slot, with the home device's answer where it asks one, a content of the mount's size:
    /// `NoDevice` where the slot is empty, `Stale` where it has another life, else the mount's own reply. An unmount that is not
    /// refused empties the slot.
    pub fn call(&mut self, life: Life, request: &Request, answer: &Answer) -> Reply
        requires answered { is_there (mount_is (of_life life request.now) self.old.mounted) answer.now ≡ true }
        requires size { has_size answer.now self.old.mounted ≡ true }
        ensures { IsServedUnlessMemory (AStep.Call self.old.slot life request.now answer.now) result self.new self.old }
    {
        let reply = answered(&mut self.mount, life, request, answer);
        let is_gone = is_unmounted(request, &reply);
        empty_if(&mut self.mount, &mut self.share, is_gone);
        reply
    }

    /// Serves a request that asks no home device, as `call` does with no answer. One that must ask it changes nothing: the block that it
    /// asks for, and then it is to be called with the device's answer. What `needs` says is told on the way.
    pub fn try_call(&mut self, life: Life, request: &Request) -> Result<Reply, Block>
        ensures unasked { IfOk result (λ _. mount_is (of_life life request.now) self.old.mounted ≡ false) }
        ensures asked { IfErr result (λ _. mount_is (of_life life request.now) self.old.mounted ≡ true) }
        ensures block { IfErr result (λ block. read_block request.now ≡ Some block) }
        ensures served { IfOk result (λ reply. IsServedUnlessMemory (AStep.Call self.old.slot life request.now Answered.None) reply self.new self.old) }
        ensures kept { IfErr result (λ _. self.new ≡ self.old) }
    {
        match tried(&mut self.mount, life, request) {
            Ok(reply) => {
                let is_gone = is_unmounted(request, &reply);
                empty_if(&mut self.mount, &mut self.share, is_gone);
                Ok(reply)
            }
            Err(block) => Err(block),
        }
    }

    /// A job that is owed was posted: it is outstanding until its end, its flush, or a begin that finds nothing to do.
    pub fn posted(&mut self, name: JobName)
        requires owed { mount_is (is_owed_as name) self.old.mounted ≡ true }
        requires slot { name.slot ≡ self.old.slot }
        ensures { IsServed (AStep.Post name) AReply.Okay self.new self.old }
    {
        match &mut self.mount {
            Some(mount) => mount.posted(name),
            None => unreachable!(),
        }
    }

    /// Begins an outstanding checkpoint: the committed items become the flight. On a shut mount there is nothing to do.
    pub fn begin(&mut self, name: JobName) -> Reply
        requires kind { is_ckpt name.kind ≡ true }
        requires waiting { mount_is (is_waiting name) self.old.mounted ≡ true }
        ensures { (worker : ℕ) → IsServedUnlessMemory (AStep.Begin worker name) result self.new self.old }
    {
        match &mut self.mount {
            Some(mount) => mount.begin(name),
            None => unreachable!(),
        }
    }

    /// The same, with the pieces of the checkpoint that is begun: other owners of the same bytes, so that they can be written
    /// where the slot is not at hand. There are none where no checkpoint is begun.
    pub fn begin_shared(&mut self, name: JobName) -> (Reply, Vec<Bytes>)
        requires kind { is_ckpt name.kind ≡ true }
        requires waiting { mount_is (is_waiting name) self.old.mounted ≡ true }
        ensures served { (worker : ℕ) → IsServedUnlessMemory (AStep.Begin worker name) result.0 self.new self.old }
        ensures pieces { has_begun result.0 ≡ true → result.1.items ≡ pieces_in self.new.mounted }
        ensures none { has_begun result.0 ≡ false → result.1.items ≡ [] }
    {
        match &mut self.mount {
            Some(mount) => mount.begin_shared(name),
            None => unreachable!(),
        }
    }

    /// Ends the checkpoint in flight by what the log device answered to its pieces. It takes no memory.
    pub fn end(&mut self, name: JobName, answers: LogAnswers) -> Reply
        requires begun { mount_is (is_begun name) self.old.mounted ≡ true }
        requires fits { fits_pieces answers (length (pieces_in self.old.mounted)) ≡ true }
        ensures { (worker : ℕ) → IsServed (AStep.End worker name answers) result self.new self.old }
    {
        match &mut self.mount {
            Some(mount) => mount.end(name, answers),
            None => unreachable!(),
        }
    }

    /// Ends an outstanding flush by what the home device answered to the writes of its plan. It takes no memory.
    pub fn flush(&mut self, name: JobName, answers: HomeAnswers) -> Reply
        requires kind { is_ckpt name.kind ≡ false }
        requires waiting { mount_is (is_waiting name) self.old.mounted ≡ true }
        requires fits { fits_plan answers (plan_in self.old.mounted) ≡ true }
        ensures { (worker : ℕ) → IsServed (AStep.Flush worker name answers) result self.new self.old }
    {
        match &mut self.mount {
            Some(mount) => mount.flush(name, answers),
            None => unreachable!(),
        }
    }

    /// The same for a caller that has the plan at hand, so that it is not made again.
    pub fn flush_planned(&mut self, name: JobName, plan: &FlushPlan, answers: HomeAnswers) -> Reply
        requires kind { is_ckpt name.kind ≡ false }
        requires waiting { mount_is (is_waiting name) self.old.mounted ≡ true }
        requires planned { plan.now ≡ plan_in self.old.mounted }
        requires fits { fits_plan answers plan.now ≡ true }
        ensures { (worker : ℕ) → IsServed (AStep.Flush worker name answers) result self.new self.old }
    {
        match &mut self.mount {
            Some(mount) => mount.flush_planned(name, plan, answers),
            None => unreachable!(),
        }
    }
}

/// Makes a mount in the frames of an empty slot's share: its life. Where it is refused, the share is there again.
fn mounted(
    alloc: Global,
    share: &mut Option<FrameShare>,
    mount: &mut Option<Mount>,
    last: Life,
    log_bytes: u32,
    blocks: u64,
    size: Option<u32>,
) -> Result<Life, Errno>
    requires there { is_some share.old ≡ true }
    requires empty { IfSome share.old (λ spare. spare ≡ no_contents spare.slot) }
    ensures life { IfOk result (λ life. (first_of (new_refusals last log_bytes blocks size) ≡ None) × (life ≡ last + 1)) }
    ensures made { IfOk result (λ _. IfSome share.old (λ spare. mount.new ≡ Some (mount_of spare.slot (last + 1) log_bytes blocks (form_of size)))) }
    ensures lent { IfOk result (λ _. share.new ≡ None) }
    ensures err { IfErr result (λ errno. (first_of (new_refusals last log_bytes blocks size) ≡ Some errno) ⊎ ((first_of (new_refusals last log_bytes blocks size) ≡ None) × (errno ≡ NoMemory))) }
    ensures kept { IfErr result (λ _. mount.new ≡ mount.old) }
    ensures back { IfErr result (λ _. share.new ≡ share.old) }
{
    let Some(spare) = share.take() else {
        unreachable!()
    };
    match Mount::new(alloc, spare, last, log_bytes, blocks, size) {
        Ok(made) => {
            let life = made.life();
            *mount = Some(made);
            Ok(life)
        }
        Err((errno, spare)) => {
            *share = Some(spare);
            Err(errno)
        }
    }
}

/// Whether a reply is ok.
fn is_okay(reply: &Reply) -> bool
    ensures { result ≡ is_okay reply.now }
{
    matches!(reply, Reply::Okay)
}

/// Whether a request emptied its slot.
fn is_unmounted(request: &Request, reply: &Reply) -> bool
    ensures { result ≡ (is_unmount request.now && is_okay reply.now) }
{
    matches!(request, Request::Unmount) && is_okay(reply)
}

/// What the mount of a life answers to a request, before an unmount empties the slot.
fn answered(mount: &mut Option<Mount>, life: Life, request: &Request, answer: &Answer) -> Reply
    requires answered { is_there (mount_is (of_life life request.now) mount.old) answer.now ≡ true }
    requires size { has_size answer.now mount.old ≡ true }
    ensures { IsAnsweredUnlessMemory life request.now answer.now result mount.new mount.old }
{
    let Some(mounted) = mount else {
        return Reply::Refused(Errno::NoDevice);
    };
    if mounted.life() != life {
        return Reply::Refused(Errno::Stale);
    }
    mounted.serve(request, answer)
}

/// The same with no answer of the home device. Where it must be asked, nothing changes, and the block is told.
fn tried(mount: &mut Option<Mount>, life: Life, request: &Request) -> Result<Reply, Block>
    ensures unasked { IfOk result (λ _. mount_is (of_life life request.now) mount.old ≡ false) }
    ensures asked { IfErr result (λ _. mount_is (of_life life request.now) mount.old ≡ true) }
    ensures block { IfErr result (λ block. read_block request.now ≡ Some block) }
    ensures answered { IfOk result (λ reply. IsAnsweredUnlessMemory life request.now Answered.None reply mount.new mount.old) }
    ensures kept { IfErr result (λ _. mount.new ≡ mount.old) }
{
    let Some(mounted) = mount else {
        return Ok(Reply::Refused(Errno::NoDevice));
    };
    if mounted.life() != life {
        return Ok(Reply::Refused(Errno::Stale));
    }
    mounted.try_serve(request)
}

/// The slot is emptied, if it is so, and has its share again.
fn empty_if(mount: &mut Option<Mount>, share: &mut Option<FrameShare>, is_gone: bool)
    ensures mount { mount.new ≡ (if is_gone then None else mount.old) }
    ensures share { share.new ≡ (if is_gone then share_left mount.old share.old else share.old) }
{
    if is_gone {
        vacate(mount, share);
    }
}

/// The slot is emptied, and has its share again. It stands apart, so that a call that ends no mount lays out nothing of an end.
#[inline(never)]
fn vacate(mount: &mut Option<Mount>, share: &mut Option<FrameShare>)
    ensures mount { mount.new ≡ None }
    ensures share { share.new ≡ share_left mount.old share.old }
{
    if let Some(mounted) = mount.take() {
        *share = Some(mounted.into_share());
    }
}
