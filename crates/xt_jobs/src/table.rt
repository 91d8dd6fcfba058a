//! The jobs of one life of a slot.

ghost use Rattle.std.specs.Prelude.{◌≡◌, ◌+◌, Some, None, false, true};
ghost use Rattle.xt_base.specs.Jobs.{is_serial, with_job};
ghost use Rattle.xt_base.specs.Owed.{job};
ghost use Rattle.xt_jobs.specs.Tables.{is_asked, is_free, is_outstanding, new_table, next_name, with_asked};

use std::marker::Model;
use xt_base::names::{JobKind, JobName, Life, Slot};

/// The jobs of one life of a slot: a mark for each kind that is asked, the outstanding job of each kind by its
/// serial, and the last serial given. Serials count from 1 over both kinds.
#[derive(Debug, Drop)]
pub struct JobTable {
    slot: Slot,
    life: Life,
    asked_ckpt: bool,
    asked_flush: bool,
    ckpt: Option<u64>,
    flush: Option<u64>,
    last_serial: u64,
}

impl Model for JobTable {
    ghost use Rattle.xt_jobs.specs.Tables.{Table};

    ghost Value = { Table };

    ghost view = { λ j. record { slot = j.slot; life = j.life; jobs = record { asked_ckpt = j.asked_ckpt; asked_flush = j.asked_flush; ckpt = j.ckpt; flush = j.flush; last_serial = j.last_serial } } };
}

impl JobTable {
    /// Nothing asked, nothing outstanding, no serial given.
    pub fn new(slot: Slot, life: Life) -> Self
        ensures { result ≡ new_table slot life }
    {
        JobTable {
            slot,
            life,
            asked_ckpt: false,
            asked_flush: false,
            ckpt: None,
            flush: None,
            last_serial: 0,
        }
    }

    /// The same jobs in a table of their own.
    pub fn copy(&self) -> Self
        ensures { result ≡ self.now }
    {
        JobTable {
            slot: self.slot,
            life: self.life,
            asked_ckpt: self.asked_ckpt,
            asked_flush: self.asked_flush,
            ckpt: self.ckpt,
            flush: self.flush,
            last_serial: self.last_serial,
        }
    }

    /// The slot.
    pub fn slot(&self) -> Slot
        ensures { result ≡ self.now.slot }
    {
        self.slot
    }

    /// The life.
    pub fn life(&self) -> Life
        ensures { result ≡ self.now.life }
    {
        self.life
    }

    /// A job of a kind is asked.
    pub fn ask(&mut self, kind: JobKind)
        ensures { self.new ≡ record self.old { jobs = with_asked kind true self.old.jobs } }
    {
        match kind {
            JobKind::Ckpt => self.asked_ckpt = true,
            JobKind::Flush => self.asked_flush = true,
        }
    }

    /// Whether a job of a kind is asked.
    pub fn asked(&self, kind: JobKind) -> bool
        ensures { result ≡ is_asked kind self.now.jobs }
    {
        match kind {
            JobKind::Ckpt => self.asked_ckpt,
            JobKind::Flush => self.asked_flush,
        }
    }

    /// The asking for a kind is met, or given up.
    pub fn clear(&mut self, kind: JobKind)
        ensures { self.new ≡ record self.old { jobs = with_asked kind false self.old.jobs } }
    {
        match kind {
            JobKind::Ckpt => self.asked_ckpt = false,
            JobKind::Flush => self.asked_flush = false,
        }
    }

    /// The serial of the outstanding job of a kind.
    pub fn outstanding(&self, kind: JobKind) -> Option<u64>
        ensures { result ≡ job kind self.now.jobs }
    {
        match kind {
            JobKind::Ckpt => self.ckpt,
            JobKind::Flush => self.flush,
        }
    }

    /// The name of the next job of a kind; none where one of that kind is outstanding, or the last serial is the greatest.
    pub fn next(&self, kind: JobKind) -> Option<JobName>
        ensures { result ≡ next_name kind self.now }
    {
        if self.outstanding(kind).is_some() || self.last_serial == u64::MAX {
            return None;
        }
        Some(JobName {
            slot: self.slot,
            life: self.life,
            kind,
            serial: self.last_serial + 1,
        })
    }

    /// The next job was posted: it is outstanding until it is finished.
    pub fn posted(&mut self, name: JobName)
        requires { next_name name.kind self.old ≡ Some name }
        ensures { self.new ≡ record self.old { jobs = with_job name.kind (Some (self.old.jobs.last_serial + 1)) (record self.old.jobs { last_serial = self.old.jobs.last_serial + 1 }) } }
    {
        self.last_serial = name.serial;
        match name.kind {
            JobKind::Ckpt => self.ckpt = Some(name.serial),
            JobKind::Flush => self.flush = Some(name.serial),
        }
    }

    /// Whether a name is that of an outstanding job of this life.
    pub fn is_outstanding(&self, name: &JobName) -> bool
        ensures { result ≡ is_outstanding name.now self.now }
    {
        name.life == self.life && is_serial(name.serial, self.outstanding(name.kind))
    }

    /// No job of the kind is outstanding.
    pub fn finish(&mut self, kind: JobKind)
        ensures { self.new ≡ record self.old { jobs = with_job kind None self.old.jobs } }
    {
        match kind {
            JobKind::Ckpt => self.ckpt = None,
            JobKind::Flush => self.flush = None,
        }
    }
}

/// Whether a job has this serial.
fn is_serial(serial: u64, job: Option<u64>) -> bool
    ensures { result ≡ is_serial serial job }
{
    match job {
        Some(given) => given == serial,
        None => false,
    }
}
