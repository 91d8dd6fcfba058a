//! The words of the host: names, chunk sets, contents, requests, replies, steps and offers,
//! with the definitions of one mount in `specs/`.
#![tactic(auto)]

pub mod chunks;
pub mod content;
pub mod data_ref;
pub mod equality;
pub mod form;
pub mod kinds;
pub mod laws;
pub mod map;
pub mod marks;
pub mod names;
pub mod newly;
pub mod outcomes;
pub mod sizes;
pub mod stat;
pub mod steps;

pub use chunks::Chunks;
pub use content::{Content, Data, HeldBlocks, HeldRoom, Kept};
pub use data_ref::DataRef;
pub use form::Form;
pub use map::NumberMap;
pub use marks::ItemMarks;
pub use names::{Block, Caller, CkptNo, JobKind, JobName, Life, Slot, TransNo, Worker};
pub use newly::Newly;
pub use outcomes::{Disorder, Offers, Outcomes, RunFault, Turn};
pub use stat::Stat;
pub use steps::{
    Answer, Errno, HomeAnswers, HomeOffer, LogAnswers, LogOffer, Owner, Reason, Reply, Request,
    Step,
};
