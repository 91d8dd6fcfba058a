//! The calls of a home device.

use xt_base::content::Content;
use xt_base::names::Block;
use xt_base::steps::HomeOffer;

/// A call of a home device with its answer. All but the reads are offers.
#[derive(Debug, Drop)]
pub enum HomeCall {
    /// The content that was read; None where the read failed.
    Read {
        block: Block,
        content: Option<Content>,
    },
    Offer(HomeOffer),
}
