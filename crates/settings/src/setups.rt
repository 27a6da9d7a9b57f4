//! What is vetted and copied before vectors are priced.
use crate::predicted::Predicted;
use crate::ranges::SearchRange;
use block::Block;
use rate::Qp;

/// The block, the settings and the predicted vectors; nothing of it is borrowed.
#[derive(Clone, Copy)]
pub struct Setup {
    pub block: Block,
    pub qp: Qp,
    pub range: SearchRange,
    pub predicted: Predicted,
}
