//! The numbers at the head of a job.
ghost use Rattle.std.specs.Prelude.{◌≤◌};

use block::BlockRequest;
use picture::ListSize;

/// The ten numbers as they stand.
#[derive(Clone, Copy)]
pub(crate) struct Head {
    pub width: i64,
    pub height: i64,
    pub pictures: i64,
    pub proposals: i64,
    pub request: BlockRequest,
    pub qp: i64,
    pub range: i64,
}

/// The head of a job that is accepted: sizes and counts are vetted, the numbers of the block and the settings are not.
#[derive(Clone, Copy)]
pub struct Header {
    pub list: ListSize,
    pub proposals: usize,
    pub request: BlockRequest,
    pub qp: i64,
    pub range: i64,
    ghost few: { proposals ≤ 64 },
}
