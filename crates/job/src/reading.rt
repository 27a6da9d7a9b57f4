//! Signed 16-bit numbers, low byte first.
ghost use Rattle.std.specs.Prelude.{◌≡◌, ℕ, ◌+◌, ◌*◌, ◌<◌, ◌≤◌, length, pos, slice_index_or};
ghost use Rattle.job.specs.Format.{word};
ghost use Rattle.job.specs.Heads.{IsHead};

use crate::headers::Head;
use block::BlockRequest;

/// Number `k` of the job.
pub(crate) fn word_at(bytes: &[u8], k: usize) -> i16
    requires { 2 * k + 1 < length bytes.now }
    ensures { result ≡ word bytes.now k }
{
    i16::from_le_bytes([bytes[2 * k], bytes[2 * k + 1]])
}

/// The same, as the calls that refuse numbers take it.
fn number_at(bytes: &[u8], k: usize) -> i64
    requires { 2 * k + 1 < length bytes.now }
    ensures { result ≡ word bytes.now k }
{
    i64::from(word_at(bytes, k))
}

/// The ten numbers at the head.
pub(crate) fn read_head(bytes: &[u8]) -> Head
    requires { 20 ≤ length bytes.now }
    ensures { IsHead bytes.now result }
{
    Head {
        width: number_at(bytes, 0),
        height: number_at(bytes, 1),
        pictures: number_at(bytes, 2),
        proposals: number_at(bytes, 3),
        request: BlockRequest {
            left: number_at(bytes, 4),
            top: number_at(bytes, 5),
            width: number_at(bytes, 6),
            height: number_at(bytes, 7),
        },
        qp: number_at(bytes, 8),
        range: number_at(bytes, 9),
    }
}

/// `count` numbers from number `from` on, at most 80.
pub(crate) fn read_words(bytes: &[u8], from: usize, count: usize) -> [i16; 80]
    requires { (count ≤ 80) × (2 * (from + count) ≤ length bytes.now) }
    ensures { (k : ℕ) → k < count → slice_index_or result k (pos 0) ≡ word bytes.now (from + k) }
{
    let mut words = [0; 80];
    for (k, word) in words[..count].iter_mut().enumerate() {
        *word = word_at(bytes, from + k);
    }
    words
}
