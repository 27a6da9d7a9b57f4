//! Reading a job's bytes.
ghost use Rattle.std.specs.Prelude.{◌≡◌, IfSome, OnOk, IfOk, take};

use job::LONGEST;
use std::alloc::Global;
use std::io;
use std::io::Read;

/// One byte more than a job may have: enough to see that one is too long.
const ENOUGH: u64 = LONGEST as u64 + 1;

/// The job's bytes, and no more of a longer input than shows that it is too long.
pub fn read_job<R: Read + Drop>(input: R, heap: Global) -> io::Result<Vec<u8>>
    ensures { IfOk result (λ bytes. IfSome (R.remaining input) (λ all. bytes.items ≡ take 65537 all)) }
{
    let mut bytes = Vec::new(heap);
    input.take(ENOUGH).read_to_end(&mut bytes)?;
    Ok(bytes)
}
