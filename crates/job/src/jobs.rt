//! A job over its bytes.
ghost use Rattle.std.specs.Prelude.{◌≡◌, ℕ, ◌+◌, ◌<◌, pos, slice_index_or};
ghost use Rattle.job.specs.Format.{word};
ghost use Rattle.picture.specs.Faults.{Answers};
ghost use Rattle.job.specs.Vetting.{job_fault};
ghost use Rattle.job.specs.Headers.{Counted, Placed, Configured, Told};

use crate::headers::Header;
use crate::reading::read_words;
use crate::vetting::vet_job;
use picture::Fault;

/// An accepted job. It keeps the vectors and lends the pictures, which are not copied.
#[derive(Clone, Copy)]
pub struct Job<'a> {
    pub header: Header,
    pub bytes: &'a [u8],
    // Fixed memory, for the longest job; two arrays, as the format has them and an opening takes them.
    pub(crate) xs: [i16; 80],
    pub(crate) ys: [i16; 80],
    ghost counted: { Counted bytes.now header },
    ghost placed: { Placed bytes.now header },
    ghost configured: { Configured bytes.now header },
    ghost across: { (k : ℕ) → k < header.list.pictures + header.proposals → slice_index_or xs k (pos 0) ≡ word bytes.now (10 + k) },
    ghost down: { (k : ℕ) → k < header.list.pictures + header.proposals → slice_index_or ys k (pos 0) ≡ word bytes.now (10 + (header.list.pictures + header.proposals) + k) },
}

impl<'a> Job<'a> {
    /// The job of vetted bytes.
    pub fn new(header: Header, bytes: &'a [u8]) -> Self
        requires { Told bytes.now header }
        ensures header { result.header ≡ header }
        ensures bytes { result.bytes.now ≡ bytes.now }
    {
        let count = header.list.pictures + header.proposals;
        let xs = read_words(bytes, 10, count);
        let ys = read_words(bytes, 10 + count, count);
        Job {
            header,
            bytes,
            xs,
            ys,
        }
    }
}

/// Vets a job's bytes and reads them.
impl<'a> TryFrom<&'a [u8]> for Job<'a> {
    type Error = Fault;

    ghost try_from_gives = { λ bytes answer. Answers answer (job_fault bytes.now) (λ job. job.bytes.now ≡ bytes.now) };

    fn try_from(bytes: &'a [u8]) -> Result<Job<'a>, Fault> {
        let header = vet_job(bytes)?;
        Ok(Job::new(header, bytes))
    }
}
