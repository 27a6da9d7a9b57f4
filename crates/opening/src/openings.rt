//! Opening a job.
ghost use Rattle.std.specs.Prelude.{◌≡◌, MatchResult};
ghost use Rattle.picture.specs.Faults.{Answers};
ghost use Rattle.opening.specs.Openings.{opening_fault, OpenedBy, Refused};

use job::Job;
use picture::Fault;
use settings::Setup;

/// The block and the settings that a job asks for.
pub fn set_up(job: &Job<'_>) -> Result<Setup, Fault>
    ensures { Answers result (opening_fault job.now) (OpenedBy job.now) }
{
    let header = job.header;
    let predicted = job.predicted();
    Setup::new(
        &job.current(),
        header.list,
        header.request,
        header.qp,
        header.range,
        predicted.xs,
        predicted.ys,
    )
}

/// The job of bytes, with its block and its settings.
pub fn open(bytes: &[u8]) -> Result<(Job<'_>, Setup), Fault>
    ensures { MatchResult result (λ opened. (opened.0.bytes.now ≡ bytes.now) × OpenedBy opened.0 opened.1) (Refused bytes.now) }
{
    let job = Job::try_from(bytes)?;
    let setup = set_up(&job)?;
    Ok((job, setup))
}
