//! Both recipes over a job.
ghost use Rattle.std.specs.Prelude.{◌≡◌, Ok, MatchResult};
ghost use Rattle.job.specs.Format.{proposed_x, proposed_y};
ghost use Rattle.job.specs.declared.jobs.Job.{Job};
ghost use Rattle.seek.specs.Recipes.{Fast, Full, IsOpening, Refused};

use job::Job;
use measure::{Sad, Satd};
use picture::Fault;
use reference::ComputedList;
use search::{Opening, Pairs, Report, exhaustive, fast};

/// What a search of a job is opened with.
fn opening<'a>(job: &'a Job<'a>) -> Opening<'a, ComputedList<'a>, Sad>
    ensures { IsOpening job.now result }
{
    let predicted = job.predicted();
    Opening {
        current: job.current(),
        request: job.header.request,
        list: ComputedList::new(job.reference()),
        measure: Sad,
        qp: job.header.qp,
        range: job.header.range,
        xs: predicted.xs,
        ys: predicted.ys,
    }
}

/// The vectors that a job proposes.
fn proposals<'a>(job: &'a Job<'_>) -> Pairs<'a>
    ensures { (result.xs.now ≡ proposed_x job.now.bytes.now) × (result.ys.now ≡ proposed_y job.now.bytes.now) }
{
    let proposals = job.proposals();
    Pairs {
        xs: proposals.xs,
        ys: proposals.ys,
    }
}

/// The reports of the exhaustive and of the fast recipe over the job of bytes, or the first refusal.
pub(crate) fn seek(bytes: &[u8]) -> Result<(Report, Report), Fault>
    ensures { MatchResult result (λ r. (j : Job) × (j.bytes.now ≡ bytes.now) × Full j (Ok r.0) × Fast j (Ok r.1)) (λ f. Refused bytes.now f) }
{
    let job = Job::try_from(bytes)?;
    let full = exhaustive(opening(&job), Satd)?;
    let fast = fast(opening(&job), Satd, proposals(&job))?;
    Ok((full, fast))
}
