//! Vetting of a job, before anything is made over its bytes.
ghost use Rattle.std.specs.Prelude.{◌≡◌, ◌≤◌, length, None};
ghost use Rattle.picture.specs.Faults.{Answers};
ghost use Rattle.job.specs.Vetting.{extent_fault, head_fault, proposals_fault, job_fault, InExtent, ProposalsAre};
ghost use Rattle.job.specs.Layouts.{stated};
ghost use Rattle.job.specs.Headers.{HeadedBy, Told};

use crate::headers::{Head, Header};
use crate::reading::read_head;
use picture::{Fault, Layer, ListSize, Row, vet_bytes, vet_count, vet_list, vet_picture, vet_size};

/// The most bytes that a job may have.
pub const LONGEST: usize = 65_536;

/// The bytes of a job's head.
const HEAD: usize = 20;

/// Vets that a job has a head and is not too long; the value of one too long is 65,537 however long it is.
fn vet_extent(found: usize) -> Result<(), Fault>
    ensures { Answers result (extent_fault found) (λ _. InExtent found) }
{
    Fault::unless(
        found <= LONGEST,
        Row::ByteLength,
        Layer::JobFile,
        LONGEST as i64 + 1,
    )?;
    Fault::unless(found >= HEAD, Row::ByteLength, Layer::JobFile, found as i64)
}

/// Vets the number of proposals.
// As a list's pictures are counted: the bounds, the row and the layer are all that either says.
fn vet_proposals(proposals: i64) -> Result<usize, Fault>
    ensures { Answers result (proposals_fault proposals) (ProposalsAre proposals) }
{
    let few = (0..=64).contains(&proposals);
    Fault::unless(few, Row::ArrayLength, Layer::JobFile, proposals)?;
    Ok(proposals as usize)
}

/// Vets the size of the pictures, their number and that of the proposals.
fn vet_head(head: Head) -> Result<Header, Fault>
    ensures { Answers result (head_fault head.width head.height head.pictures head.proposals) (HeadedBy head) }
{
    let picture = vet_size(Layer::CurrentPicture, head.width, head.height)?;
    let pictures = vet_count(head.pictures)?;
    let proposals = vet_proposals(head.proposals)?;
    Ok(Header {
        list: ListSize { picture, pictures },
        proposals,
        request: head.request,
        qp: head.qp,
        range: head.range,
    })
}

/// Vets the current picture and the list, each over its own bytes of a job of the stated length; nothing is left to refuse.
fn vet_pictures(header: &Header, bytes: &[u8]) -> Result<(), Fault>
    requires { length bytes.now ≡ stated header.now }
    ensures { Answers result None (λ _. Unit {0}) }
{
    let width = header.list.picture.width as i64;
    let height = header.list.picture.height as i64;
    let from = header.pixels_from();
    let split = from + header.list.picture.area();
    vet_picture(width, height, &bytes[from..split])?;
    vet_list(header.list.pictures as i64, width, height, &bytes[split..])?;
    Ok(())
}

/// Vets a job: its extent, the numbers of its head, its length, then its pictures.
pub fn vet_job(bytes: &[u8]) -> Result<Header, Fault>
    ensures { Answers result (job_fault bytes.now) (Told bytes.now) }
{
    vet_extent(bytes.len())?;
    let header = vet_head(read_head(bytes))?;
    vet_bytes(Layer::JobFile, header.stated_length(), bytes)?;
    vet_pictures(&header, bytes)?;
    Ok(header)
}
