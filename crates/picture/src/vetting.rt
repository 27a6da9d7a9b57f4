//! Vetting of pictures and lists, before a plane or a list is made over their bytes.
ghost use Rattle.std.specs.Prelude.{◌≡◌, ◌*◌, length, pos, true};
ghost use Rattle.picture.specs.Faults.{Answers, unless};
ghost use Rattle.picture.specs.Faults.{first};
ghost use Rattle.picture.specs.Sizes.{Size, is_size};
ghost use Rattle.picture.specs.Vetting.{size_fault, side_fault, bytes_fault, count_fault, picture_fault, list_fault, SizeIs, CountIs, PictureIs, ListIs};

use crate::faults::{Fault, Layer, Row};
use crate::sizes::{ListSize, PictureSize};

/// Whether a picture may have this width or height.
fn is_size(n: i64) -> bool
    ensures { result ≡ is_size n }
{
    (16..=1920).contains(&n) && n % 16 == 0
}

/// Vets a width or a height.
fn vet_side(layer: Layer, side: i64) -> Result<usize, Fault>
    ensures { Answers result (side_fault layer side) (λ n. (pos n ≡ side) × Size n) }
{
    Fault::unless(is_size(side), Row::PictureSize, layer, side)?;
    Ok(side as usize)
}

/// Vets a width and a height.
// Two numbers as they stand, here and below: nothing keeps them together before they are vetted.
pub fn vet_size(layer: Layer, width: i64, height: i64) -> Result<PictureSize, Fault>
    ensures { Answers result (size_fault layer width height) (SizeIs width height) }
{
    let width = vet_side(layer, width)?;
    let height = vet_side(layer, height)?;
    Ok(PictureSize { width, height })
}

/// Vets the number of pictures of a list.
pub fn vet_count(pictures: i64) -> Result<usize, Fault>
    ensures { Answers result (count_fault pictures) (CountIs pictures) }
{
    let listed = (1..=16).contains(&pictures);
    Fault::unless(listed, Row::PictureCount, Layer::ReferenceList, pictures)?;
    Ok(pictures as usize)
}

/// Vets the number of bytes against the one stated.
pub fn vet_bytes(layer: Layer, stated: usize, bytes: &[u8]) -> Result<(), Fault>
    ensures { Answers result (bytes_fault layer stated (length bytes.now)) (λ _. length bytes.now ≡ stated) }
{
    let found = bytes.len();
    Fault::unless(found == stated, Row::ByteLength, layer, found as i64)
}

/// Vets a current picture: its size, then the number of its bytes.
pub fn vet_picture(width: i64, height: i64, samples: &[u8]) -> Result<PictureSize, Fault>
    ensures { Answers result (picture_fault width height (length samples.now)) (PictureIs width height (length samples.now)) }
{
    let size = vet_size(Layer::CurrentPicture, width, height)?;
    vet_bytes(Layer::CurrentPicture, size.area(), samples)?;
    Ok(size)
}

/// Vets the pictures of a reference list: their size, how many they are, then the number of their bytes.
pub fn vet_list(pictures: i64, width: i64, height: i64, samples: &[u8]) -> Result<ListSize, Fault>
    ensures { Answers result (list_fault pictures width height (length samples.now)) (ListIs pictures width height (length samples.now)) }
{
    let picture = vet_size(Layer::ReferenceList, width, height)?;
    let pictures = vet_count(pictures)?;
    let size = ListSize { picture, pictures };
    vet_bytes(Layer::ReferenceList, size.area(), samples)?;
    Ok(size)
}
