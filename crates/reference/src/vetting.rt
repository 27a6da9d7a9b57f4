//! Vetting of a list that has no bytes.
ghost use Rattle.picture.specs.Faults.{Answers};
ghost use Rattle.reference.specs.Vetting.{drawn_fault, DrawnIs};

use picture::{Fault, Layer, ListSize, vet_count, vet_size};

/// Vets the size of a drawn list's pictures, then how many they are.
// As `vet_list` begins: a call of these two calls would be one more name, and no shorter here or there.
pub fn vet_drawn(pictures: i64, width: i64, height: i64) -> Result<ListSize, Fault>
    ensures { Answers result (drawn_fault pictures width height) (DrawnIs pictures width height) }
{
    let picture = vet_size(Layer::ReferenceList, width, height)?;
    let pictures = vet_count(pictures)?;
    Ok(ListSize { picture, pictures })
}
