//! Predicted vectors, one for each picture of a list.
ghost use Rattle.std.specs.Prelude.{◌≡◌, ◌≤◌, [], ◌∷◌, length, unsigned_abs};
ghost use Rattle.picture.specs.Faults.{Answers, first};
ghost use Rattle.settings.specs.Predicted.{arrays_fault, component_rule, predicted_fault, vector, vector_at, AllNear, Paired};

use picture::{Fault, Layer, ListSize, Row};
use rate::Vector;

/// The predicted vectors of the pictures of a list, in quarter samples, with zeros after them.
#[derive(Clone, Copy)]
pub struct Predicted {
    pub pictures: usize,
    // Fixed memory, for the longest list: the library never allocates.
    pub vectors: [Vector; 16],
    ghost few: { (1 ≤ pictures) × (pictures ≤ 16) },
    ghost near: { AllNear vectors },
}

/// Vets the lengths of two arrays with an entry for each picture.
// Two arrays, here and wherever an opening takes them: the engine's rules hand horizontals and verticals over so.
pub fn vet_arrays(pictures: usize, xs: &[i16], ys: &[i16]) -> Result<(), Fault>
    ensures { Answers result (arrays_fault pictures (length xs.now) (length ys.now)) (λ _. (length xs.now ≡ pictures) × (length ys.now ≡ pictures)) }
{
    let paired = xs.len() == pictures && ys.len() == pictures;
    let longer = xs.len().max(ys.len());
    Fault::unless(paired, Row::ArrayLength, Layer::Settings, longer as i64)
}

/// Vets a component.
fn vet_component(z: i16) -> Result<i16, Fault>
    ensures { Answers result (first (component_rule z ∷ [])) (λ kept. (kept ≡ z) × (unsigned_abs z ≤ 4096)) }
{
    let near = (-4096..=4096).contains(&z);
    Fault::unless(near, Row::PredictedVector, Layer::Settings, z as i64)?;
    Ok(z)
}

/// Vets the vector (x, y), horizontal before vertical.
fn vet_vector(x: i16, y: i16) -> Result<Vector, Fault>
    ensures { Answers result (first (component_rule x ∷ component_rule y ∷ [])) (λ kept. (kept ≡ vector x y) × (unsigned_abs x ≤ 4096) × (unsigned_abs y ≤ 4096)) }
{
    Ok(Vector {
        x: vet_component(x)?,
        y: vet_component(y)?,
    })
}

impl Predicted {
    /// Vets and copies the predicted vectors of a list's pictures: the lengths of the arrays first, then each vector.
    pub fn new(list: ListSize, xs: &[i16], ys: &[i16]) -> Result<Predicted, Fault>
        ensures { Answers result (predicted_fault list.pictures xs.now ys.now) (λ p. (p.pictures ≡ list.pictures) × Paired xs.now ys.now p.vectors) }
    {
        vet_arrays(list.pictures, xs, ys)?;
        let mut vectors = [Vector { x: 0, y: 0 }; 16];
        // By number: zipped with two arrays, the loop would ask for what the adapters keep.
        for (k, vector) in vectors[..list.pictures].iter_mut().enumerate() {
            *vector = vet_vector(xs[k], ys[k])?;
        }
        Ok(Predicted {
            pictures: list.pictures,
            vectors,
        })
    }

    /// The predicted vector of a picture.
    pub fn get(&self, picture: usize) -> Option<Vector>
        ensures { result ≡ vector_at self.now.pictures self.now.vectors picture }
    {
        self.vectors[..self.pictures].get(picture).copied()
    }
}
