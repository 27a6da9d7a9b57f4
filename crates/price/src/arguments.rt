//! The vector that the arguments name.
ghost use Rattle.std.specs.Prelude.{◌≡◌, IfOk};
ghost use Rattle.price.specs.Arguments.{named_component, IsNamed, IsNamedComponent};

use anyhow::anyhow;
use cost::Candidate;
use rate::Vector;

/// A component that may be named: −4,400 to 4,400 quarter samples.
pub(crate) fn component(z: i64) -> Option<i16>
    ensures { result ≡ named_component z }
{
    i16::try_from(z).ok().filter(|z| (-4400..=4400).contains(z))
}

/// The component that a word names.
fn read_component(word: &str) -> anyhow::Result<i16>
    ensures { IfOk result (IsNamedComponent word.now) }
{
    let Ok(z) = word.parse::<i64>() else {
        return Err(anyhow!("X and Y are whole numbers of quarter samples: try price --help"));
    };
    match component(z) {
        Some(z) => Ok(z),
        None => Err(anyhow!("X and Y have to lie in -4400..4400, in quarter samples")),
    }
}

/// The candidate that three words name.
pub(crate) fn read_candidate(picture: &str, x: &str, y: &str) -> anyhow::Result<Candidate>
    ensures { IfOk result (IsNamed picture.now x.now y.now) }
{
    let Ok(picture) = picture.parse::<usize>() else {
        return Err(anyhow!("PICTURE is a picture number, from 0 on: try price --help"));
    };
    let x = read_component(x)?;
    let y = read_component(y)?;
    Ok(Candidate {
        picture,
        vector: Vector { x, y },
    })
}
