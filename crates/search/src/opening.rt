//! The opening of a search.
ghost use Rattle.picture.specs.Faults.{Answers};
ghost use Rattle.picture.specs.Planes.{grid_of};
ghost use Rattle.std.specs.Prelude.{◌≡◌};
ghost use Rattle.search.specs.Openings.{Opens, opening_book, opening_fault, size_of, whole_terms};
ghost use Rattle.search.specs.Tallies.{Agrees};

use crate::searches::Search;
use crate::tallies::Tally;
use block::BlockRequest;
use cost::Candidate;
use measure::Measure;
use picture::{Fault, ListSize, PictureSize, Plane};
use reference::ReferenceList;
use settings::Setup;
use window::{Stage, Whole};

/// What a search is opened with: the current picture and the block's place in it, a list, a measure, QP, the search range,
/// and the predicted vectors, horizontals and verticals in two arrays with an entry for each picture.
#[derive(Drop)]
pub struct Opening<'a, L, M> {
    pub current: Plane<'a>,
    pub request: BlockRequest,
    pub list: L,
    pub measure: M,
    pub qp: i64,
    pub range: i64,
    pub xs: &'a [i16],
    pub ys: &'a [i16],
}

/// The size of a list.
fn size_of<L: ReferenceList>(list: &L) -> ListSize
    ensures { result ≡ size_of (L.meaning list.now) }
{
    ListSize {
        picture: PictureSize {
            width: list.width(),
            height: list.height(),
        },
        pictures: list.len(),
    }
}

impl<L: ReferenceList, M: Measure> Search<L, M, Whole> {
    /// Tries the centre of picture 0 with nothing to bound the trial.
    fn start(list: L, measure: M, setup: Setup) -> Search<L, M, Whole>
        ensures agrees { Agrees (whole_terms setup (L.meaning list) (M.cost measure)) result.tally (opening_book setup (L.meaning list) (M.cost measure)) }
        ensures kept { (result.list ≡ list) × (result.measure ≡ measure) × (result.stage.setup ≡ setup) }
    {
        let stage = Whole { setup };
        let held = Candidate {
            picture: 0,
            vector: stage.centre(0),
        };
        let tally = Tally::first(&list, &measure, &stage, held, 0, 0);
        Search {
            list,
            measure,
            stage,
            tally,
        }
    }

    /// Opens a search of a block: it vets what it is given and tries the centre of picture 0, all of its strips.
    pub fn open(opening: Opening<'_, L, M>) -> Result<Search<L, M, Whole>, Fault>
    where
        L: Drop,
        M: Drop,
        ensures { Answers result (opening_fault opening.entry.current.size (L.meaning opening.entry.list) opening.entry.request opening.entry.qp opening.entry.range opening.entry.xs.now opening.entry.ys.now) (λ s. Opens (grid_of opening.entry.current) (L.meaning opening.entry.list) (M.cost opening.entry.measure) opening.entry.request opening.entry.qp opening.entry.range opening.entry.xs.now opening.entry.ys.now s.stage.setup s.tally × (s.list ≡ opening.entry.list) × (s.measure ≡ opening.entry.measure)) }
    {
        let size = size_of(&opening.list);
        let setup = Setup::new(
            &opening.current,
            size,
            opening.request,
            opening.qp,
            opening.range,
            opening.xs,
            opening.ys,
        )?;
        Ok(Search::start(opening.list, opening.measure, setup))
    }
}
