//! Runs whose counts were worked out by hand.
use crate::{Answer, Call, Opening, Pairs, ReplayError, Report, Search, SecondStage, replay};
use block::BlockRequest;
use measure::{Sad, Ssd};
use pattern::{Diamond, Eight, Square};
use picture::{Fault, Layer, ListSize, PictureSize, Plane, Row};
use rate::Vector;
use reference::DrawnList;
use std::test::Fail;

const SIZE: PictureSize = PictureSize {
    width: 16,
    height: 16,
};

/// A list of one picture, whose samples grow by 1 with every quarter sample to the right.
const RISING: DrawnList = DrawnList {
    size: ListSize {
        picture: SIZE,
        pictures: 1,
    },
    a: 1,
    b: 0,
    c: 100,
};

/// A picture that is the list's, three whole samples further to the right.
fn shifted() -> [u8; 256] {
    let mut samples = [0; 256];
    for (k, sample) in samples.iter_mut().enumerate() {
        *sample = 112 + 4 * (k % 16) as u8;
    }
    samples
}

/// The first 4x4 block, QP 0, a range of 4, and (0, 0) predicted.
fn opening(samples: &[u8; 256]) -> Opening<'_, DrawnList, Sad> {
    Opening {
        current: Plane::new(SIZE, samples),
        request: BlockRequest {
            left: 0,
            top: 0,
            width: 4,
            height: 4,
        },
        list: RISING,
        measure: Sad,
        qp: 0,
        range: 4,
        xs: &[0],
        ys: &[0],
    }
}

fn report(x: i16, cost: u32, trials: u64, strips: u64) -> Report {
    Report {
        picture: 0,
        vector: Vector { x, y: 0 },
        cost,
        trials,
        strips,
    }
}

fn refused(row: Row, value: i64) -> Fault {
    Fault {
        row,
        layer: Layer::Search,
        value,
    }
}

// The SAD of the whole-sample vector (x, y) is 64 |x - 3| while no sample wraps. L(0) is 15,105, so that 2, 8, 10, 12,
// 14 and 16 bits cost 0, 1, 2, 2, 3 and 3. Components of 0, 4, -4, 8, 12 and 16 quarter samples take 1, 7, 7, 9, 9 and 11.
#[test]
fn calls_by_hand(rt: HostRuntime) -> Result<(), Fail> {
    let samples = shifted();
    let mut search = Search::open(opening(&samples)).expect(&rt, "it opens");
    // (0, 0): 0 + 192.
    assert_eq!(rt; search.report(), report(0, 192, 1, 1));
    // (1, 0): 1 + 128 is better; (-1, 0) reads its strip and is not.
    assert_eq!(rt; search.try_vector(0, Vector { x: 1, y: 0 }), Ok(true));
    assert_eq!(rt; search.try_vector(0, Vector { x: -1, y: 0 }), Ok(false));
    assert_eq!(rt; search.report(), report(4, 129, 3, 3));
    // Refused: a picture that there is not, and vectors outside the window, horizontal first.
    assert_eq!(rt;
        search.try_vector(1, Vector { x: 9, y: 9 }),
        Err(refused(Row::PictureNumber, 1))
    );
    assert_eq!(rt;
        search.try_vector(0, Vector { x: 5, y: 9 }),
        Err(refused(Row::OutsideWindow, 5))
    );
    assert_eq!(rt;
        search.try_vector(0, Vector { x: 4, y: -5 }),
        Err(refused(Row::OutsideWindow, -5))
    );
    assert_eq!(rt; search.report(), report(4, 129, 3, 3));
    // From (1, 0): (2, 0) at 2 + 64, then three that read a strip. From (2, 0): (3, 0) at 2 + 0 and (1, 0) read a strip,
    // (2, 1) and (2, -1) at 3 none. From (3, 0) nothing is below 2: four that read none.
    assert_eq!(rt; search.walk(&Diamond), Ok(3));
    assert_eq!(rt; search.report(), report(12, 2, 15, 9));
    // From (3, 0) the column of x = 5 is outside; of the other twenty only (1, 0), at 1, reads a strip.
    assert_eq!(rt; search.sweep(&Square), Ok(20));
    assert_eq!(rt; search.report(), report(12, 2, 35, 10));
    // (5, 0) is passed over; (0, 0), at 0, reads a strip, and (3, 0), at 2, none.
    assert_eq!(rt; search.offer(0, &[0, 5, 3], &[0, 0, 0]), Ok(2));
    assert_eq!(rt;
        search.offer(0, &[0, 5], &[0]),
        Err(refused(Row::ArrayLength, 2))
    );
    assert_eq!(rt; search.report(), report(12, 2, 37, 11));
    // 9 x 9 vectors, of which (0, 0), (1, 0), (-1, 0), (0, 1) and (0, -1) begin below 2.
    assert_eq!(rt; search.full_round(0), Ok(81));
    assert_eq!(rt; search.full_round(-1), Err(refused(Row::PictureNumber, -1)));
    assert_eq!(rt; search.report(), report(12, 2, 118, 16));
    // The handover reads its strip: 2 + 0. About (12, 0) all take 10 bits or more, so that none reads a strip.
    let mut search = search.hand_over(Ssd);
    assert_eq!(rt; search.report(), report(12, 2, 119, 17));
    assert_eq!(rt; search.sweep(&Eight::Two), Ok(8));
    assert_eq!(rt; search.full_round(0), Ok(49));
    assert_eq!(rt;
        search.try_vector(0, Vector { x: 16, y: 0 }),
        Err(refused(Row::OutsideWindow, 16))
    );
    assert_eq!(rt; search.close(), report(12, 2, 176, 17));
    Ok(())
}

#[test]
fn a_run_by_hand(rt: HostRuntime) -> Result<(), Fail> {
    let samples = shifted();
    let calls: [Call<Pairs<'_>, Square>; 3] = [
        Call::FullRound(0),
        Call::Offer(3, Pairs { xs: &[0], ys: &[0] }),
        Call::Walk(Square),
    ];
    let second = SecondStage {
        measure: Ssd,
        calls: &[Call::Try(0, Vector { x: 13, y: 0 })],
    };
    // Rings 0, 1 and 2: all 25 read a strip; (1, -1) at 131, (1, 0) at 129, (2, -2) at 68, (2, -1) at 67 and (2, 0) at 66
    // are held in turn. Ring 3: the seven of its top row do, the last at 4; then (-3, -1), (3, -1) at 3, (-3, 0) and (3, 0) at 2;
    // no other, and none of ring 4. The walk: twenty inside, of which (1, 0) reads a strip. The handover reads one, (13, 0) none.
    let told = replay(rt.alloc(), opening(&samples), &calls, Some(second)).expect(&rt, "it opens");
    let answers = [
        Ok(Answer::Trials(81)),
        Err(refused(Row::PictureNumber, 3)),
        Ok(Answer::Sweeps(1)),
        Ok(Answer::Better(false)),
    ];
    assert_eq!(rt; told.answers.as_slice(), answers.as_slice());
    assert_eq!(rt; told.report, report(12, 2, 104, 39));
    Ok(())
}

#[test]
fn a_run_that_does_not_open(rt: HostRuntime) {
    let samples = shifted();
    let calls: [Call<Pairs<'_>, Diamond>; 0] = [];
    let none: Option<SecondStage<'_, Ssd, Diamond>> = None;
    let mut wide = opening(&samples);
    wide.range = 68;
    let fault = Fault {
        row: Row::SearchRange,
        layer: Layer::Settings,
        value: 68,
    };
    assert!(rt;
        matches!(replay(rt.alloc(), wide, &calls, none), Err(ReplayError::Refused(f)) if f == fault)
    );
}
