//! Figures that were worked out by hand.
use crate::{Corners, Levels, MiddleRows, replay_corners, walk_corners};
use block::BlockRequest;
use measure::Measure;
use pattern::Pattern;
use picture::{Fault, Layer, PictureSize, Plane, Row};
use rate::Vector;
use reference::ReferenceList;
use search::{Answer, Opening, Report};

const SIZE: PictureSize = PictureSize {
    width: 16,
    height: 16,
};

fn refused(row: Row, value: i64) -> Fault {
    Fault {
        row,
        layer: Layer::ReferenceList,
        value,
    }
}

#[test]
fn each_by_hand(rt: HostRuntime) {
    // Two pictures, of the levels 100 and 110; there is no third.
    let list = Levels::new(SIZE, &[100, 110]).expect(&rt, "two pictures are a list");
    assert_eq!(rt; list.len(), 2);
    assert_eq!(rt; list.sample(0, -4000, 12), 100);
    assert_eq!(rt; list.sample(2, 0, 0), 0);
    let mut strip = [0; 16];
    list.strip(1, 5, -3, &mut strip);
    assert_eq!(rt; strip, [110; 16]);
    assert!(rt;
        matches!(Levels::new(SIZE, &[7; 17]), Err(fault) if fault == refused(Row::PictureCount, 17))
    );
    // The rows of four samples differ by 1, 2, 3 and 4: 4 (1 + 2 x 2 + 2 x 3 + 4). Three rows are no strip.
    let mut rows = [0; 16];
    for (k, sample) in rows.iter_mut().enumerate() {
        *sample = 1 + (k / 4) as u8;
    }
    assert_eq!(rt; MiddleRows.price(&rows, &[0; 16]), 60);
    assert_eq!(rt; MiddleRows.price(&rows[..12], &[0; 12]), 0);
    // The lower left corner is the third; there is no fifth. 0 and 65 are no distances.
    let corners = Corners::new(64).expect(&rt, "64 is a distance");
    assert_eq!(rt; corners.len(), 4);
    assert_eq!(rt; corners.offset(2), Vector { x: -64, y: 64 });
    assert_eq!(rt; corners.offset(4), Vector { x: 0, y: 0 });
    assert!(rt; Corners::new(0).is_none());
    assert!(rt; Corners::new(65).is_none());
}

/// A picture whose rows are 101, 102 and so on.
fn ramp() -> [u8; 256] {
    let mut samples = [0; 256];
    for (k, sample) in samples.iter_mut().enumerate() {
        *sample = 101 + (k / 16) as u8;
    }
    samples
}

/// The first 4x4 block, QP 30, a range of 4, and (3, 3) predicted.
fn opening<'a>(samples: &'a [u8; 256], list: Levels<'a>) -> Opening<'a, Levels<'a>, MiddleRows> {
    Opening {
        current: Plane::new(SIZE, samples),
        request: BlockRequest {
            left: 0,
            top: 0,
            width: 4,
            height: 4,
        },
        list,
        measure: MiddleRows,
        qp: 30,
        range: 4,
        xs: &[3],
        ys: &[3],
    }
}

fn report(x: i16, y: i16, cost: u32, trials: u64, strips: u64) -> Report {
    Report {
        picture: 0,
        vector: Vector { x, y },
        cost,
        trials,
        strips,
    }
}

// Over a list of the level 100 the block's one strip costs 60 at every vector. L(30) is 483,369, so that 2, 6, 10, 14, 16
// and 18 bits cost 14, 44, 73, 103, 118 and 132. Differences of 0, 1, -1, 2, -7 and 9 from the predicted 3 take 1, 3, 3, 5,
// 7 and 9 bits.
#[test]
fn searches_by_hand(rt: HostRuntime) {
    let samples = ramp();
    let list = Levels::new(SIZE, &[100]).expect(&rt, "one picture is a list");
    let far = Corners::new(2).expect(&rt, "2 is a distance");
    let near = Corners::new(1).expect(&rt, "1 is a distance");
    // The centre is (1, 1), or (4, 4) in quarter samples: 44 + 60, a trial and a strip. Of its four far corners (-1, -1), at
    // 103, reads a strip and the others, at 118 and more, none. The handover reads a strip again.
    assert_eq!(rt;
        walk_corners(opening(&samples, list), &far),
        Ok(report(4, 4, 104, 6, 3))
    );
    // Then (3, 3) is better, at 14 + 60; (5, 3), (3, 5) and (5, 5), at 44, 44 and 73, read a strip, and so do the near corners
    // of (3, 3), all at 44.
    let told = replay_corners(rt.alloc(), opening(&samples, list), &far, &near).expect(
        &rt, "it opens",
    );
    let answers = [Ok(Answer::Sweeps(1)), Ok(Answer::Sweeps(2))];
    assert_eq!(rt; told.answers.as_slice(), answers.as_slice());
    assert_eq!(rt; told.report, report(3, 3, 74, 14, 11));
    // A list of larger pictures than the current one.
    let wide = PictureSize {
        width: 32,
        height: 16,
    };
    let list = Levels::new(wide, &[100]).expect(&rt, "one picture is a list");
    assert_eq!(rt;
        walk_corners(opening(&samples, list), &far),
        Err(refused(Row::SizeMismatch, 32))
    );
}
