//! Worked examples, and refusals at their boundaries.
use measure::sad;
use picture::{Fault, Layer, vet_count, vet_list, vet_picture, vet_size};
use rate::{Qp, Vector, code_length, vector_rate};
use settings::centre;
use std::test::Fail;

/// The numbers printed for a refusal, and zeros for what is accepted.
// A plain tuple: the values of the tests stand as they were first worked out.
fn told<T: Drop>(answer: Result<T, Fault>) -> (u8, u8, i64) {
    match answer {
        Ok(_) => (0, 0, 0),
        Err(fault) => (u8::from(fault.row), u8::from(fault.layer), fault.value),
    }
}

#[test]
fn sizes_at_their_limits(rt: HostRuntime) {
    let sizes = [
        (15, false),
        (16, true),
        (17, false),
        (24, false),
        (1904, true),
        (1920, true),
        (1936, false),
        (0, false),
        (-16, false),
    ];
    for (size, fits) in sizes {
        let value = if fits { (0, 0, 0) } else { (1, 1, size) };
        assert_eq!(rt; told(vet_size(Layer::CurrentPicture, size, 16)), value);
        assert_eq!(rt; told(vet_size(Layer::CurrentPicture, 16, size)), value);
    }
    assert_eq!(rt; told(vet_size(Layer::ReferenceList, -32, 17)), (1, 2, -32));
}

#[test]
fn counts_at_their_limits(rt: HostRuntime) {
    for (pictures, fits) in [(0, false), (1, true), (16, true), (17, false), (-1, false)] {
        let value = if fits { (0, 0, 0) } else { (2, 2, pictures) };
        assert_eq!(rt; told(vet_count(pictures)), value);
    }
}

#[test]
fn a_byte_short_and_a_byte_long(rt: HostRuntime) {
    let bytes = [0u8; 513];
    assert_eq!(rt; told(vet_picture(16, 32, &bytes[0..511])), (4, 1, 511));
    assert_eq!(rt; told(vet_picture(16, 32, &bytes[0..512])), (0, 0, 0));
    assert_eq!(rt; told(vet_picture(16, 32, &bytes)), (4, 1, 513));
    assert_eq!(rt; told(vet_list(2, 16, 16, &bytes[0..511])), (4, 2, 511));
    assert_eq!(rt; told(vet_list(2, 16, 16, &bytes[0..512])), (0, 0, 0));
    assert_eq!(rt; told(vet_list(2, 16, 16, &bytes)), (4, 2, 513));
}

#[test]
fn earlier_rows_win(rt: HostRuntime) {
    assert_eq!(rt; told(vet_list(17, 15, 16, &[])), (1, 2, 15));
    assert_eq!(rt; told(vet_list(17, 16, 15, &[])), (1, 2, 15));
    assert_eq!(rt; told(vet_list(17, 16, 16, &[])), (2, 2, 17));
    assert_eq!(rt; told(vet_list(16, 16, 16, &[])), (4, 2, 0));
}

#[test]
fn lengths_by_hand(rt: HostRuntime) {
    for (d, bits) in [
        (0, 1),
        (-1, 3),
        (1, 3),
        (4, 7),
        (-128, 17),
        (255, 17),
        (256, 19),
        (-261, 19),
        (261, 19),
    ] {
        assert_eq!(rt; code_length(d), Some(bits));
    }
    assert_eq!(rt; code_length(262), None);
    assert_eq!(rt; code_length(-262), None);
}

#[test]
fn lambdas_and_rate_parts_by_hand(rt: HostRuntime) -> Result<(), Fail> {
    for (qp, lambda, part) in [
        (0, 15_105, 1),
        (12, 60_421, 7),
        (30, 483_369, 59),
        (51, 5_468_703, 667),
    ] {
        match Qp::try_from(qp) {
            Ok(given) => {
                assert_eq!(rt; given.lambda(), lambda);
                assert_eq!(rt; given.rate_part(8), part);
            }
            Err(_) => return Err(Fail::new("refused")),
        }
    }
    Ok(())
}

#[test]
fn the_picture_number_is_free_where_there_is_one(rt: HostRuntime) {
    let vector = Vector { x: 4, y: 0 };
    let predicted = Vector { x: 0, y: 0 };
    assert_eq!(rt; vector_rate(vector, predicted, 0, 1), Some(8));
    assert_eq!(rt; vector_rate(vector, predicted, 0, 2), Some(9));
    assert_eq!(rt; vector_rate(vector, predicted, 15, 16), Some(17));
    assert_eq!(rt; vector_rate(vector, predicted, 2, 2), None);
}

#[test]
fn centres_by_hand(rt: HostRuntime) {
    for (p, whole) in [
        (0, 0),
        (1, 0),
        (2, 1),
        (-2, 0),
        (-3, -1),
        (4096, 1024),
        (-4096, -1024),
        (32_767, 8192),
        (-32_768, -8192),
    ] {
        assert_eq!(rt; centre(p), whole);
    }
}

#[test]
fn sad_by_hand(rt: HostRuntime) {
    let flat = [100u8; 64];
    let mut other = [100u8; 64];
    other[5] = 97;
    assert_eq!(rt; sad(&flat[0..16], &other[0..16]), 3);
    assert_eq!(rt; sad(&other, &flat), 3);
    assert_eq!(rt; sad(&[0; 32], &[255; 32]), 8160);
    assert_eq!(rt; sad(&flat[0..48], &other[0..48]), 0);
    assert_eq!(rt; sad(&flat[0..16], &other[0..32]), 0);
}
