//! The lengths of the codes of differences and of picture numbers, in bits.
ghost use Rattle.std.specs.Prelude.{◌≡◌, ◌<◌, ◌≤◌, T, pos, negsuc, ◌+ℤ◌, ◌≤ℤ◌, IfSome};
ghost use Rattle.rate.specs.Tables.{every};
ghost use Rattle.rate.specs.Lengths.{CodeLength, code_length, code_number, difference_length, right};

/// The lengths for the differences from -261 to 261, in their order.
const LENGTHS: [u8; 523] = [
    19, 19, 19, 19, 19, 19, 17, 17, 17, 17, 17, 17, 17, 17, 17, 17, 17, 17, 17, 17, 17, 17, 17, 17,
    17, 17, 17, 17, 17, 17, 17, 17, 17, 17, 17, 17, 17, 17, 17, 17, 17, 17, 17, 17, 17, 17, 17, 17,
    17, 17, 17, 17, 17, 17, 17, 17, 17, 17, 17, 17, 17, 17, 17, 17, 17, 17, 17, 17, 17, 17, 17, 17,
    17, 17, 17, 17, 17, 17, 17, 17, 17, 17, 17, 17, 17, 17, 17, 17, 17, 17, 17, 17, 17, 17, 17, 17,
    17, 17, 17, 17, 17, 17, 17, 17, 17, 17, 17, 17, 17, 17, 17, 17, 17, 17, 17, 17, 17, 17, 17, 17,
    17, 17, 17, 17, 17, 17, 17, 17, 17, 17, 17, 17, 17, 17, 15, 15, 15, 15, 15, 15, 15, 15, 15, 15,
    15, 15, 15, 15, 15, 15, 15, 15, 15, 15, 15, 15, 15, 15, 15, 15, 15, 15, 15, 15, 15, 15, 15, 15,
    15, 15, 15, 15, 15, 15, 15, 15, 15, 15, 15, 15, 15, 15, 15, 15, 15, 15, 15, 15, 15, 15, 15, 15,
    15, 15, 15, 15, 15, 15, 13, 13, 13, 13, 13, 13, 13, 13, 13, 13, 13, 13, 13, 13, 13, 13, 13, 13,
    13, 13, 13, 13, 13, 13, 13, 13, 13, 13, 13, 13, 13, 13, 11, 11, 11, 11, 11, 11, 11, 11, 11, 11,
    11, 11, 11, 11, 11, 11, 9, 9, 9, 9, 9, 9, 9, 9, 7, 7, 7, 7, 5, 5, 3, 1, 3, 5, 5, 7, 7, 7, 7, 9,
    9, 9, 9, 9, 9, 9, 9, 11, 11, 11, 11, 11, 11, 11, 11, 11, 11, 11, 11, 11, 11, 11, 11, 13, 13,
    13, 13, 13, 13, 13, 13, 13, 13, 13, 13, 13, 13, 13, 13, 13, 13, 13, 13, 13, 13, 13, 13, 13, 13,
    13, 13, 13, 13, 13, 13, 15, 15, 15, 15, 15, 15, 15, 15, 15, 15, 15, 15, 15, 15, 15, 15, 15, 15,
    15, 15, 15, 15, 15, 15, 15, 15, 15, 15, 15, 15, 15, 15, 15, 15, 15, 15, 15, 15, 15, 15, 15, 15,
    15, 15, 15, 15, 15, 15, 15, 15, 15, 15, 15, 15, 15, 15, 15, 15, 15, 15, 15, 15, 15, 15, 17, 17,
    17, 17, 17, 17, 17, 17, 17, 17, 17, 17, 17, 17, 17, 17, 17, 17, 17, 17, 17, 17, 17, 17, 17, 17,
    17, 17, 17, 17, 17, 17, 17, 17, 17, 17, 17, 17, 17, 17, 17, 17, 17, 17, 17, 17, 17, 17, 17, 17,
    17, 17, 17, 17, 17, 17, 17, 17, 17, 17, 17, 17, 17, 17, 17, 17, 17, 17, 17, 17, 17, 17, 17, 17,
    17, 17, 17, 17, 17, 17, 17, 17, 17, 17, 17, 17, 17, 17, 17, 17, 17, 17, 17, 17, 17, 17, 17, 17,
    17, 17, 17, 17, 17, 17, 17, 17, 17, 17, 17, 17, 17, 17, 17, 17, 17, 17, 17, 17, 17, 17, 17, 17,
    17, 17, 17, 17, 17, 17, 19, 19, 19, 19, 19, 19,
];

/// The table, and its rule at all of its entries: one test, which is computed.
fn lengths() -> &'static [u8; 523]
    ensures { T (every right 0 result.now) }
{
    &LENGTHS
}

/// The place of the difference d in the table.
fn place_of(d: i16) -> usize
    requires { (negsuc 260 ≤ℤ d) × (d ≤ℤ pos 261) }
    ensures { pos result ≡ d +ℤ pos 261 }
{
    (d + 261) as usize
}

/// The length of the code of the difference d, from -261 to 261.
pub fn code_length(d: i16) -> Option<u8>
    ensures value { result ≡ difference_length d }
    ensures rule { IfSome result (CodeLength (code_number d)) }
    ensures most { IfSome result (λ bits. bits ≤ 19) }
{
    if !(-261..=261).contains(&d) {
        return None;
    }
    Some(lengths()[place_of(d)])
}

/// The length of the code of the picture number k.
pub(crate) fn picture_length(k: usize) -> u8
    requires { k < 16 }
    ensures rule { CodeLength k result }
    ensures value { result ≡ code_length k }
    ensures most { result ≤ 9 }
{
    2 * (k + 1).ilog2() as u8 + 1
}
