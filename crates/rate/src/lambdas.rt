//! The table of scaled lambdas.
ghost use Rattle.std.specs.Prelude.{T};
ghost use Rattle.rate.specs.Tables.{every};
ghost use Rattle.rate.specs.Lambdas.{right, small};

/// The scaled lambdas for QP 0 to 51.
const LAMBDAS: [u32; 52] = [
    15_105, 16_955, 19_031, 21_362, 23_978, 26_914, 30_210, 33_910, 38_062, 42_724, 47_956, 53_829,
    60_421, 67_820, 76_125, 85_448, 95_912, 107_658, 120_842, 135_641, 152_251, 170_896, 191_825,
    215_316, 241_684, 271_282, 304_503, 341_793, 383_650, 430_633, 483_369, 542_564, 609_007,
    683_587, 767_301, 861_266, 966_739, 1_085_128, 1_218_015, 1_367_175, 1_534_602, 1_722_533,
    1_933_478, 2_170_256, 2_436_030, 2_734_351, 3_069_205, 3_445_067, 3_866_957, 4_340_512,
    4_872_060, 5_468_703,
];

/// The table, and its rule at all of its entries: one test, which is computed.
pub(crate) fn lambdas() -> &'static [u32; 52]
    ensures rule { T (every right 0 result.now) }
    ensures most { T (every small 0 result.now) }
{
    &LAMBDAS
}
