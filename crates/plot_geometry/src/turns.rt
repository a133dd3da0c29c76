// Sine and cosine of an angle in 360/65,536 degrees, and a turn by it.
ghost use Rattle.std.specs.Prelude.{◌≡◌, ◌<◌, ◌≤◌, ◌^◌, ◌+◌, ◌*◌, ◌/◌, ℕ, ℤ, pos, neg_ℤ, unsigned_abs};
ghost use Rattle.trk_base.specs.Numbers.{round};
ghost use Rattle.plot_geometry.specs.Turns.{half_angle, turned, turns, sine_cosine, scaled, rotated, norm};

// Cosine and sine of the angle of each bit k, which is 2 ^ k in 360/65,536 degrees, in 2 ^ -40.
// Each entry below the last two is that of half the angle of the entry after it.
static HALF_ANGLES: [(i64, i64); 16] = [
    (1_099_511_622_722, 105_414_357),
    (1_099_511_607_562, 210_828_713),
    (1_099_511_546_923, 421_657_418),
    (1_099_511_304_368, 843_314_774),
    (1_099_510_334_147, 1_686_629_052),
    (1_099_506_453_264, 3_373_254_135),
    (1_099_490_929_780, 6_746_476_519),
    (1_099_428_836_572, 13_492_699_036),
    (1_099_180_475_430, 26_983_366_121),
    (1_098_187_217_867, 53_950_478_471),
    (1_094_217_178_760, 107_770_985_514),
    (1_078_384_820_154, 214_504_077_524),
    (1_015_816_288_660, 420_764_883_643),
    (777_472_127_993, 777_472_127_995),
    (0, 1_099_511_627_776),
    (-1_099_511_627_776, 0),
];

pub(crate) fn half_angle(k: usize) -> (i64, i64)
    requires { k < 16 }
    ensures value { result ≡ half_angle k }
    ensures cosine { unsigned_abs result.0 ≤ 2 ^ 40 }
    ensures sine { unsigned_abs result.1 ≤ 2 ^ 40 }
{
    HALF_ANGLES[k]
}

// Sine and cosine of an angle that has the six uppermost bits alone, by what they say, in 2 ^ -40:
// what the entries above make of those bits.
static STARTS: [(i64, i64); 64] = [
    (0, 1_099_511_627_776),
    (107_770_985_514, 1_094_217_178_760),
    (214_504_077_524, 1_078_384_820_154),
    (319_171_378_007, 1_052_167_026_223),
    (420_764_883_643, 1_015_816_288_660),
    (518_306_193_436, 969_682_684_932),
    (610_855_931_252, 914_210_506_867),
    (697_522_792_521, 849_933_981_861),
    (777_472_127_995, 777_472_127_993),
    (849_933_981_865, 697_522_792_519),
    (914_210_506_870, 610_855_931_249),
    (969_682_684_934, 518_306_193_433),
    (1_015_816_288_661, 420_764_883_641),
    (1_052_167_026_225, 319_171_378_004),
    (1_078_384_820_155, 214_504_077_521),
    (1_094_217_178_760, 107_770_985_511),
    (1_099_511_627_776, 0),
    (1_094_217_178_760, -107_770_985_514),
    (1_078_384_820_154, -214_504_077_524),
    (1_052_167_026_223, -319_171_378_007),
    (1_015_816_288_660, -420_764_883_643),
    (969_682_684_932, -518_306_193_436),
    (914_210_506_867, -610_855_931_252),
    (849_933_981_861, -697_522_792_521),
    (777_472_127_993, -777_472_127_995),
    (697_522_792_519, -849_933_981_865),
    (610_855_931_249, -914_210_506_870),
    (518_306_193_433, -969_682_684_934),
    (420_764_883_641, -1_015_816_288_661),
    (319_171_378_004, -1_052_167_026_225),
    (214_504_077_521, -1_078_384_820_155),
    (107_770_985_511, -1_094_217_178_760),
    (0, -1_099_511_627_776),
    (-107_770_985_514, -1_094_217_178_760),
    (-214_504_077_524, -1_078_384_820_154),
    (-319_171_378_007, -1_052_167_026_223),
    (-420_764_883_643, -1_015_816_288_660),
    (-518_306_193_436, -969_682_684_932),
    (-610_855_931_252, -914_210_506_867),
    (-697_522_792_521, -849_933_981_861),
    (-777_472_127_995, -777_472_127_993),
    (-849_933_981_865, -697_522_792_519),
    (-914_210_506_870, -610_855_931_249),
    (-969_682_684_934, -518_306_193_433),
    (-1_015_816_288_661, -420_764_883_641),
    (-1_052_167_026_225, -319_171_378_004),
    (-1_078_384_820_155, -214_504_077_521),
    (-1_094_217_178_760, -107_770_985_511),
    (-1_099_511_627_776, 0),
    (-1_094_217_178_760, 107_770_985_514),
    (-1_078_384_820_154, 214_504_077_524),
    (-1_052_167_026_223, 319_171_378_007),
    (-1_015_816_288_660, 420_764_883_643),
    (-969_682_684_932, 518_306_193_436),
    (-914_210_506_867, 610_855_931_252),
    (-849_933_981_861, 697_522_792_521),
    (-777_472_127_993, 777_472_127_995),
    (-697_522_792_519, 849_933_981_865),
    (-610_855_931_249, 914_210_506_870),
    (-518_306_193_433, 969_682_684_934),
    (-420_764_883_641, 1_015_816_288_661),
    (-319_171_378_004, 1_052_167_026_225),
    (-214_504_077_521, 1_078_384_820_155),
    (-107_770_985_511, 1_094_217_178_760),
];

// The sine and the cosine of an angle's six uppermost bits.
fn start(upper: usize) -> (i64, i64)
    requires { upper < 64 }
    ensures turned { (angle : ℕ) → angle / 1024 ≡ upper → turns 10 angle result ≡ sine_cosine angle }
    ensures norm { norm result.0 result.1 ≤ 2 ^ 80 + 6 * 2 ^ 44 }
{
    STARTS[upper]
}

// `a` in units of 2^-40.
#[inline]
fn round_shift(a: i128) -> i128
    requires { unsigned_abs a ≤ 2 ^ 125 }
    ensures { result ≡ round a (pos (2 ^ 40)) }
{
    (a + (1 << 39)) >> 40
}

// A sine and a cosine, turned on by the angle of bit k.
fn turned(k: usize, s: i64, c: i64) -> (i64, i64)
    requires index { k < 16 }
    requires small { norm s c ≤ 2 ^ 81 }
    ensures value { result ≡ turned (half_angle k) (s, c) }
    ensures norm { norm result.0 result.1 ≤ norm s c + 2 ^ 44 }
{
    let (cosine, sine) = half_angle(k);
    let cosine = cosine as i128;
    let sine = sine as i128;
    let s = s as i128;
    let c = c as i128;
    (
        round_shift(s * cosine + c * sine) as i64,
        round_shift(c * cosine - s * sine) as i64,
    )
}

/// The sine and the cosine of an angle in 360/65,536 degrees, in units of 2^-40.
pub(crate) fn sine_cosine(angle: u16) -> (i128, i128)
    ensures value { result ≡ sine_cosine angle }
    ensures sine { unsigned_abs result.0 ≤ 2 ^ 41 }
    ensures cosine { unsigned_abs result.1 ≤ 2 ^ 41 }
{
    let (mut s, mut c) = start((angle >> 10) as usize);
    for k in (0..10).rev() {
        if angle >> k & 1 == 1 {
            (s, c) = turned(k, s, c);
        }
    }
    (s as i128, c as i128)
}

/// A length, times a sine or a cosine in units of 2^-40.
pub(crate) fn scaled(length: i64, sine: i128) -> i64
    requires length { unsigned_abs length < 2 ^ 40 }
    requires sine { unsigned_abs sine ≤ 2 ^ 41 }
    ensures value { result ≡ scaled length sine }
    ensures bound { unsigned_abs result ≤ 2 * unsigned_abs length }
{
    round_shift(i128::from(length) * sine) as i64
}

/// The point at the distance `r` in the direction of an angle in 360/65,536 degrees, clockwise
/// from north: how far to the east, and how far to the north. A negative distance lies behind.
///
/// Sine and cosine are put together from those of the angle's bits, each made from twice its
/// angle by the half-angle formulas, in whole numbers of 2^-40.
pub fn rotate(angle: u16, r: i64) -> (i64, i64)
    requires { unsigned_abs r < 2 ^ 40 }
    ensures value { result ≡ rotated angle r }

    // The four quarter turns are exact.
    ensures north { angle ≡ 0 → result ≡ (pos 0, r) }
    ensures east { angle ≡ 0x4000 → result ≡ (r, pos 0) }
    ensures south { angle ≡ 0x8000 → result ≡ (pos 0, neg_ℤ r) }
    ensures west { angle ≡ 0xC000 → result ≡ (neg_ℤ r, pos 0) }
{
    let (sine, cosine) = sine_cosine(angle);
    (scaled(r, sine), scaled(r, cosine))
}
