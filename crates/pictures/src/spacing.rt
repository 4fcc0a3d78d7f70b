//! How far ticks of an axis are apart.
ghost use Rattle.std.specs.Prelude.{◌≡◌, ◌<◌};
ghost use Rattle.pictures.specs.Front as front;
ghost use Rattle.pictures.specs.Front.{least_spacing};

/// The most ticks after the first one.
pub const TICKS: u64 = 14;

/// How far they may be apart, in microseconds or steps.
pub const SPACINGS: [u64; 55] = [
    1,
    2,
    5,
    10,
    20,
    50,
    100,
    200,
    500,
    1_000,
    2_000,
    5_000,
    10_000,
    20_000,
    50_000,
    100_000,
    200_000,
    500_000,
    1_000_000,
    2_000_000,
    5_000_000,
    10_000_000,
    20_000_000,
    50_000_000,
    100_000_000,
    200_000_000,
    500_000_000,
    1_000_000_000,
    2_000_000_000,
    5_000_000_000,
    10_000_000_000,
    20_000_000_000,
    50_000_000_000,
    100_000_000_000,
    200_000_000_000,
    500_000_000_000,
    1_000_000_000_000,
    2_000_000_000_000,
    5_000_000_000_000,
    10_000_000_000_000,
    20_000_000_000_000,
    50_000_000_000_000,
    100_000_000_000_000,
    200_000_000_000_000,
    500_000_000_000_000,
    1_000_000_000_000_000,
    2_000_000_000_000_000,
    5_000_000_000_000_000,
    10_000_000_000_000_000,
    20_000_000_000_000_000,
    50_000_000_000_000_000,
    100_000_000_000_000_000,
    200_000_000_000_000_000,
    500_000_000_000_000_000,
    1_000_000_000_000_000_000,
];

// The first of these with which an axis that goes so far has few ticks.
fn least_spacing(spacings: &[u64], span: u64) -> u64
    ensures is { result ≡ least_spacing spacings.now span }
    ensures positive { 0 < result }
{
    let share = span / TICKS;
    for spacing in spacings {
        if share < *spacing {
            return *spacing;
        }
    }
    1
}

/// How far ticks are apart on an axis that goes so far, in microseconds or steps.
pub(crate) fn spacing_of(span: u64) -> u64
    ensures is { result ≡ front.spacing_of span }
    ensures positive { 0 < result }
{
    least_spacing(&SPACINGS, span)
}
