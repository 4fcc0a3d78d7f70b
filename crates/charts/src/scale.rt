//! How many microseconds a column has, and in which column a time lies.
ghost use Rattle.std.specs.Prelude.{◌≡◌, ◌<◌};
ghost use Rattle.charts.specs.Scales as scales;
ghost use Rattle.charts.specs.Scales.{least_scale};

/// The most columns of a chart.
pub const COLUMNS: usize = 120;

/// How many microseconds a column may have.
pub const SCALES: [u64; 54] = [
    1,
    2,
    5,
    10,
    20,
    50,
    100,
    200,
    500,
    1_000,
    2_000,
    5_000,
    10_000,
    20_000,
    50_000,
    100_000,
    200_000,
    500_000,
    1_000_000,
    2_000_000,
    5_000_000,
    10_000_000,
    20_000_000,
    50_000_000,
    100_000_000,
    200_000_000,
    500_000_000,
    1_000_000_000,
    2_000_000_000,
    5_000_000_000,
    10_000_000_000,
    20_000_000_000,
    50_000_000_000,
    100_000_000_000,
    200_000_000_000,
    500_000_000_000,
    1_000_000_000_000,
    2_000_000_000_000,
    5_000_000_000_000,
    10_000_000_000_000,
    20_000_000_000_000,
    50_000_000_000_000,
    100_000_000_000_000,
    200_000_000_000_000,
    500_000_000_000_000,
    1_000_000_000_000_000,
    2_000_000_000_000_000,
    5_000_000_000_000_000,
    10_000_000_000_000_000,
    20_000_000_000_000_000,
    50_000_000_000_000_000,
    100_000_000_000_000_000,
    200_000_000_000_000_000,
    500_000_000_000_000_000,
];

/// The first of these scales with which a run up to this time, in microseconds, fits into the columns.
pub(crate) fn least_scale(scales: &[u64], last: u64) -> u64
    ensures is { result ≡ least_scale scales.now last }
    ensures positive { 0 < result }
{
    let share = last / COLUMNS as u64;
    for scale in scales {
        if share < *scale {
            return *scale;
        }
    }
    1
}

/// The column of a time, in microseconds, by how many of them a column has.
pub(crate) fn column(scale: u64, time: i64) -> usize
    requires { 0 < scale }
    ensures is { result ≡ scales.column scale time }
    ensures few { result < COLUMNS }
{
    let column = time.unsigned_abs() / scale;
    column.min(COLUMNS as u64 - 1) as usize
}
