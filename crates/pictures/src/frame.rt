//! Where things are in a picture, in tenths of a pixel from its left and from its upper edge.
ghost use Rattle.std.specs.Prelude.{◌≡◌, ◌+◌, ◌*◌, ◌<◌, ◌≤◌};
ghost use Rattle.pictures.specs.Frames as frames;
ghost use Rattle.pictures.specs.Frames.{bottom, frame_of, row_number, span, top, x_of, y_of};

/// Where the axes begin.
pub const LEFT: u64 = 2_800;

/// How long they are.
pub const WIDTH: u64 = 14_000;

/// Where the rows of the first part begin.
pub const TOP: u64 = 1_700;

/// How high a row is.
pub const ROW: u64 = 360;

/// How far the rows of the two parts are apart.
pub const GAP: u64 = 1_500;

/// The most steps that are drawn.
pub const STEPS: u64 = 2_000;

/// What an axis counts: each of the two parts of a picture has one.
#[derive(Clone, Copy)]
pub enum Axis {
    /// Microseconds of virtual time.
    Time,
    /// Steps of the run.
    Steps,
}

/// What a row is about.
#[derive(Clone, Copy)]
pub enum Row {
    /// A task, or the handler of an interrupt, by its number.
    Actor(u8),
    /// A protected object, by its number.
    Object(u8),
    /// The lines of the schedule.
    Inputs,
}

/// How many rows each part has, and how far the axes go.
#[derive(Clone, Copy)]
pub struct Frame {
    /// How many tasks there are.
    pub tasks: u8,
    /// How many objects.
    pub objects: u8,
    /// Microseconds, at least 1.
    pub time: u64,
    /// Steps, at least 1.
    pub steps: u64,
}

impl Frame {
    /// The frame of a run of so many tasks and objects, up to this time, in microseconds, and so many steps.
    pub(crate) fn new(tasks: u8, objects: u8, time: u64, steps: u64) -> Frame
        ensures is { result ≡ frame_of tasks objects time steps }
        ensures time { 0 < result.time }
        ensures steps { 0 < result.steps }
    {
        Frame {
            tasks,
            objects,
            time: time.max(1),
            steps: steps.min(STEPS).max(1),
        }
    }

    /// How many rows each part has.
    pub(crate) fn rows(self) -> u64
        ensures is { result ≡ frames.rows self }
        ensures few { result ≤ 1000 }
    {
        u64::from(self.tasks) + u64::from(self.objects) + 1
    }

    /// The number of a row, from 0.
    pub(crate) fn number(self, row: Row) -> u64
        ensures is { result ≡ row_number self row }
        ensures few { result ≤ 1000 }
    {
        let tasks = u64::from(self.tasks);
        match row {
            Row::Actor(actor) if actor < self.tasks => u64::from(actor),
            Row::Object(object) => tasks + u64::from(object),
            Row::Actor(_) | Row::Inputs => tasks + u64::from(self.objects),
        }
    }

    /// Where the rows of a part begin.
    pub(crate) fn top(self, axis: Axis) -> u64
        ensures is { result ≡ top self axis }
        ensures few { result ≤ 1_000_000 }
        ensures high { 1_000 ≤ result }
    {
        match axis {
            Axis::Time => TOP,
            Axis::Steps => TOP + self.rows() * ROW + GAP,
        }
    }

    /// Where they end.
    pub(crate) fn bottom(self, axis: Axis) -> u64
        ensures is { result ≡ bottom self axis }
        ensures few { result ≤ 2_000_000 }
    {
        self.top(axis) + self.rows() * ROW
    }

    /// Where something is in a row.
    pub(crate) fn y(self, axis: Axis, row: u64, offset: u64) -> u64
        requires row { row ≤ 1000 }
        requires offset { offset ≤ 1000 }
        ensures is { result ≡ y_of self axis row offset }
    {
        self.top(axis) + row * ROW + offset
    }

    /// How far an axis goes.
    pub(crate) fn span(self, axis: Axis) -> u64
        requires time { 0 < self.time }
        requires steps { 0 < self.steps }
        ensures is { result ≡ span self axis }
        ensures positive { 0 < result }
    {
        match axis {
            Axis::Time => self.time,
            Axis::Steps => self.steps,
        }
    }

    /// Where something is on an axis.
    pub(crate) fn x(self, axis: Axis, at: u64) -> u128
        requires time { 0 < self.time }
        requires steps { 0 < self.steps }
        ensures { result ≡ x_of self axis at }
    {
        u128::from(LEFT) + u128::from(at) * u128::from(WIDTH) / u128::from(self.span(axis))
    }
}
