//! What is measured of one task.
ghost use Rattle.std.specs.Prelude.{◌≡◌, ◌∷◌, List};
ghost use Rattle.measuring.specs.Measures.{lesser, measures, nearer};

use crate::happening::Happening;
use machine::FrameUse;

/// What is measured of a task, or of the handler of an interrupt. Times are in microseconds; no number is greater than 2**64 - 1, and a greater one is
/// written as that.
#[derive(Clone, Copy, PartialEq, Eq, Debug, Default)]
pub struct ActorMeasures {
    /// How many jobs of it have begun.
    pub jobs: u64,
    /// How many steps it has taken.
    pub steps: u64,
    /// How many steps its last job has taken so far.
    pub last_job: u64,
    /// The least steps of a job, of those that are over.
    pub shortest_job: Option<u64>,
    /// The most steps of a job.
    pub longest_job: u64,
    /// How many steps of the run had been taken when its last job began.
    pub steps_before: u64,
    /// The most steps of the run from the beginning of a job to its last step.
    pub response: u64,
    /// The most frames that it has had below the one that runs, before a step of it.
    pub deepest: u64,
    /// The most words that its frames have had together, before a step of it.
    pub widest: u64,
    /// How often it has been preempted.
    pub preempted: u64,
    /// How many of its calls have waited in the queue of an entry, and are over.
    pub waits: u64,
    /// How long one of them has waited at most.
    pub longest_wait: u64,
    /// How long they have waited in all.
    pub total_wait: u64,
    /// How often the time had passed that its `delay until` asked for.
    pub late: u64,
    /// By how much at most.
    pub latest: u64,
    /// When its last job began.
    pub last_release: Option<i64>,
    /// The least time between the beginnings of two jobs, one after the other.
    pub least_apart: Option<u64>,
}

// The lesser of a number and of the least one so far, if there is one.
fn lesser(least: Option<u64>, number: u64) -> u64
    ensures { result ≡ lesser least number }
{
    match least {
        Some(least) => least.min(number),
        None => number,
    }
}

// The least distance of releases, with one more at this time.
fn nearer(last: Option<i64>, time: i64, least: Option<u64>) -> Option<u64>
    ensures { result ≡ nearer last time least }
{
    let Some(last) = last else {
        return least;
    };
    Some(lesser(least, time.abs_diff(last)))
}

impl ActorMeasures {
    // With the beginning of a job.
    fn release(&mut self, time: i64, step: u64)
        ensures { (story : List Happening) → self.old ≡ measures story → self.new ≡ measures (Happening.Released time step ∷ story) }
    {
        self.jobs = self.jobs.saturating_add(1);
        self.last_job = 0;
        self.steps_before = step;
        self.least_apart = nearer(self.last_release, time, self.least_apart);
        self.last_release = Some(time);
    }

    // With this step of the run, before which it has this of frames.
    fn take_step(&mut self, step: u64, frames: Option<FrameUse>)
        ensures { (story : List Happening) → self.old ≡ measures story → self.new ≡ measures (Happening.Steps step frames ∷ story) }
    {
        if let Some(frames) = frames {
            self.deepest = self.deepest.max(frames.below as u64);
            self.widest = self.widest.max(frames.words as u64);
        }
        self.steps = self.steps.saturating_add(1);
        self.last_job = self.last_job.saturating_add(1);
        self.longest_job = self.longest_job.max(self.last_job);
        self.response = self.response.max(step.saturating_sub(self.steps_before));
    }

    // With the end of a call that was queued.
    fn have_waited(&mut self, time: u64)
        ensures { (story : List Happening) → self.old ≡ measures story → self.new ≡ measures (Happening.HasWaited time ∷ story) }
    {
        self.waits = self.waits.saturating_add(1);
        self.longest_wait = self.longest_wait.max(time);
        self.total_wait = self.total_wait.saturating_add(time);
    }

    /// With one more happening.
    pub(crate) fn note(&mut self, happening: Happening)
        ensures { (story : List Happening) → self.old ≡ measures story → self.new ≡ measures (happening ∷ story) }
    {
        match happening {
            Happening::Released { time, step } => self.release(time, step),
            Happening::Steps { step, frames } => self.take_step(step, frames),
            Happening::Rests => self.shortest_job = Some(lesser(self.shortest_job, self.last_job)),
            Happening::Preempted => self.preempted = self.preempted.saturating_add(1),
            Happening::HasWaited { time } => self.have_waited(time),
            Happening::Late { by } => {
                self.late = self.late.saturating_add(1);
                self.latest = self.latest.max(by);
            }
        }
    }
}
