//! Runs an image step by step and asks at its start and after each step whether exclusion holds: exclusion_main IMAGE SCHEDULE LIMIT.
#![tactic(auto)]

ghost use Rattle.std.specs.Prelude.{◌≡◌};

use base::faults::MEMORY_REFUSED;
use clock::{HeapDelays, Schedule};
use crate_tests::exclusion::excludes;
use dispatch::RingReady;
use image::Image;
use image_loading::load;
use machine::{Event, Machine, Steps};
use std::io::{self, ErrorKind};
use std::marker::Brand;
use std::process::ExitCode;
use std::sync::ledger::{Blank, Ledger};
use std::{env, fs};

/// What the exit status reports of a run.
#[derive(Clone, Copy)]
enum Status {
    /// Exclusion held at the start and after each step.
    Held = 0,
    /// It did not, at the start or after the last step that was taken.
    Broken = 1,
    /// The words are wrong, or a file can't be read or written.
    Failed = 2,
    /// The image is refused.
    ImageRefused = 6,
    /// The schedule is refused.
    ScheduleRefused = 7,
    /// Memory was refused.
    NoMemory = 8,
}

/// How many steps were taken, and whether exclusion held all the time.
#[derive(Clone, Copy)]
struct Watched {
    steps: u64,
    holds: bool,
}

// Takes at most this many steps, up to an outcome or to the first one behind which exclusion doesn't hold.
fn watch<L: Ledger>(
    rt: &HostRuntime,
    machine: &mut Machine<'_, RingReady, HeapDelays>,
    limit: u64,
    blank: Blank,
) -> Watched
    requires name { blank.name ≡ L.name }
    requires parts { blank.parts ≡ L.parts }
    requires one { L.parts ≡ 1 }
{
    let mut counter = Steps::<L>::new(rt, blank);
    let mut steps = 0;
    let mut holds = excludes(machine);
    for taken in 0..limit {
        if !holds {
            break;
        }
        let event = machine.step(&mut counter);
        steps = taken + 1;
        holds = excludes(machine);
        if let Event::Done(_) = event {
            break;
        }
    }
    Watched { steps, holds }
}

// The status of a run that was told of.
fn tell(rt: &HostRuntime, watched: Watched) -> io::Result<Status> {
    let steps = watched.steps;
    if watched.holds {
        println!(rt; "held after {steps} steps")?;
        Ok(Status::Held)
    } else {
        println!(rt; "broken after {steps} steps")?;
        Ok(Status::Broken)
    }
}

// The status of a refusal, where memory that was wanting is one.
fn refused(number: u8, status: Status) -> Status {
    if number == MEMORY_REFUSED {
        Status::NoMemory
    } else {
        status
    }
}

// The status of a run of the image.
fn status_of_run(
    rt: &HostRuntime,
    image: &Image,
    schedule: &Schedule,
    limit: u64,
) -> io::Result<Status> {
    match Machine::start(rt.alloc(), image, schedule) {
        Ok(mut machine) => tell(rt, watch::<Brand>(rt, &mut machine, limit, Blank::new(1))),
        Err(_) => Ok(Status::NoMemory),
    }
}

// The status of a run of these bytes on this schedule.
fn status_of_bytes(rt: &HostRuntime, bytes: &[u8], lines: &[u8], limit: u64) -> io::Result<Status> {
    match load(rt.alloc(), bytes) {
        Ok(image) => match Schedule::read(rt.alloc(), lines) {
            Ok(schedule) => status_of_run(rt, &image, &schedule, limit),
            Err(fault) => Ok(refused(fault.number, Status::ScheduleRefused)),
        },
        Err(fault) => Ok(refused(fault.number, Status::ImageRefused)),
    }
}

// The status of a run that the words of the command line ask for.
fn status_of_words(rt: &HostRuntime) -> io::Result<Status> {
    let mut words = Vec::new(rt.alloc());
    for word in env::args(rt)?.skip(1) {
        words.push(word)?;
    }
    let [image, schedule, limit] = words.as_slice() else {
        return Ok(Status::Failed);
    };
    let Ok(limit) = limit.parse::<u64>() else {
        return Ok(Status::Failed);
    };
    let bytes = fs::read(rt, image.as_str())?;
    let lines = fs::read(rt, schedule.as_str())?;
    status_of_bytes(rt, &bytes, &lines, limit)
}

fn main(rt: HostRuntime) -> ExitCode {
    let status = match status_of_words(&rt) {
        Ok(status) => status,
        Err(error) => match error.kind() {
            ErrorKind::OutOfMemory => Status::NoMemory,
            _ => Status::Failed,
        },
    };
    ExitCode::from(status as u8)
}
