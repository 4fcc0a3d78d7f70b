//! Images with changed bytes: each is refused, or is written as the bytes that it was loaded from, both pairs of keepers do the same with it,
//! and exclusion holds after each step.
ghost use Rattle.std.specs.Prelude.{◌≡◌};

use crate::exclusion::excludes;
use crate::worked_images::worked_images;
use clock::{HeapDelays, ListDelays, Schedule};
use dispatch::{ListReady, RingReady};
use image::Image;
use image_format::encode;
use image_loading::load;
use machine::{Event, Machine, Steps};
use std::alloc::{AllocError, Global};
use std::marker::Brand;
use std::sync::ledger::{Blank, Ledger};
use std::test::Fail;

fn are_same(left: &Event, right: &Event) -> bool {
    match (left, right) {
        (Event::Quiet, Event::Quiet) => true,
        (Event::Line(left), Event::Line(right)) => left.as_slice() == right.as_slice(),
        (Event::Done(left), Event::Done(right)) => left == right,
        _ => false,
    }
}

// Whether both machines do the same in their next steps, up to an outcome, and exclusion holds after each.
fn go_on_alike<L: Ledger>(
    rt: &HostRuntime,
    rings: &mut Machine<'_, RingReady, HeapDelays>,
    lists: &mut Machine<'_, ListReady, ListDelays>,
    limit: u16,
    blank: Blank,
) -> bool
    requires name { blank.name ≡ L.name }
    requires parts { blank.parts ≡ L.parts }
    requires one { L.parts ≡ 1 }
{
    let mut steps = Steps::<L>::new(rt, blank);
    for _ in 0..limit {
        let event = rings.step(&mut steps);
        if !are_same(&event, &lists.step(&mut steps)) || !excludes(rings) || !excludes(lists) {
            return false;
        }
        if let Event::Done(_) = event {
            return true;
        }
    }
    true
}

// Whether an image does the same over both pairs of keepers.
fn runs_alike(rt: &HostRuntime, image: &Image, schedule: &Schedule) -> bool {
    let alloc = rt.alloc();
    match Machine::start(alloc, image, schedule) {
        Ok(mut rings) => match Machine::start(alloc, image, schedule) {
            Ok(mut lists) => go_on_alike::<Brand>(rt, &mut rings, &mut lists, 1_000, Blank::new(1)),
            Err(_) => false,
        },
        Err(_) => false,
    }
}

// Whether bytes are refused by a rule of images, or are those of the image that they are loaded as, which runs alike.
fn is_refused_or_alike(rt: &HostRuntime, bytes: &[u8], schedule: &Schedule) -> bool {
    let alloc = rt.alloc();
    match load(alloc, bytes) {
        Err(fault) => 40 <= fault.number && fault.number <= 47,
        Ok(image) => match encode(alloc, &image) {
            Ok(again) => again.as_slice() == bytes && runs_alike(rt, &image, schedule),
            Err(_) => false,
        },
    }
}

// The bytes with another one at a place.
fn changed(alloc: Global, bytes: &[u8], at: usize, value: u8) -> Result<Vec<u8>, AllocError> {
    let mut all = bytes.to_vec(alloc)?;
    if let Some(byte) = all.get_mut(at) {
        *byte = value;
    }
    Ok(all)
}

// Whether they are so with each byte changed by each number up to this one, 0 for no change.
fn are_all_refused_or_alike(
    rt: &HostRuntime,
    bytes: &[u8],
    schedule: &Schedule,
    most: u8,
) -> Result<bool, AllocError> {
    for (at, byte) in bytes.iter().enumerate() {
        for change in 0..=most {
            let other = changed(rt.alloc(), bytes, at, *byte ^ change)?;
            if !is_refused_or_alike(rt, &other, schedule) {
                return Ok(false);
            }
        }
    }
    Ok(true)
}

// Each byte of the first three images becomes each other one.
#[test]
fn exclusion_holds_whatever_byte_is_changed(rt: HostRuntime) -> Result<(), Fail> {
    let alloc = rt.alloc();
    let schedule = Schedule::read(alloc, b"500 1 7\n").expect(&rt, "a schedule");
    for (number, (bytes, _)) in worked_images().iter().enumerate() {
        let most = if number < 3 { 255 } else { 3 };
        assert!(rt;
            are_all_refused_or_alike(&rt, bytes, &schedule, most)?,
            "image {number}"
        );
    }
    Ok(())
}
