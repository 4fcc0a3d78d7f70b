//! Worked images write the same lines over lists as over rings and a heap.
ghost use Rattle.std.specs.Prelude.{◌≡◌};

use crate::worked_images::worked_images;
use clock::{HeapDelays, ListDelays, Schedule};
use dispatch::{ListReady, RingReady};
use image::Image;
use image_loading::load;
use machine::{MemorySink, Plan, Steps, run_over};
use std::alloc::AllocError;
use std::marker::Brand;
use std::sync::ledger::{Blank, Ledger};
use std::test::Fail;

/// What one image writes over lists, and over rings and a heap.
#[derive(Drop)]
struct Written {
    lists: Vec<u8>,
    rings: Vec<u8>,
}

/// Runs an image over both pairs of keepers.
fn run_both(rt: &HostRuntime, image: &Image, schedule: &Schedule) -> Result<Written, AllocError> {
    run_both_over::<Brand, Brand, Brand>(
        rt,
        image,
        schedule,
        Blank::new(1),
        Blank::new(1),
        Blank::new(1),
    )
}

fn run_both_over<L: Ledger, M: Ledger, N: Ledger>(
    rt: &HostRuntime,
    image: &Image,
    schedule: &Schedule,
    first: Blank,
    second: Blank,
    third: Blank,
) -> Result<Written, AllocError>
    requires first_name { first.name ≡ L.name }
    requires first_parts { first.parts ≡ L.parts }
    requires first_one { L.parts ≡ 1 }
    requires second_name { second.name ≡ M.name }
    requires second_parts { second.parts ≡ M.parts }
    requires second_one { M.parts ≡ 1 }
    requires third_name { third.name ≡ N.name }
    requires third_parts { third.parts ≡ N.parts }
    requires third_one { N.parts ≡ 1 }
{
    let alloc = rt.alloc();
    let mut steps = Steps::<N>::new(rt, third);
    let mut lists = MemorySink::<L>::new(alloc, 4_096, Plan::TakesAll, first)?;
    let mut rings = MemorySink::<M>::new(alloc, 4_096, Plan::TakesAll, second)?;
    let _ = run_over::<ListReady, ListDelays, MemorySink<L>, N>(
        alloc, image, schedule, 100_000, &mut lists, &mut steps,
    );
    let _ = run_over::<RingReady, HeapDelays, MemorySink<M>, N>(
        alloc, image, schedule, 100_000, &mut rings, &mut steps,
    );
    Ok(Written {
        lists: lists.bytes().to_vec(alloc)?,
        rings: rings.bytes().to_vec(alloc)?,
    })
}

#[test]
fn worked_images_write_their_lines(rt: HostRuntime) -> Result<(), Fail> {
    let alloc = rt.alloc();
    let schedule = Schedule::read(alloc, b"500 1 7\n").expect(&rt, "a schedule");
    for (bytes, lines) in worked_images() {
        let image = load(alloc, bytes).expect(&rt, "an image");
        let written = run_both(&rt, &image, &schedule)?;
        assert!(rt; written.lists.as_slice() == *lines);
        assert!(rt; written.rings.as_slice() == *lines);
    }
    Ok(())
}
