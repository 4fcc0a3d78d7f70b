//! Sleeping and ready tasks by each keeper of them, also where a heap numbers its sleepers anew (RM D.2.1, D.8).
ghost use Rattle.std.specs.Prelude.{◌≡◌, ℕ, []};

use clock::{Delays, HeapDelays, ListDelays};
use dispatch::{ListReady, Ready, RingReady};
use std::test::Fail;

// Whether sleepers wake in their order, over any keeper of them that is empty.
fn wakes_in_order<D: Delays + Drop>(mut delays: D) -> bool
    requires { D.sleepers delays ≡ [] }
{
    let none = delays.next_time();
    delays.add(3, 50);
    delays.add(1, 20);
    delays.add(2, 50);
    delays.add(4, 20);
    let first = delays.next_time();
    let two = delays.expire(20);
    let second = delays.next_time();
    let others = delays.expire(60);
    let last = delays.next_time();
    delays.add(5, 30);
    delays.add(6, 10);
    let both = delays.expire(30);
    none.is_none()
        && first == Some(20)
        && two.as_slice() == [1, 4].as_slice()
        && second == Some(50)
        && others.as_slice() == [3, 2].as_slice()
        && last.is_none()
        && both.as_slice() == [5, 6].as_slice()
}

// Whether the head of the highest list is taken, over any keeper of ready tasks that is empty.
fn takes_the_highest<R: Ready + Drop>(mut ready: R) -> bool
    requires { (p : ℕ) → R.queues ready p ≡ [] }
{
    let none = ready.highest();
    ready.add_tail(3, 5);
    ready.add_tail(4, 5);
    ready.add_head(2, 5);
    ready.add_tail(1, 31);
    let highest = ready.highest();
    let taken = [
        ready.take_highest(),
        ready.take_highest(),
        ready.take_highest(),
        ready.take_highest(),
        ready.take_highest(),
    ];
    none.is_none() && highest == Some(31) && taken == [Some(1), Some(2), Some(3), Some(4), None]
}

// A heap's numbers reach the greatest value at once, at the third task, and later at the second.
#[test]
fn keepers_keep_their_order(rt: HostRuntime) -> Result<(), Fail> {
    assert!(rt; wakes_in_order(ListDelays::new()));
    for first in [0, u64::MAX, u64::MAX - 2, u64::MAX - 5] {
        assert!(rt; wakes_in_order(HeapDelays::numbered_from(first)));
    }
    assert!(rt; takes_the_highest(ListReady::new()));
    assert!(rt; takes_the_highest(RingReady::new()));
    Ok(())
}
