//! Ready tasks in rings, and a mask of those that hold somebody.
ghost use Rattle.std.specs.Prelude.{◌≡◌, ◌<◌, [], get_or};
ghost use Rattle.base.specs.declared.limits.TheConstants.{PRIORITIES};

use crate::ready::Ready;
use crate::ring::Ring;
use base::limits::PRIORITIES;
use std::marker::Model;

/// A ring for each priority, and in one mask the bit of each priority whose ring holds somebody.
#[derive(Drop)]
pub struct RingReady {
    rings: [Ring; PRIORITIES],
    occupied: u32,
}

impl Model for RingReady {
    ghost use Rattle.std.specs.Prelude.{◌≡◌, ℕ, List, length};
    ghost use Rattle.base.specs.declared.limits.TheConstants.{PRIORITIES};
    ghost use Rattle.dispatch.specs.Rings.{IsMask};

    ghost Value = { List (List ℕ) };

    ghost view = { λ r. r.rings };

    ghost invariant = { λ r. (length r.rings ≡ PRIORITIES) × IsMask r.occupied r.rings };
}

impl Ready for RingReady {
    ghost use Rattle.std.specs.Prelude.{get_or, []};

    ghost queues = { λ r p. get_or r p [] };

    fn new() -> Self {
        RingReady {
            rings: Default::default(),
            occupied: 0,
        }
    }

    fn add_tail(&mut self, task: u8, priority: u8) {
        self.rings[usize::from(priority)].push_back(task);
        self.occupied |= 1 << priority;
    }

    fn add_head(&mut self, task: u8, priority: u8) {
        self.rings[usize::from(priority)].push_front(task);
        self.occupied |= 1 << priority;
    }

    fn highest(&self) -> Option<u8> {
        if self.occupied == 0 {
            return None;
        }
        Some((u32::BITS - 1 - self.occupied.leading_zeros()) as u8)
    }

    fn take_highest(&mut self) -> Option<u8> {
        let priority = self.highest()?;
        let ring = &mut self.rings[usize::from(priority)];
        let task = ring.pop_front();
        if !ring.is_occupied() {
            self.occupied &= !(1 << priority);
        }
        task
    }
}
