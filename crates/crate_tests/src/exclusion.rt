//! Whether exclusion holds in the world of a machine, as a caller of its public functions sees it.
use base::limits::ACTOR;
use clock::Delays;
use dispatch::Ready;
use machine::{Machine, TaskState};

/// Whether a task is inside some object.
pub fn is_inside_any<R: Ready, D: Delays>(machine: &Machine<'_, R, D>, task: u8) -> bool {
    (0..machine.objects()).any(|object| machine.inside(object).as_slice().contains(&task))
}

/// Whether a task of this active priority may be ready: none above the one that runs may (RM D.2.1).
pub fn may_be_ready<R: Ready, D: Delays>(machine: &Machine<'_, R, D>, priority: u8) -> bool {
    match machine.running() {
        None => false,
        Some(runner) => priority <= machine.active(runner),
    }
}

/// Whether a task is where exclusion lets it be. Within actions it runs or is ready, at a priority of its own (RM D.3, H.5);
/// where its call waits the barrier is closed or somebody is inside (RM 9.5.3).
pub fn stands<R: Ready, D: Delays>(machine: &Machine<'_, R, D>, task: u8) -> bool {
    let state = machine.state(task);
    let priority = machine.active(task);
    if is_inside_any(machine, task) {
        let shared = (0..task.min(machine.tasks())).any(|other| {
            is_inside_any(machine, other) && machine.active(other) == priority
        });
        if shared || !matches!(state, TaskState::Running | TaskState::Ready) {
            return false;
        }
    }
    match state {
        TaskState::Ready => may_be_ready(machine, priority),
        TaskState::Queued(object) => {
            !machine.barrier(object) || !machine.inside(object).is_empty()
        }
        _ => true,
    }
}

/// Whether exclusion holds: one task inside an object at most (RM 9.5.1), and each is where it may be, the handler of an interrupt among them.
pub fn excludes<R: Ready, D: Delays>(machine: &Machine<'_, R, D>) -> bool {
    for object in 0..machine.objects() {
        if 1 < machine.inside(object).len() {
            return false;
        }
    }
    for task in 0..machine.tasks() {
        if !stands(machine, task) {
            return false;
        }
    }
    stands(machine, ACTOR)
}
