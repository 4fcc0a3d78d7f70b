//! The laws of images and their runs: each is what a function without work ensures.
#![tactic(auto)]

ghost use Rattle.image_laws.specs.Laws.{BeginsSound, CodeLeadsOn, EachIsHeld, FitsAlways, FourInEveryWorld, FramesHaveRoom, ImagesHaveSize, KernelKept, LinesGrowOn, LinkedInEveryWorld, OutcomeStays, StepsSound};
ghost use Rattle.image_laws.specs.Whole.{EffectsNamed, LinesUnread, RunnerGoesOn, RunnerOwes, RunnerPasses, RunnerSound, StartsWhole, StepsWhole, UnseenWhole};

use image::Image;
use kernel::laws::{
    begins_kept, entry_opens, four_statements_hold, handlers_go_on, kept_by_every_effect,
    lines_grow, reaches_callers, start_settles, steps_settle,
};

/// At the start the frame of a task's body is at its first instruction, with the locals that the body declares and an empty operand stack.
pub fn begins_sound()
    ensures { BeginsSound }
{}

/// In a well-formed image each step of a task keeps the shape of its frames, whatever the kernel, the schedule and the words:
/// at most 128 frames, each at an instruction of its subprogram with the declared locals, the running one with the operands that its
/// instruction declares, those below waiting at their calls.
pub fn steps_sound()
    ensures { StepsSound }
{}

/// Where a frame is at an instruction, it has its operands, no depth passes what its subprogram declares, and its words fit a frame.
pub fn frames_have_room()
    ensures { FramesHaveRoom }
{}

/// In a well-formed image what an instruction names is there, what may follow it is there, and its words are within a frame; each
/// instruction is of a subprogram; and the counts of instructions, tasks, objects and words are within their limits.
pub fn code_leads_on()
    ensures leads_on { CodeLeadsOn }
    ensures held { EachIsHeld }
    ensures size { ImagesHaveSize }
{}

/// A world that has an outcome does not change.
pub fn outcome_stays()
    ensures { OutcomeStays }
{}

/// The lines of a world begin those of each later world.
pub fn lines_grow_on()
    ensures { LinesGrowOn }
{
    lines_grow();
}

/// In every world of every well-formed image, whatever the schedule and the number of steps, the kernel's invariant holds, with the
/// barriers as the objects' words give them.
pub fn kernel_kept()
    ensures { KernelKept }
{
    begins_kept();
    kept_by_every_effect();
    steps_settle();
    start_settles();
    entry_opens();
    reaches_callers();
    four_statements_hold();
}

/// The four statements of exclusion by ceilings hold in every world of every well-formed image, without a lock: at most one task
/// inside an object (RM 9.5.1), different active priorities within actions and no waiting there (RM D.3, H.5), no ready task above the
/// running one (RM D.2.1), and a call queued only while its barrier is closed or somebody is inside (RM 9.5.3).
pub fn four_in_every_world()
    ensures { FourInEveryWorld }
{
    begins_kept();
    kept_by_every_effect();
    steps_settle();
    start_settles();
    entry_opens();
    reaches_callers();
    four_statements_hold();
}

/// In every world of every well-formed image the open actions of a task are those of its frames, the frames of a task that is not being
/// served have their shape, a queued caller is at its entry call with its parameters, and a served one without them.
pub fn linked_in_every_world()
    ensures { LinkedInEveryWorld }
{
    begins_kept();
    kept_by_every_effect();
    steps_settle();
    start_settles();
    entry_opens();
    reaches_callers();
    four_statements_hold();
}

/// The start of every well-formed image is whole, each step keeps a world whole, and so do steps that no other task notices: the kernel's
/// invariant holds, frames and open actions are linked, and whoever runs, is ready, sleeps or is queued is a task of the image. So the
/// running task's frames have their shape, nothing refuses what they
/// ask of the kernel, who ends an action has room for one more frame and gives what a service owes, and a handler runs on up to its end.
pub fn steps_whole()
    ensures starts { StartsWhole }
    ensures steps { StepsWhole }
    ensures unseen { UnseenWhole }
    ensures runner { RunnerSound }
    ensures owes { RunnerOwes }
    ensures passes { RunnerPasses }
    ensures goes_on { RunnerGoesOn }
{
    begins_kept();
    kept_by_every_effect();
    steps_settle();
    start_settles();
    entry_opens();
    reaches_callers();
    four_statements_hold();
    handlers_go_on();
}

/// What a step asks of the kernel speaks of objects of the image alone.
pub fn effects_named()
    ensures { EffectsNamed }
{}

/// What a step does depends on no line that was written.
pub fn lines_unread()
    ensures { LinesUnread }
{}

/// Words, now and wake times are in 64 bits in every world of an image, under every schedule whose values are, since an image's
/// constants and initial words are `i64`. It reads them and does nothing else.
pub fn fits_64_bits(image: &Image)
    ensures { FitsAlways image.now }
{
    image.words_fit();
}
