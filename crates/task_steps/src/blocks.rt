//! Block moves: words between the operand stack and a region, and from region to region. All are read before one is written.
ghost use Rattle.std.specs.Prelude.{◌≡◌, ◌+◌, ◌<◌, ◌≤◌, IfSome, drop, length, take};
ghost use Rattle.base.specs.declared.limits.TheConstants.{WORDS};
ghost use Rattle.image.specs.Frames.{region_words, words_at, words_put};
ghost use Rattle.image.specs.declared.instruction.Operation.TheVariants as operations;
ghost use Rattle.image_laws.specs.Room.{widest};
ghost use Rattle.processor.specs.Decoding.{with_block, words_in};
ghost use Rattle.task_steps.specs.Stepping.{Does, PutsWords, IsReadyFor, IsBlockKept, Put, block_at};

use crate::acts::{Act, Effect};
use crate::kernel_steps::operand;
use crate::lookups::own_object;
use crate::memory::Memory;
use image::Region;
use image_laws::code_leads_on;
use processor::{Program, TaskState};

/// LDB.
pub(crate) fn load_block(
    program: &Program,
    state: &mut TaskState,
    memory: &mut Memory,
    region: Region,
    count: u16,
) -> Act
    requires here { IsReadyFor program.now state.old.task (operations.LoadBlock region count) }
    requires width { state.old.width ≡ widest program.now }
    ensures does { Does program.now (operations.LoadBlock region count) state.old.task memory.old result memory.new state.new.task }
    ensures width { state.new.width ≡ state.old.width }
{
    let index = operand(state, 0);
    if !keep_block(program, state, memory, region, index, count) {
        return Act::of(Effect::Breaks);
    }
    state.drop_top(1);
    state.push_all(memory.passed());
    state.advance();
    Act::of(Effect::Quiet)
}

/// STB.
pub(crate) fn store_block(
    program: &Program,
    state: &mut TaskState,
    memory: &mut Memory,
    region: Region,
    count: u16,
) -> Act
    requires { IsReadyFor program.now state.old.task (operations.StoreBlock region count) }
    ensures does { Does program.now (operations.StoreBlock region count) state.old.task memory.old result memory.new state.new.task }
    ensures width { state.new.width ≡ state.old.width }
{
    let index = operand(state, count);
    memory.keep(state.top(count));
    if !put_block(program, state, memory, region, index) {
        return Act::of(Effect::Breaks);
    }
    state.drop_top(count + 1);
    state.advance();
    Act::of(Effect::Quiet)
}

/// CPY.
pub(crate) fn copy(
    program: &Program,
    state: &mut TaskState,
    memory: &mut Memory,
    target: Region,
    source: Region,
    count: u16,
) -> Act
    requires { IsReadyFor program.now state.old.task (operations.Copy target source count) }
    ensures does { Does program.now (operations.Copy target source count) state.old.task memory.old result memory.new state.new.task }
    ensures width { state.new.width ≡ state.old.width }
{
    let from = operand(state, 0);
    let to = operand(state, 1);
    if !keep_block(program, state, memory, source, from, count)
        || !put_block(program, state, memory, target, to)
    {
        return Act::of(Effect::Breaks);
    }
    state.drop_top(2);
    state.advance();
    Act::of(Effect::Quiet)
}

// Where a block from an index on begins that lies among so many words.
fn block_at(words: usize, index: i64, count: usize) -> Option<usize>
    ensures is { result ≡ block_at words index count }
    ensures within { IfSome result (λ at. at + count ≤ words) }
{
    match usize::try_from(index) {
        Ok(at) if at <= words && count <= words - at => Some(at),
        _ => None,
    }
}

// The words of a region.
fn region_words<'a>(
    program: &Program,
    state: &'a TaskState,
    memory: &'a Memory,
    region: Region,
) -> &'a [i64]
    ensures { result.now ≡ region_words program.now region (words_in program.now memory.now.shared) state.now.task.frame }
{
    match region {
        Region::Locals => state.locals(),
        Region::Plain => memory.plain_words(program.image()),
        Region::Object => match own_object(program, state) {
            None => &[],
            Some(object) => memory.words_of(program.image(), usize::from(object)),
        },
    }
}

// Keeps a copy of the block of a region from an index on, where it lies inside.
fn keep_block(
    program: &Program,
    state: &TaskState,
    memory: &mut Memory,
    region: Region,
    index: i64,
    count: u16,
) -> bool
    requires { length state.now.task.frame.locals ≤ WORDS }
    ensures shared { memory.new.shared ≡ memory.old.shared }
    ensures kept { IsBlockKept (words_at (region_words program.now region (words_in program.now memory.old.shared) state.now.task.frame) index count)
        result memory.new.passed }
{
    let words = region_words(program, state, memory, region);
    let Some(at) = block_at(words.len(), index, usize::from(count)) else {
        return false;
    };
    keep_words(program, state, memory, region, at, usize::from(count));
    true
}

// Keeps a copy of a block of words from a place on, where it lies inside.
fn keep_words(
    program: &Program,
    state: &TaskState,
    memory: &mut Memory,
    region: Region,
    at: usize,
    count: usize,
)
    requires room { length state.now.task.frame.locals ≤ WORDS }
    requires within { at + count ≤ length (region_words program.now region (words_in program.now memory.old.shared) state.now.task.frame) }
    ensures shared { memory.new.shared ≡ memory.old.shared }
    ensures passed { memory.new.passed ≡ take count (drop at (region_words program.now region (words_in program.now memory.old.shared) state.now.task.frame)) }
{
    match region {
        Region::Locals => memory.keep(&state.locals()[at..at + count]),
        Region::Plain => memory.keep_plain(program.image(), at, count),
        Region::Object => match own_object(program, state) {
            None => memory.keep(&[]),
            Some(object) => memory.keep_object(program.image(), usize::from(object), at, count),
        },
    }
}

// Puts the words that are kept into a region from an index on, where they lie inside.
fn put_block(
    program: &Program,
    state: &mut TaskState,
    memory: &mut Memory,
    region: Region,
    index: i64,
) -> bool
    ensures put { Put program.now region (words_put (region_words program.now region (words_in program.now memory.old.shared) state.old.task.frame) index
        memory.old.passed) result memory.old state.old.task memory.new state.new.task }
    ensures width { state.new.width ≡ state.old.width }
{
    let words = region_words(program, state, memory, region);
    let Some(at) = block_at(words.len(), index, memory.passed().len()) else {
        return false;
    };
    put_words(program, state, memory, region, at);
    true
}

// Puts the words that are kept from a place on, where they lie inside.
fn put_words(
    program: &Program,
    state: &mut TaskState,
    memory: &mut Memory,
    region: Region,
    at: usize,
)
    requires { at + length memory.old.passed ≤ length (region_words program.now region (words_in program.now memory.old.shared) state.old.task.frame) }
    ensures put { PutsWords program.now region (with_block (region_words program.now region (words_in program.now memory.old.shared) state.old.task.frame) at
        memory.old.passed) memory.old state.old.task memory.new state.new.task }
    ensures width { state.new.width ≡ state.old.width }
{
    match region {
        Region::Locals => state.store_locals(at, memory.passed()),
        Region::Plain => memory.put_plain(program.image(), at),
        Region::Object => {
            if let Some(object) = own_object(program, state) {
                memory.put_object(program.image(), usize::from(object), at);
            }
        }
    }
}
