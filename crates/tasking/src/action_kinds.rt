//! What the open actions of tasks, and of the handler that runs, are for, row by row.
ghost use Rattle.std.specs.Prelude.{◌≡◌, ◌-◌, ◌<◌, ◌≤◌, ◌++◌, ◌∷◌, [], length, map, set, slice_get, take};
ghost use Rattle.base.specs.declared.limits.TheConstants.{OBJECTS, TASKS};
ghost use Rattle.tasking.specs.Held.{kinds_at};
ghost use Rattle.tasking.specs.declared.reports.Kind.TheVariants.{Serves};

use crate::reports::Kind;
use arrayvec::ArrayVec;
use base::limits::{OBJECTS, TASKS};

// An action of this kind is opened in a row.
pub(crate) fn open_kind(kinds: &mut [ArrayVec<Kind, OBJECTS>; TASKS + 1], row: usize, kind: Kind)
    requires row { row ≤ TASKS }
    requires there { row < length (map (λ l. l.items) kinds.old) }
    requires room { length (kinds_at (map (λ l. l.items) kinds.old) row) < OBJECTS }
    ensures { map (λ l. l.items) kinds.new ≡ set (map (λ l. l.items) kinds.old) row (kinds_at (map (λ l. l.items) kinds.old) row ++ kind ∷ []) }
{
    kinds[row].push(kind);
}

// The innermost action of a row is closed.
pub(crate) fn close_kind(kinds: &mut [ArrayVec<Kind, OBJECTS>; TASKS + 1], row: usize)
    requires row { row ≤ TASKS }
    requires there { row < length (map (λ l. l.items) kinds.old) }
    ensures { let rows = map (λ l. l.items) kinds.old in let ks = kinds_at rows row in map (λ l. l.items) kinds.new ≡ set rows row (take (length ks - 1) ks) }
{
    kinds[row].pop();
}

// The innermost action of a row serves the call of a task from now on.
pub(crate) fn serve_kind(kinds: &mut [ArrayVec<Kind, OBJECTS>; TASKS + 1], row: usize, caller: u8)
    requires row { row ≤ TASKS }
    requires there { row < length (map (λ l. l.items) kinds.old) }
    requires room { let ks = kinds_at (map (λ l. l.items) kinds.old) row in length (take (length ks - 1) ks) < OBJECTS }
    ensures { let rows = map (λ l. l.items) kinds.old in let ks = kinds_at rows row in map (λ l. l.items) kinds.new ≡ set rows row
        (take (length ks - 1) ks ++ Serves caller ∷ []) }
{
    let kinds_here = &mut kinds[row];
    kinds_here.pop();
    kinds_here.push(Kind::Serves(caller));
}

// The kind of the innermost action of a row, if one is open.
pub(crate) fn innermost_kind(
    kinds: &[ArrayVec<Kind, OBJECTS>; TASKS + 1],
    row: usize,
) -> Option<Kind>
    requires row { row ≤ TASKS }
    requires there { row < length (map (λ l. l.items) kinds.now) }
    ensures { let ks = kinds_at (map (λ l. l.items) kinds.now) row in result ≡ slice_get ks (length ks - 1) }
{
    kinds[row].last().copied()
}

// Copies of the kinds of all rows.
pub(crate) fn copied_kinds(
    kinds: &[ArrayVec<Kind, OBJECTS>; TASKS + 1],
) -> [ArrayVec<Kind, OBJECTS>; TASKS + 1]
    ensures { map (λ l. l.items) result ≡ map (λ l. l.items) kinds.now }
{
    let mut copies: [ArrayVec<Kind, OBJECTS>; TASKS + 1] = Default::default();
    restore_kinds(&mut copies, kinds);
    copies
}

// The kinds of all rows become as others are.
pub(crate) fn restore_kinds(
    kinds: &mut [ArrayVec<Kind, OBJECTS>; TASKS + 1],
    others: &[ArrayVec<Kind, OBJECTS>; TASKS + 1],
)
    ensures { map (λ l. l.items) kinds.new ≡ map (λ l. l.items) others.now }
{
    for row in 0..TASKS + 1 {
        put_kinds(kinds, row, others[row].as_slice());
    }
}

// The kinds of a row become these.
fn put_kinds(kinds: &mut [ArrayVec<Kind, OBJECTS>; TASKS + 1], row: usize, list: &[Kind])
    requires row { row ≤ TASKS }
    requires few { length list.now ≤ OBJECTS }
    ensures { map (λ l. l.items) kinds.new ≡ set (map (λ l. l.items) kinds.old) row list.now }
{
    let place = &mut kinds[row];
    place.clear();
    match place.try_extend_from_slice(list) {
        Ok(()) => {}
        Err(_) => unreachable!(),
    }
}
