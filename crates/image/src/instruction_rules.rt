//! The rules of instructions: operands, jumps, names and depths (docs/FORMATS.md, "Well-formed images", 43 to 46).
ghost use Rattle.std.specs.Prelude.{◌≡◌, ◌+◌, ◌<◌};
ghost use Rattle.std.specs.Prelude.{◌||◌, ◌-◌, ◌^◌};
ghost use Rattle.std.specs.List.{list_all};
ghost use Rattle.image.specs.Operations.{called};
ghost use Rattle.image.specs.Sections.{holder_number};
ghost use Rattle.image.specs.Rules.{all_begun, all_placed, same_number, some_and, calls_inside, has_body, covers_places, has_depth, has_effect, has_entry, has_object, has_region, has_word, in_holder, is_closed, is_external, is_plain, is_row_within, jumps_within, operands_in_range, jumps_stay_inside, named_things_exist, depths_agree, keeps_depth, leaves_depth, where_ends, names_things, writes_region};

use crate::{Draft, Instr, Kind, Object, Operation, Parts, Region, Subprogram, Task};
use handlers::Row;

impl Kind {
    // A call inside an object: from a procedure or entry body to its procedures and functions, and from a function to functions.
    fn calls_inside(&self, called: &Kind) -> bool
        ensures { result ≡ calls_inside self.now called.now }
    {
        match (self, called) {
            (
                Kind::ProtectedProcedure(own) | Kind::EntryBody(own),
                Kind::ProtectedProcedure(other) | Kind::ProtectedFunction(other),
            )
            | (Kind::ProtectedFunction(own), Kind::ProtectedFunction(other)) => own == other,
            _ => false,
        }
    }

    fn is_plain(&self) -> bool
        ensures { result ≡ is_plain self.now }
    {
        matches!(self, Kind::Plain)
    }

    // Whether another object's code, or none, may call it.
    fn is_external(&self) -> bool
        ensures { result ≡ is_external self.now }
    {
        matches!(
            self,
            Kind::ProtectedProcedure(_) | Kind::ProtectedFunction(_)
        )
    }
}

impl Subprogram {
    /// Whether the region is there in the subprogram (45): region 2 needs an object.
    pub fn has_region(&self, region: Region) -> bool
        ensures { result ≡ has_region self.now region }
    {
        match region {
            Region::Locals | Region::Plain => true,
            Region::Object => self.kind.object().is_some(),
        }
    }

    fn writes_region(&self, region: Region) -> bool
        ensures { result ≡ writes_region self.now region }
    {
        match region {
            Region::Locals | Region::Plain => true,
            Region::Object => self.kind.writes_object(),
        }
    }
}

impl Parts {
    pub(crate) fn operands_in_range(&self) -> bool
        ensures { result ≡ operands_in_range self.now }
    {
        self.instructions.iter().all(|x| x.operation.has_operands())
    }

    // Whether no handler's region is empty.
    fn all_cover_places(&self) -> bool
        ensures { result ≡ list_all covers_places self.now.rows }
    {
        self.rows.iter().all(|r| r.start < r.end_)
    }

    fn all_closed(&self) -> bool
        ensures { result ≡ list_all (is_closed self.now) self.now.subprograms }
    {
        self.subprograms.iter().all(|s| self.is_closed(s))
    }

    /// Whether the last instruction of a subprogram lets no other follow (44).
    pub fn is_closed(&self, s: &Subprogram) -> bool
        ensures { result ≡ is_closed self.now s.now }
    {
        let last = usize::from(s.end_.saturating_sub(1));
        self.instructions
            .get(last)
            .is_some_and(|x| !x.operation.goes_on())
    }

    fn all_have_objects(&self) -> bool
        ensures { result ≡ list_all (has_object self.now) self.now.subprograms }
    {
        self.subprograms.iter().all(|s| self.has_object(s))
    }

    fn all_have_entries(&self) -> bool
        ensures { result ≡ list_all (has_entry self.now) self.now.objects }
    {
        self.objects.iter().all(|o| self.has_entry(o))
    }

    fn all_have_bodies(&self) -> bool
        ensures { result ≡ list_all (has_body self.now) self.now.tasks }
    {
        self.tasks.iter().all(|t| self.has_body(t))
    }

    /// Whether the object that a subprogram belongs to, if any, is there (45).
    pub fn has_object(&self, s: &Subprogram) -> bool
        ensures { result ≡ has_object self.now s.now }
    {
        match s.kind.object() {
            None => true,
            Some(object) => usize::from(object) < self.objects.len(),
        }
    }

    fn has_entry(&self, o: &Object) -> bool
        ensures { result ≡ has_entry self.now o.now }
    {
        match o.entry() {
            None => true,
            Some(entry) => usize::from(entry) < self.subprograms.len(),
        }
    }

    fn has_body(&self, t: &Task) -> bool
        ensures { result ≡ has_body self.now t.now }
    {
        usize::from(t.subprogram) < self.subprograms.len()
    }

    // Whether the address is a word of the subprogram's object.
    fn has_word(&self, s: &Subprogram, address: u16) -> bool
        ensures { result ≡ has_word self.now s.now address }
    {
        match s.kind.object() {
            None => false,
            Some(object) => match self.objects.get(usize::from(object)) {
                None => false,
                Some(o) => usize::from(address) < o.words().len(),
            },
        }
    }

    /// Whether what an operation names is there, and may be used so in this subprogram (45).
    pub fn names_things(&self, s: &Subprogram, operation: &Operation) -> bool
        ensures { result ≡ names_things self.now s.now operation.now }
    {
        match operation {
            Operation::LoadLocal(a) | Operation::StoreLocal(a) => *a < s.locals,
            Operation::LoadPlain(a) | Operation::StorePlain(a) => {
                usize::from(*a) < self.plain_words.len()
            }
            Operation::LoadObject(a) => self.has_word(s, *a),
            Operation::StoreObject(a) => self.has_word(s, *a) && s.kind.writes_object(),
            Operation::LoadIndexed(region) | Operation::LoadBlock { region, .. } => {
                s.has_region(*region)
            }
            Operation::StoreIndexed(region) | Operation::StoreBlock { region, .. } => {
                s.writes_region(*region)
            }
            Operation::Copy { target, source, .. } => {
                s.writes_region(*target) && s.has_region(*source)
            }
            Operation::Call(number) => self.may_call(s, *number),
            Operation::ProtectedCall(number) => match self.called(*number) {
                None => false,
                Some(c) => c.kind.is_external(),
            },
            Operation::EntryCall(object) => self.entry_called(*object).is_some(),
            Operation::PutLine(label) => usize::from(*label) < self.labels.len(),
            Operation::Push(_)
            | Operation::Drop
            | Operation::Duplicate
            | Operation::Negate
            | Operation::Absolute
            | Operation::Add
            | Operation::Subtract
            | Operation::Multiply
            | Operation::Divide
            | Operation::Modulo
            | Operation::Remainder
            | Operation::CheckRange
            | Operation::Equal
            | Operation::NotEqual
            | Operation::Less
            | Operation::LessOrEqual
            | Operation::Greater
            | Operation::GreaterOrEqual
            | Operation::And
            | Operation::Or
            | Operation::ExclusiveOr
            | Operation::Not
            | Operation::Jump(_)
            | Operation::JumpIfZero(_)
            | Operation::JumpIfNotZero(_)
            | Operation::Return
            | Operation::Raise
            | Operation::CheckBlocking
            | Operation::DelayUntil
            | Operation::ReadInput
            | Operation::Clock => true,
        }
    }

    fn may_call(&self, s: &Subprogram, number: u16) -> bool
        ensures { result ≡ some_and (called self.now number) (λ c. is_plain c.kind || calls_inside s.now.kind c.kind) }
    {
        match self.called(number) {
            None => false,
            Some(c) => c.kind.is_plain() || s.kind.calls_inside(&c.kind),
        }
    }

    fn all_targets_at_one(&self) -> bool
        ensures { result ≡ list_all (λ r. has_depth self.now r.target 1) self.now.rows }
    {
        self.rows
            .iter()
            .all(|r| self.has_depth(usize::from(r.target), 1))
    }

    // Whether each subprogram begins at depth 0.
    fn begins_empty(&self) -> bool
        ensures { result ≡ all_begun (λ first s. has_depth self.now first 0) 0 self.now.subprograms }
    {
        let mut first = 0;
        for s in &self.subprograms {
            if !self.has_depth(usize::from(first), 0) {
                return false;
            }
            first = s.end_;
        }
        true
    }

    /// Whether the instruction at a place has this depth; it has where none is there (46).
    pub fn has_depth(&self, place: usize, depth: usize) -> bool
        ensures { result ≡ has_depth self.now place depth }
    {
        match self.instructions.get(place) {
            None => true,
            Some(x) => usize::from(x.depth) == depth,
        }
    }

    fn keeps_depth(&self, place: usize, x: &Instr, s: &Subprogram) -> bool
        requires { place < 2 ^ 64 - 1 }
        ensures { result ≡ keeps_depth self.now place x.now s.now }
    {
        x.depth <= s.stack
            && (!x.operation.is_return() || x.depth == s.results)
            && (!self.has_effect(&x.operation) || self.leaves_depth(place, x, s))
    }

    /// Whether it is known what the operation takes and gives: what it calls is there (46).
    pub fn has_effect(&self, operation: &Operation) -> bool
        ensures { result ≡ has_effect self.now operation.now }
    {
        match operation {
            Operation::Call(number) | Operation::ProtectedCall(number) => {
                self.called(*number).is_some()
            }
            Operation::EntryCall(object) => self.entry_called(*object).is_some(),
            Operation::Push(_)
            | Operation::Drop
            | Operation::Duplicate
            | Operation::LoadLocal(_)
            | Operation::StoreLocal(_)
            | Operation::LoadPlain(_)
            | Operation::StorePlain(_)
            | Operation::LoadObject(_)
            | Operation::StoreObject(_)
            | Operation::LoadIndexed(_)
            | Operation::StoreIndexed(_)
            | Operation::LoadBlock { .. }
            | Operation::StoreBlock { .. }
            | Operation::Copy { .. }
            | Operation::Negate
            | Operation::Absolute
            | Operation::Add
            | Operation::Subtract
            | Operation::Multiply
            | Operation::Divide
            | Operation::Modulo
            | Operation::Remainder
            | Operation::CheckRange
            | Operation::Equal
            | Operation::NotEqual
            | Operation::Less
            | Operation::LessOrEqual
            | Operation::Greater
            | Operation::GreaterOrEqual
            | Operation::And
            | Operation::Or
            | Operation::ExclusiveOr
            | Operation::Not
            | Operation::Jump(_)
            | Operation::JumpIfZero(_)
            | Operation::JumpIfNotZero(_)
            | Operation::Return
            | Operation::Raise
            | Operation::CheckBlocking
            | Operation::DelayUntil
            | Operation::PutLine(_)
            | Operation::ReadInput
            | Operation::Clock => true,
        }
    }

    // Whether the operands are there, and what may follow has the depth that is left.
    fn leaves_depth(&self, place: usize, x: &Instr, s: &Subprogram) -> bool
        requires { place < 2 ^ 64 - 1 }
        ensures { result ≡ leaves_depth self.now place x.now s.now }
    {
        let depth = usize::from(x.depth);
        let taken = self.taken_by(s.results, &x.operation);
        if depth < taken {
            return false;
        }
        let after = depth - taken + self.given_by(&x.operation);
        after <= usize::from(s.stack)
            && (!x.operation.goes_on() || self.has_depth(place + 1, after))
            && match x.operation.jump_target() {
                None => true,
                Some(target) => self.has_depth(usize::from(target), after),
            }
    }
}

impl Draft {
    pub(crate) fn jumps_stay_inside(&self) -> bool
        ensures { result ≡ jumps_stay_inside self.now }
    {
        self.parts.all_cover_places()
            && (!self.parts.has_ends()
                || self.all_jumps_within() && self.parts.all_closed() && self.all_rows_within())
    }

    fn all_jumps_within(&self) -> bool
        ensures { result ≡ all_placed (jumps_within self.now) 0 self.now.instructions }
    {
        for (place, x) in self.parts.instructions.iter().enumerate() {
            if !self.jumps_within(place, x) {
                return false;
            }
        }
        true
    }

    fn all_rows_within(&self) -> bool
        ensures { result ≡ list_all (is_row_within self.now) self.now.rows }
    {
        self.parts.rows.iter().all(|r| self.is_row_within(r))
    }

    /// Whether an instruction that jumps stays in the subprogram that holds its place (44).
    pub fn jumps_within(&self, place: usize, x: &Instr) -> bool
        ensures { result ≡ jumps_within self.now place x.now }
    {
        match x.operation.jump_target() {
            None => true,
            Some(target) => self.share_holder(place, usize::from(target)),
        }
    }

    // Whether one subprogram holds both places.
    fn share_holder(&self, place: usize, other: usize) -> bool
        ensures { result ≡ same_number (holder_number self.now.subprograms place) (holder_number self.now.subprograms other) }
    {
        match (self.holder_number(place), self.holder_number(other)) {
            (Some(m), Some(n)) => m == n,
            _ => false,
        }
    }

    /// Whether one subprogram holds a handler's region and its target (44).
    pub fn is_row_within(&self, r: &Row) -> bool
        ensures { result ≡ is_row_within self.now r.now }
    {
        let start = usize::from(r.start);
        let last = usize::from(r.end_.saturating_sub(1));
        self.share_holder(start, last) && self.share_holder(start, usize::from(r.target))
    }

    pub(crate) fn named_things_exist(&self) -> bool
        ensures { result ≡ named_things_exist self.now }
    {
        (!self.parts.has_ends() || self.all_name_things())
            && self.parts.all_have_objects()
            && self.parts.all_have_entries()
            && self.parts.all_have_bodies()
    }

    fn all_name_things(&self) -> bool
        ensures { result ≡ all_placed (λ place x. in_holder self.now place (λ s. names_things self.now s x.operation)) 0 self.now.instructions }
    {
        for (place, x) in self.parts.instructions.iter().enumerate() {
            if !self.names_at(place, x) {
                return false;
            }
        }
        true
    }

    fn names_at(&self, place: usize, x: &Instr) -> bool
        ensures { result ≡ in_holder self.now place (λ s. names_things self.now s x.now.operation) }
    {
        match self.holder(place) {
            None => false,
            Some(s) => self.parts.names_things(&s, &x.operation),
        }
    }

    pub(crate) fn depths_agree(&self) -> bool
        ensures { result ≡ depths_agree self.now }
    {
        !self.parts.has_ends()
            || self.all_keep_depth() && self.parts.begins_empty() && self.parts.all_targets_at_one()
    }

    fn all_keep_depth(&self) -> bool
        ensures { result ≡ all_placed (λ place x. in_holder self.now place (keeps_depth self.now place x)) 0 self.now.instructions }
    {
        for (place, x) in self.parts.instructions.iter().enumerate() {
            if !self.keeps_depth_at(place, x) {
                return false;
            }
        }
        true
    }

    fn keeps_depth_at(&self, place: usize, x: &Instr) -> bool
        requires { place < 2 ^ 64 - 1 }
        ensures { result ≡ in_holder self.now place (keeps_depth self.now place x.now) }
    {
        match self.holder(place) {
            None => false,
            Some(s) => self.parts.keeps_depth(place, x, &s),
        }
    }
}
