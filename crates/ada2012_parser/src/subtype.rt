//! Reading subtypes and the parts of declarations.
ghost use Rattle.std.specs.Prelude.{IfOk, OnOk, map};
ghost use Rattle.ada2012_tree.specs.Spans.{NoTrees, only, trees_of};
ghost use Rattle.ada2012_tree.specs.ExpressionSpans.{association_spans, expr_spans, identifier_spans, name_spans, range_spans};
ghost use Rattle.ada2012_tree.specs.SubtypeSpans.{array_spans, aspect_spans, component_spans, discrete_spans, formal_spans, indication_spans, object_subtype_spans, optional, pragma_spans, specification_spans};
ghost use Rattle.ada2012_parser.specs.Reading.{AreReadSince, Reads, ReadsSome, here};

use crate::fault::Stop;
use crate::parser::Parser;
use crate::{Expected, LeftOut};
use ada2012_lexer::{Delimiter, TokenKind};
use ada2012_tree::{
    ArrayDefinition, Aspect, Association, Component, DiscreteRange, Expr, Formal, Identifier, Mode,
    Name, ObjectSubtype, Pragma, Range, Specification, SubtypeIndication,
};
use lexer::Word;

// The mode that is written so.
fn mode_of(reads: bool, writes: bool) -> Mode {
    match (reads, writes) {
        (true, true) => Mode::InOut,
        (false, true) => Mode::Out,
        (_, false) => Mode::In,
    }
}

// Lists and what may be left out.
impl<'a> Parser<'a> {
    /// Passes this word if it comes next, and says whether it did.
    pub(crate) fn passes(&mut self, word: Word) -> Result<bool, Stop>
        ensures { OnOk result (Reads (here self.old) self.old self.new NoTrees) }
    {
        if !self.at_word(word) {
            return Ok(false);
        }
        self.word(word)?;
        Ok(true)
    }

    /// Identifiers, one or more, with commas between.
    #[inline(never)]
    pub(crate) fn identifiers(&mut self) -> Result<Vec<Identifier>, Stop>
        ensures { IfOk result (λ all. ReadsSome (here self.old) self.old self.new (trees_of (map identifier_spans all.items))) }
    {
        let mut all = Vec::new(self.alloc);
        let first = self.identifier()?;
        all.push(first)?;
        while self.at_mark(Delimiter::Comma) {
            self.mark(Delimiter::Comma)?;
            let next = self.identifier()?;
            all.push(next)?;
        }
        Ok(all)
    }

    /// Names, one or more, with commas between.
    #[inline(never)]
    pub(crate) fn names(&mut self, levels: u8) -> Result<Vec<Name>, Stop>
        ensures { IfOk result (λ all. ReadsSome (here self.old) self.old self.new (trees_of (map name_spans all.items))) }
    {
        let mut all = Vec::new(self.alloc);
        let first = self.name(levels)?;
        all.push(first)?;
        while self.at_mark(Delimiter::Comma) {
            self.mark(Delimiter::Comma)?;
            let next = self.name(levels)?;
            all.push(next)?;
        }
        Ok(all)
    }

    /// The name after `end`, if there is one.
    #[inline(never)]
    pub(crate) fn end_name(&mut self) -> Result<(), Stop>
        ensures { OnOk result (Reads (here self.old) self.old self.new NoTrees) }
    {
        if !self.at_identifier() {
            return Ok(());
        }
        self.identifier()?;
        while self.at_mark(Delimiter::Dot) {
            self.mark(Delimiter::Dot)?;
            self.identifier()?;
        }
        Ok(())
    }

    /// `:=` and a value, if they are there.
    #[inline(never)]
    pub(crate) fn initial_value(&mut self, levels: u8) -> Result<Option<Expr>, Stop>
        ensures { IfOk result (λ value. Reads (here self.old) self.old self.new (optional expr_spans value)) }
    {
        if !self.at_mark(Delimiter::Assignment) {
            return Ok(None);
        }
        self.mark(Delimiter::Assignment)?;
        let value = self.expression(levels)?;
        Ok(Some(value))
    }
}

// Subtypes.
impl<'a> Parser<'a> {
    /// Two bounds.
    #[inline(never)]
    pub(crate) fn bounds(&mut self, levels: u8) -> Result<Range, Stop>
        ensures { IfOk result (λ range. ReadsSome (here self.old) self.old self.new (only (range_spans range))) }
    {
        let start = self.here();
        let first = self.simple(levels)?;
        self.mark(Delimiter::DoubleDot)?;
        let last = self.simple(levels)?;
        Ok(Range {
            span: self.since(start),
            first,
            last,
        })
    }

    /// `range` and two bounds, if they are there.
    #[inline(never)]
    fn range_constraint(&mut self, levels: u8) -> Result<Option<Range>, Stop>
        ensures { IfOk result (λ range. Reads (here self.old) self.old self.new (optional range_spans range)) }
    {
        if !self.at_word(Word::Range) {
            return Ok(None);
        }
        self.word(Word::Range)?;
        let range = self.bounds(levels)?;
        Ok(Some(range))
    }

    /// The name of a subtype and its constraint.
    #[inline(never)]
    pub(crate) fn indication(&mut self, levels: u8) -> Result<SubtypeIndication, Stop>
        ensures { IfOk result (λ subtype. ReadsSome (here self.old) self.old self.new (only (indication_spans subtype))) }
    {
        if self.at_word(Word::Access) || self.at_word(Word::Not) {
            return Err(self.left_out(LeftOut::Access));
        }
        let start = self.here();
        let name = self.name(levels)?;
        let range = self.range_constraint(levels)?;
        Ok(SubtypeIndication {
            span: self.since(start),
            name,
            range,
        })
    }

    /// The discrete range that begins with this expression, which was read from this place on.
    #[inline(never)]
    fn discrete_after(&mut self, levels: u8, start: u32, first: Expr) -> Result<DiscreteRange, Stop>
        requires { AreReadSince start self.old (only (expr_spans first)) }
        ensures { IfOk result (λ range. Reads start self.old self.new (only (discrete_spans range))) }
    {
        if self.at_word(Word::Range) {
            self.word(Word::Range)?;
            if self.at_mark(Delimiter::Box) {
                return Err(self.left_out(LeftOut::UnconstrainedArray));
            }
            let range = self.bounds(levels)?;
            return Ok(DiscreteRange::Constrained(self.since(start), first, range));
        }
        if first.is_name() && !self.at_mark(Delimiter::DoubleDot) {
            return Ok(DiscreteRange::Name(first));
        }
        self.mark(Delimiter::DoubleDot)?;
        let last = self.simple(levels)?;
        Ok(DiscreteRange::Bounds(Range {
            span: self.since(start),
            first,
            last,
        }))
    }

    #[inline(never)]
    pub(crate) fn discrete_range(&mut self, levels: u8) -> Result<DiscreteRange, Stop>
        ensures { IfOk result (λ range. ReadsSome (here self.old) self.old self.new (only (discrete_spans range))) }
    {
        let start = self.here();
        let first = self.simple(levels)?;
        self.discrete_after(levels, start, first)
    }

    /// The ranges of an array's indexes.
    #[inline(never)]
    fn indexes(&mut self, levels: u8) -> Result<Vec<DiscreteRange>, Stop>
        ensures { IfOk result (λ all. ReadsSome (here self.old) self.old self.new (trees_of (map discrete_spans all.items))) }
    {
        let mut all = Vec::new(self.alloc);
        let first = self.discrete_range(levels)?;
        all.push(first)?;
        while self.at_mark(Delimiter::Comma) {
            self.mark(Delimiter::Comma)?;
            let next = self.discrete_range(levels)?;
            all.push(next)?;
        }
        Ok(all)
    }

    #[inline(never)]
    pub(crate) fn array(&mut self, levels: u8) -> Result<ArrayDefinition, Stop>
        ensures { IfOk result (λ array. ReadsSome (here self.old) self.old self.new (only (array_spans array))) }
    {
        let start = self.here();
        self.word(Word::Array)?;
        self.mark(Delimiter::LeftParenthesis)?;
        let indexes = self.indexes(levels)?;
        self.mark(Delimiter::RightParenthesis)?;
        self.word(Word::Of)?;
        self.not_aliased()?;
        let component = self.indication(levels)?;
        Ok(ArrayDefinition {
            span: self.since(start),
            indexes,
            component,
        })
    }

    /// `aliased` isn't taken.
    pub(crate) fn not_aliased(&self) -> Result<(), Stop> {
        if self.at_word(Word::Aliased) {
            return Err(self.left_out(LeftOut::Aliased));
        }
        Ok(())
    }

    #[inline(never)]
    pub(crate) fn object_subtype(&mut self, levels: u8) -> Result<ObjectSubtype, Stop>
        ensures { IfOk result (λ subtype. ReadsSome (here self.old) self.old self.new (only (object_subtype_spans subtype))) }
    {
        if self.at_word(Word::Array) {
            return Ok(ObjectSubtype::Array(self.array(levels)?));
        }
        Ok(ObjectSubtype::Subtype(self.indication(levels)?))
    }
}

// Parts of declarations.
impl<'a> Parser<'a> {
    /// Components of a record or of a protected object.
    #[inline(never)]
    pub(crate) fn component_declaration(&mut self, levels: u8) -> Result<Component, Stop>
        ensures { IfOk result (λ component. ReadsSome (here self.old) self.old self.new (only (component_spans component))) }
    {
        let start = self.here();
        let names = self.identifiers()?;
        self.mark(Delimiter::Colon)?;
        self.not_aliased()?;
        let subtype = self.object_subtype(levels)?;
        let value = self.initial_value(levels)?;
        let aspects = self.aspects(levels)?;
        self.mark(Delimiter::Semicolon)?;
        Ok(Component {
            span: self.since(start),
            names,
            subtype,
            value,
            aspects,
        })
    }

    /// The mode of formal parameters.
    fn mode(&mut self) -> Result<Mode, Stop>
        ensures { OnOk result (Reads (here self.old) self.old self.new NoTrees) }
    {
        let reads = self.passes(Word::In)?;
        let writes = self.passes(Word::Out)?;
        Ok(mode_of(reads, writes))
    }

    #[inline(never)]
    fn formal(&mut self, levels: u8) -> Result<Formal, Stop>
        ensures { IfOk result (λ formal. ReadsSome (here self.old) self.old self.new (only (formal_spans formal))) }
    {
        let start = self.here();
        let names = self.identifiers()?;
        self.mark(Delimiter::Colon)?;
        self.not_aliased()?;
        let mode = self.mode()?;
        if self.at_word(Word::Access) || self.at_word(Word::Not) {
            return Err(self.left_out(LeftOut::Access));
        }
        let subtype = self.name(levels)?;
        let default = self.initial_value(levels)?;
        Ok(Formal {
            span: self.since(start),
            names,
            mode,
            subtype,
            default,
        })
    }

    #[inline(never)]
    fn formal_list(&mut self, levels: u8) -> Result<Vec<Formal>, Stop>
        ensures { IfOk result (λ all. ReadsSome (here self.old) self.old self.new (trees_of (map formal_spans all.items))) }
    {
        let mut all = Vec::new(self.alloc);
        let first = self.formal(levels)?;
        all.push(first)?;
        while self.at_mark(Delimiter::Semicolon) {
            self.mark(Delimiter::Semicolon)?;
            let next = self.formal(levels)?;
            all.push(next)?;
        }
        Ok(all)
    }

    /// Formal parameters or discriminants, if there are any.
    #[inline(never)]
    pub(crate) fn formals(&mut self, levels: u8) -> Result<Vec<Formal>, Stop>
        ensures { IfOk result (λ all. Reads (here self.old) self.old self.new (trees_of (map formal_spans all.items))) }
    {
        if !self.at_mark(Delimiter::LeftParenthesis) {
            return Ok(Vec::new(self.alloc));
        }
        self.mark(Delimiter::LeftParenthesis)?;
        let all = self.formal_list(levels)?;
        self.mark(Delimiter::RightParenthesis)?;
        Ok(all)
    }

    /// The value of an aspect, if one is given.
    fn aspect_value(&mut self, levels: u8) -> Result<Option<Expr>, Stop>
        ensures { IfOk result (λ value. Reads (here self.old) self.old self.new (optional expr_spans value)) }
    {
        if !self.at_mark(Delimiter::Arrow) {
            return Ok(None);
        }
        self.mark(Delimiter::Arrow)?;
        let value = self.expression(levels)?;
        Ok(Some(value))
    }

    #[inline(never)]
    fn aspect(&mut self, levels: u8) -> Result<Aspect, Stop>
        ensures { IfOk result (λ aspect. ReadsSome (here self.old) self.old self.new (only (aspect_spans aspect))) }
    {
        let start = self.here();
        let name = self.identifier()?;
        if self.at_mark(Delimiter::Apostrophe) {
            return Err(self.left_out(LeftOut::Tagged));
        }
        let value = self.aspect_value(levels)?;
        Ok(Aspect {
            span: self.since(start),
            name,
            value,
        })
    }

    #[inline(never)]
    fn aspect_list(&mut self, levels: u8) -> Result<Vec<Aspect>, Stop>
        ensures { IfOk result (λ all. ReadsSome (here self.old) self.old self.new (trees_of (map aspect_spans all.items))) }
    {
        let mut all = Vec::new(self.alloc);
        let first = self.aspect(levels)?;
        all.push(first)?;
        while self.at_mark(Delimiter::Comma) {
            self.mark(Delimiter::Comma)?;
            let next = self.aspect(levels)?;
            all.push(next)?;
        }
        Ok(all)
    }

    /// `with` and aspects, if they are there.
    #[inline(never)]
    pub(crate) fn aspects(&mut self, levels: u8) -> Result<Vec<Aspect>, Stop>
        ensures { IfOk result (λ all. Reads (here self.old) self.old self.new (trees_of (map aspect_spans all.items))) }
    {
        if !self.at_word(Word::With) {
            return Ok(Vec::new(self.alloc));
        }
        self.word(Word::With)?;
        self.aspect_list(levels)
    }

    /// The arguments of a pragma, if it has any.
    #[inline(never)]
    fn pragma_arguments(&mut self, levels: u8) -> Result<Vec<Association>, Stop>
        ensures { IfOk result (λ all. Reads (here self.old) self.old self.new (trees_of (map association_spans all.items))) }
    {
        if !self.at_mark(Delimiter::LeftParenthesis) {
            return Ok(Vec::new(self.alloc));
        }
        self.mark(Delimiter::LeftParenthesis)?;
        let all = self.association_list(levels)?;
        self.mark(Delimiter::RightParenthesis)?;
        Ok(all)
    }

    #[inline(never)]
    pub(crate) fn pragma(&mut self, levels: u8) -> Result<Pragma, Stop>
        ensures { IfOk result (λ pragma. ReadsSome (here self.old) self.old self.new (only (pragma_spans pragma))) }
    {
        let start = self.here();
        self.word(Word::Pragma)?;
        let name = self.identifier()?;
        let arguments = self.pragma_arguments(levels)?;
        self.mark(Delimiter::Semicolon)?;
        Ok(Pragma {
            span: self.since(start),
            name,
            arguments,
        })
    }

    /// The result of a function, or None of a procedure.
    fn result_subtype(&mut self, levels: u8, function: bool) -> Result<Option<Name>, Stop>
        ensures { IfOk result (λ name. Reads (here self.old) self.old self.new (optional name_spans name)) }
    {
        if !function {
            return Ok(None);
        }
        self.word(Word::Return)?;
        if self.at_word(Word::Access) || self.at_word(Word::Not) {
            return Err(self.left_out(LeftOut::Access));
        }
        let name = self.name(levels)?;
        Ok(Some(name))
    }

    /// Passes `procedure` or `function`, and says whether it was `function`.
    fn subprogram_word(&mut self) -> Result<bool, Stop>
        ensures { OnOk result (ReadsSome (here self.old) self.old self.new NoTrees) }
    {
        if self.at_word(Word::Function) {
            self.word(Word::Function)?;
            return Ok(true);
        }
        self.word(Word::Procedure)?;
        Ok(false)
    }

    /// The name of a subprogram, which is no operator.
    fn designator(&mut self) -> Result<Identifier, Stop>
        ensures { IfOk result (λ identifier. ReadsSome (here self.old) self.old self.new (only (identifier_spans identifier))) }
    {
        match self.rest {
            [token, ..] if matches!(token.kind, TokenKind::StringLiteral) => {
                Err(self.left_out(LeftOut::Operator))
            }
            _ => self.identifier(),
        }
    }

    /// What is said of a subprogram before its body.
    #[inline(never)]
    pub(crate) fn specification(&mut self, levels: u8) -> Result<Specification, Stop>
        ensures { IfOk result (λ specification. ReadsSome (here self.old) self.old self.new (only (specification_spans specification))) }
    {
        let start = self.here();
        let function = self.subprogram_word()?;
        let name = self.designator()?;
        let formals = self.formals(levels)?;
        let result = self.result_subtype(levels, function)?;
        Ok(Specification {
            span: self.since(start),
            name,
            formals,
            result,
        })
    }
}
