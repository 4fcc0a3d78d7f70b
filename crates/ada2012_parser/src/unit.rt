//! Reading units.
ghost use Rattle.std.specs.Prelude.{◌≡◌, [], IfOk, OnOk, map};
ghost use Rattle.ada2012_tree.specs.Spans.{NoTrees, only, trees_of};
ghost use Rattle.ada2012_tree.specs.StatementSpans.{declaration_spans};
ghost use Rattle.ada2012_tree.specs.ProgramSpans.{clause_spans, unit_item_spans, unit_spans};
ghost use Rattle.ada2012_parser.specs.Reading.{AreReadSince, Reads, ReadsSome, here};

use crate::fault::Stop;
use crate::parser::Parser;
use crate::{Expected, LeftOut};
use ada2012_lexer::Delimiter;
use ada2012_tree::{Clause, Declaration, Package, PackageBody, Unit, UnitItem, UnitSubprogram};
use lexer::Word;

impl<'a> Parser<'a> {
    #[inline(never)]
    fn with_clause(&mut self, levels: u8) -> Result<Clause, Stop>
        ensures { IfOk result (λ clause. ReadsSome (here self.old) self.old self.new (only (clause_spans clause))) }
    {
        let start = self.here();
        self.word(Word::With)?;
        let names = self.names(levels)?;
        self.mark(Delimiter::Semicolon)?;
        Ok(Clause::With(self.since(start), names))
    }

    fn clause(&mut self, levels: u8) -> Result<Clause, Stop>
        ensures { IfOk result (λ clause. ReadsSome (here self.old) self.old self.new (only (clause_spans clause))) }
    {
        match self.next_word() {
            Some(Word::Use) => Ok(Clause::Use(self.use_clause(levels)?)),
            Some(Word::Pragma) => Ok(Clause::Pragma(self.pragma(levels)?)),
            _ => self.with_clause(levels),
        }
    }

    fn at_clause(&self) -> bool {
        matches!(
            self.next_word(),
            Some(Word::With | Word::Use | Word::Pragma)
        )
    }

    #[inline(never)]
    fn clauses(&mut self, levels: u8) -> Result<Vec<Clause>, Stop>
        ensures { IfOk result (λ all. Reads (here self.old) self.old self.new (trees_of (map clause_spans all.items))) }
    {
        let mut all = Vec::new(self.alloc);
        while self.at_clause() {
            let next = self.clause(levels)?;
            all.push(next)?;
        }
        Ok(all)
    }

    /// `private` and the declarations after it, if they are there.
    #[inline(never)]
    fn private_part(&mut self, levels: u8) -> Result<Vec<Declaration>, Stop>
        ensures { IfOk result (λ all. Reads (here self.old) self.old self.new (trees_of (map declaration_spans all.items))) }
    {
        if !self.at_word(Word::Private) {
            return Ok(Vec::new(self.alloc));
        }
        self.word(Word::Private)?;
        self.declarations(levels)
    }

    /// A package, of which `package` was read from this place on.
    #[inline(never)]
    fn package_declaration(&mut self, levels: u8, start: u32) -> Result<UnitItem, Stop>
        requires { AreReadSince start self.old NoTrees }
        ensures { IfOk result (λ item. ReadsSome start self.old self.new (only (unit_item_spans item))) }
    {
        let name = self.name(levels)?;
        self.not_renaming()?;
        let aspects = self.aspects(levels)?;
        self.word(Word::Is)?;
        if self.at_word(Word::New) {
            return Err(self.left_out(LeftOut::Generic));
        }
        let visible = self.declarations(levels)?;
        let hidden = self.private_part(levels)?;
        self.word(Word::End)?;
        self.end_name()?;
        self.mark(Delimiter::Semicolon)?;
        Ok(UnitItem::Package(Package {
            span: self.since(start),
            name,
            aspects,
            visible,
            hidden,
        }))
    }

    /// A package body, of which `package` was read from this place on.
    #[inline(never)]
    fn package_body(&mut self, levels: u8, start: u32) -> Result<UnitItem, Stop>
        requires { AreReadSince start self.old NoTrees }
        ensures { IfOk result (λ item. ReadsSome start self.old self.new (only (unit_item_spans item))) }
    {
        self.word(Word::Body)?;
        let name = self.name(levels)?;
        let aspects = self.aspects(levels)?;
        self.word(Word::Is)?;
        self.not_separate()?;
        let body = self.body(levels, false)?;
        self.end_name()?;
        self.mark(Delimiter::Semicolon)?;
        Ok(UnitItem::PackageBody(PackageBody {
            span: self.since(start),
            name,
            aspects,
            body,
        }))
    }

    #[inline(never)]
    fn package(&mut self, levels: u8) -> Result<UnitItem, Stop>
        ensures { IfOk result (λ item. ReadsSome (here self.old) self.old self.new (only (unit_item_spans item))) }
    {
        let start = self.here();
        self.word(Word::Package)?;
        if self.at_word(Word::Body) {
            return self.package_body(levels, start);
        }
        self.package_declaration(levels, start)
    }

    /// A subprogram that is a unit.
    #[inline(never)]
    fn unit_subprogram(&mut self, levels: u8) -> Result<UnitItem, Stop>
        ensures { IfOk result (λ item. ReadsSome (here self.old) self.old self.new (only (unit_item_spans item))) }
    {
        let start = self.here();
        let specification = self.specification(levels)?;
        self.not_renaming()?;
        let aspects = self.aspects(levels)?;
        self.word(Word::Is)?;
        self.not_separate()?;
        if self.at_word(Word::New) {
            return Err(self.left_out(LeftOut::Generic));
        }
        let body = self.body(levels, true)?;
        self.end_name()?;
        self.mark(Delimiter::Semicolon)?;
        Ok(UnitItem::Subprogram(UnitSubprogram {
            span: self.since(start),
            specification,
            aspects,
            body,
        }))
    }

    /// Why no unit begins here.
    fn no_unit(&self) -> Stop {
        match self.next_word() {
            Some(Word::Generic) => self.left_out(LeftOut::Generic),
            Some(Word::Limited) => self.left_out(LeftOut::Limited),
            Some(Word::Private) => self.left_out(LeftOut::PrivateUnit),
            Some(Word::Separate) => self.left_out(LeftOut::Separate),
            _ => self.unexpected(Expected::Unit),
        }
    }

    fn unit_item(&mut self, levels: u8) -> Result<UnitItem, Stop>
        ensures { IfOk result (λ item. ReadsSome (here self.old) self.old self.new (only (unit_item_spans item))) }
    {
        match self.next_word() {
            Some(Word::Package) => self.package(levels),
            Some(Word::Procedure | Word::Function) => self.unit_subprogram(levels),
            _ => Err(self.no_unit()),
        }
    }

    #[inline(never)]
    fn unit(&mut self, levels: u8) -> Result<Unit, Stop>
        ensures { IfOk result (λ unit. ReadsSome (here self.old) self.old self.new (only (unit_spans unit))) }
    {
        let start = self.here();
        let clauses = self.clauses(levels)?;
        let item = self.unit_item(levels)?;
        Ok(Unit {
            span: self.since(start),
            clauses,
            item,
        })
    }

    /// Units, up to the end.
    #[inline(never)]
    pub(crate) fn units(&mut self, levels: u8) -> Result<Vec<Unit>, Stop>
        ensures reads { IfOk result (λ all. Reads (here self.old) self.old self.new (trees_of (map unit_spans all.items))) }
        ensures all { OnOk result (self.new.rest.now ≡ []) }
    {
        let mut all = Vec::new(self.alloc);
        while !self.rest.is_empty() {
            let next = self.unit(levels)?;
            all.push(next)?;
        }
        Ok(all)
    }
}
