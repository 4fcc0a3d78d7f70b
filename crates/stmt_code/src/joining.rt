//! What is put together, added to the code of a program, where the limits of images are tested (docs/FORMATS.md).
ghost use Rattle.std.specs.Prelude.{◌≡◌, ◌≤◌, ◌++◌, [], max, IfErr, OnOk};
ghost use Rattle.base.specs.declared.limits.TheConstants.{FRAME_WORDS};
ghost use Rattle.expr_code.specs.Refusing.{IsRefused};
ghost use Rattle.stmt_code.specs.Joining.{begun_from, HasWideFrame, IsJoined, Overflows};

use crate::draft::{Draft, Labels};
use crate::sketch::Sketch;
use crate::tables::{CodeTables, PlaceRow};
use base::limits::{FRAME_WORDS, LABELS};
use expr_code::{ImageLimit, Refusal};
use part_code::FrameWords;
use std::mem;

// Adds rows of places after others.
fn mark_all(rows: &mut CodeTables, more: &[PlaceRow]) -> Result<(), Refusal>
    ensures rows { OnOk result (rows.new ≡ record rows.old { places = rows.old.places ++ more.now }) }
    ensures refused { IfErr result (λ why. IsRefused 0 0 why) }
{
    for row in more {
        rows.mark(*row)?;
    }
    Ok(())
}

// Takes as many words of the frame as are taken at once.
fn widen(words: &mut FrameWords, most: usize) -> Result<(), Refusal>
    ensures taken { OnOk result (words.new.taken ≡ words.old.taken) }
    ensures most { OnOk result (words.new.most ≡ max words.old.most most) }
    ensures wide { OnOk result (most ≤ FRAME_WORDS) }
    ensures refused { IfErr result (λ why. HasWideFrame most why) }
{
    if FRAME_WORDS < most {
        return Err(Refusal::Limit(ImageLimit::Frame));
    }
    words.most = words.most.max(most as u16);
    Ok(())
}

impl Draft {
    /// Begins what is put together after this code, with its labels, which are given back where it is joined.
    pub fn sketch(&mut self) -> Sketch
        ensures begun { result ≡ begun_from self.old }
        ensures rest { self.new ≡ record self.old { labels = [] } }
    {
        let alloc = self.code.alloc;
        let labels = mem::replace(&mut self.labels, Labels::new(alloc));
        Sketch {
            fragment: self.code.fragment(),
            rows: Vec::new(alloc),
            places: Vec::new(alloc),
            labels,
            most: 0,
        }
    }

    /// Adds what was put together.
    pub fn join(&mut self, sketch: Sketch) -> Result<(), Refusal>
        ensures joins { OnOk result (IsJoined self.old sketch.made self.new) }
        ensures refused { IfErr result (λ why. Overflows self.old sketch.made why) }
    {
        let Sketch {
            fragment,
            rows,
            places,
            labels,
            most,
        } = sketch;
        self.code.append(&fragment)?;
        if LABELS < labels.many() {
            return Err(Refusal::Limit(ImageLimit::Labels));
        }
        self.labels = labels;
        widen(&mut self.words, most)?;
        self.rows.handle(&rows)?;
        mark_all(&mut self.rows, &places)?;
        Ok(())
    }
}
