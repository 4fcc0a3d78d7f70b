//! Where the words of formal parameters are in the frame of their body (RM 6.4.1).
ghost use Rattle.std.specs.Prelude.{◌≡◌, IfErr, IfOk, OnOk};
ghost use Rattle.expr_soundness.specs.SoundScopes.{SoundScope};
ghost use Rattle.part_code.specs.Emitting.{HasEntries};
ghost use Rattle.part_code.specs.Formals.{PlacesFormals};
ghost use Rattle.part_code.specs.Providing.{HasWhatCodeNeeds};
ghost use Rattle.stmt_code.specs.Subprograms.{AreLegalFormals};
ghost use Rattle.part_code.specs.Needs.{RefusesFormals};

use crate::draft::Draft;
use ada_tree::Formal;
use declaration_rules::declare_formals;
use expr_code::{Refusal, Visible};
use part_code::{FrameWords, PlacedFormals, place_all, show, take_passed};

impl Draft {
    /// Begins the frame of a body: gives its formal parameters their words, those that are passed first, and makes them visible.
    pub fn formals(
        &mut self,
        visible: &mut Visible,
        formals: &[Formal],
    ) -> Result<PlacedFormals, Refusal>
        requires front { SoundScope visible.old.scope }
        requires head { AreLegalFormals visible.old.scope formals.now }
        requires entries { HasEntries visible.old }
        requires covered { HasWhatCodeNeeds self.old.exceptions.items visible.old }
        ensures places { IfOk result (λ placed. PlacesFormals visible.old formals.now visible.new self.new.words placed) }
        ensures code { OnOk result (self.new.code ≡ self.old.code) }
        ensures labels { OnOk result (self.new.labels ≡ self.old.labels) }
        ensures rows { OnOk result (self.new.rows ≡ self.old.rows) }
        ensures exceptions { OnOk result (self.new.exceptions ≡ self.old.exceptions) }
        ensures covered { OnOk result (HasWhatCodeNeeds self.new.exceptions.items visible.new) }
        ensures refused { IfErr result (λ why. RefusesFormals visible.old.scope formals.now why) }
        ensures most { OnOk result (self.new.words.most ≡ self.new.words.taken) }
    {
        let mut words = FrameWords::new();
        take_passed(&mut words, &visible.scope, formals)?;
        let placed = place_all(&mut words, &visible.scope, formals, self.code.alloc)?;
        declare_formals(&mut visible.scope, formals)?;
        show(visible, &placed.formals)?;
        self.words = words;
        Ok(placed)
    }
}
