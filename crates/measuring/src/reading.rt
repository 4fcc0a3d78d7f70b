//! What is measured of a run, by task, by object and by both.
ghost use Rattle.std.specs.Prelude.{◌≡◌, ◌<◌};
ghost use Rattle.base.specs.declared.limits.TheConstants.{OBJECTS};
ghost use Rattle.measuring.specs.Measures.{measures, object_measures, usage_measures};
ghost use Rattle.measuring.specs.Stories.{ObjectCalls, Stories, Usages};
ghost use Rattle.measuring.specs.Tables.{AreMeasured, AreWhole};
ghost use Rattle.measuring.specs.Text.{blocking_in};

use crate::actor::ActorMeasures;
use crate::blocking::{blocking, usage_at};
use crate::counting::Measures;
use crate::instants::Instants;
use crate::object::ObjectMeasures;
use crate::sizes::{object_count, task_count};
use crate::usage::UsageMeasures;
use image::Image;

impl Measures {
    /// What is measured of a task, or of the handler of an interrupt.
    pub fn actor(&self, actor: u8) -> ActorMeasures
        requires { AreWhole self.now }
        ensures { (stories : Stories) (calls : ObjectCalls) (used : Usages) (instants : Instants) → AreMeasured self.now stories calls used instants →
            result ≡ measures (stories actor) }
    {
        self.actors[usize::from(actor)]
    }

    /// The most steps of one action that can keep a task or handler of the image waiting.
    pub fn blocking(&self, image: &Image, actor: u8) -> u64
        requires { AreWhole self.now }
        ensures { (stories : Stories) (calls : ObjectCalls) (used : Usages) (instants : Instants) → AreMeasured self.now stories calls used instants →
            result ≡ blocking_in image.now (λ t o. usage_measures (used t o)) actor }
    {
        blocking(
            image,
            task_count(image),
            object_count(image),
            &self.usages,
            actor,
        )
    }

    /// What is measured of a protected object.
    pub fn object(&self, object: u8) -> ObjectMeasures
        requires { AreWhole self.now }
        ensures { (stories : Stories) (calls : ObjectCalls) (used : Usages) (instants : Instants) → AreMeasured self.now stories calls used instants →
            result ≡ object_measures (calls object) }
    {
        self.objects[usize::from(object)]
    }

    /// What is measured of a task or handler at a protected object.
    pub fn usage(&self, actor: u8, object: u8) -> UsageMeasures
        requires whole { AreWhole self.now }
        requires object { object < OBJECTS }
        ensures { (stories : Stories) (calls : ObjectCalls) (used : Usages) (instants : Instants) → AreMeasured self.now stories calls used instants →
            result ≡ usage_measures (used actor object) }
    {
        usage_at(&self.usages, actor, object)
    }

    /// How many steps the run takes at one time.
    pub fn instants(&self) -> Instants
        requires { AreWhole self.now }
        ensures { (stories : Stories) (calls : ObjectCalls) (used : Usages) (instants : Instants) → AreMeasured self.now stories calls used instants →
            result ≡ instants }
    {
        self.instants
    }
}
