//! What is measured of the runs of an image on all schedules of a set.
ghost use Rattle.std.specs.Prelude.{◌≡◌, ◌+◌, ◌++◌, ◌∷◌, [], ℕ, ℤ, All, IfErr, IfOk, List, OnOk, is_none, length, map};
ghost use Rattle.base.specs.declared.schedule.ScheduleLine.{ScheduleLine};
ghost use Rattle.machine.specs.Outcomes.{ending_of};
ghost use Rattle.measuring.specs.Tables.{AreWhole};
ghost use Rattle.set_measures.specs.Extremes.{capped};
ghost use Rattle.set_measures.specs.Runs.{Run, is_cut_by};
ghost use Rattle.set_measures.specs.Sets.{HasExtreme, IsMeasuredOn, IsMeasuredSet};
ghost use Rattle.set_measures.specs.Stepping.{IsMeasuredRun, new_row};

use crate::extreme::Row;
use crate::listing::measures_of;
use crate::measure::Measure;
use crate::value::value;
use choices::{Choice, Choices};
use clock::Schedule;
use image::Image;
use machine::{Bound, Cut, Outcome, RunFault, Steps, bound_of};
use measuring::{Measures, measure_run};
use std::alloc::{AllocError, Global};
use std::sync::ledger::Ledger;

/// What is measured of the runs of an image on the schedules of a set.
#[derive(Drop)]
pub struct SetMeasures {
    /// Each measure with its extreme.
    pub(crate) rows: Vec<Row>,
    /// How many schedules there are. No number is greater than 2**64 - 1, and a greater one is written as that.
    pub(crate) schedules: u64,
    /// How many of their runs were cut by the limit on steps.
    pub(crate) cut: u64,
}

// Whether the limit on steps has cut a run that ended so.
fn is_cut(bound: Bound, outcome: &Outcome) -> bool
    ensures { result ≡ is_cut_by bound.cut (is_none (ending_of outcome.now)) }
{
    match bound.cut {
        Cut::Time => false,
        Cut::Steps => match outcome {
            Outcome::StepLimit { .. } => true,
            _ => false,
        },
    }
}

// The rows of these measures before all runs.
fn rows_of(alloc: Global, measures: &[Measure]) -> Result<Vec<Row>, AllocError>
    ensures { IfOk result (λ rows. rows.items ≡ map new_row measures.now) }
{
    measures
        .iter()
        .map(|measure| Row {
            measure: *measure,
            extreme: None,
        })
        .collect(alloc)
}

// Adds to each row the value that a run of this number has of its measure.
fn add_values(rows: &mut [Row], image: &Image, measures: &Measures, number: u64)
    requires whole { AreWhole measures.now }
    ensures same { map (λ row. row.measure) rows.new ≡ map (λ row. row.measure) rows.old }
    ensures extremes { (runs : List Run) (r : Run) → IsMeasuredRun image.now r measures.now → number ≡ capped (length runs + 1)
        → All (HasExtreme image.now runs) rows.old → All (HasExtreme image.now (runs ++ r ∷ [])) rows.new }
{
    let mut at = 0;
    while at < rows.len() {
        let row = rows[at];
        rows[at] = row.with(value(image, measures, row.measure), number);
        at += 1;
    }
}

impl SetMeasures {
    // Before all runs.
    fn new(alloc: Global, image: &Image) -> Result<SetMeasures, AllocError>
        ensures { IfOk result (λ measures. (until : ℤ) (limit : ℕ) → IsMeasuredOn image.now [] until limit measures) }
    {
        let measures = measures_of(alloc, image)?;
        let rows = rows_of(alloc, &measures)?;
        Ok(SetMeasures {
            rows,
            schedules: 0,
            cut: 0,
        })
    }

    // With the run on one more schedule.
    fn add_run<L: Ledger>(
        &mut self,
        alloc: Global,
        image: &Image,
        schedule: &Schedule,
        until: i64,
        limit: u64,
        steps: &mut Steps<L>,
    ) -> Result<(), RunFault>
        ensures measured { (schedules : List (List ScheduleLine)) → IsMeasuredOn image.now schedules until limit self.old → OnOk result
            (IsMeasuredOn image.now (schedules ++ schedule.now ∷ []) until limit self.new) }
        ensures fault { IfErr result (λ fault. fault ≡ RunFault.Memory) }
    {
        let bound = bound_of(alloc, image, schedule, Some(until), limit, steps)?;
        let run = measure_run(alloc, image, schedule, bound, steps)?;
        let (measures, outcome) = run;
        let number = self.schedules.saturating_add(1);
        add_values(&mut self.rows, image, &measures, number);
        self.schedules = number;
        self.cut = self.cut.saturating_add(u64::from(is_cut(bound, &outcome)));
        Ok(())
    }

    /// How many of the runs were cut by the limit on steps, so that they went neither up to an outcome nor up to the time.
    pub fn cut(&self) -> u64
        ensures { result ≡ self.now.cut }
    {
        self.cut
    }
}

/// Measures the runs of an image on all schedules of a set, one after the other in the order of alternatives, where the first slot counts most: each as far as
/// its clock doesn't pass `until` (microseconds since the start), and with at most `limit` steps. Three machines take the steps of each run, which are counted.
///
/// # Errors
/// `Memory` where memory was refused.
#[inline(never)]
pub fn measure_set<L: Ledger>(
    alloc: Global,
    image: &Image,
    choices: &Choices,
    until: i64,
    limit: u64,
    steps: &mut Steps<L>,
) -> Result<SetMeasures, RunFault>
    ensures measures { IfOk result (IsMeasuredSet image.now choices.now until limit) }
    ensures fault { IfErr result (λ fault. fault ≡ RunFault.Memory) }
{
    let _slots = choices.slots();
    let mut measures = SetMeasures::new(alloc, image)?;
    let mut choice = Choice::first(alloc, choices)?;
    let mut is_more = true;
    while is_more {
        let schedule = choice.schedule(alloc, choices)?;
        measures.add_run(alloc, image, &schedule, until, limit, steps)?;
        is_more = choice.advance(choices);
    }
    Ok(measures)
}
