//! Rules that look at what names denote, in the order in which they are tried.

use crate::aspects::lower_aspects;
use crate::numbers::lower_numbers;
use ada2012_names::Names;
use ada2012_tree::Program;
use lowering_calls::{
    lower_conditions, lower_first_values, lower_procedures, lower_tested_calls, take_out_calls,
};
use lowering_expressions::{
    lower_attributes, lower_calls, lower_elements, lower_equalities, lower_exits,
    lower_formal_defaults, lower_loops, lower_memberships, lower_qualifications,
    lower_span_operations,
};
use lowering_text::{Changes, Parts, Whole};
use lowering_types::{
    lower_array_types, lower_case_ranges, lower_constraints, lower_enumerations,
    lower_modular_types, lower_powers, lower_ranges,
};
use lowering_units::{
    lower_channels, lower_clashes, lower_completions, lower_moves, lower_suspensions,
    lower_task_types, lower_texts, lower_units,
};
use lowering_values::{
    lower_aggregates, lower_defaults, lower_elaborations, lower_starts, lower_tables,
};
use std::alloc::AllocError;

/// Rules for units and declarations whose edits are made together.
#[derive(Clone, Copy)]
enum DeclarationStage {
    /// Named numbers.
    Numbers,
    /// Lines of text.
    Texts,
    /// Aspects.
    Aspects,
    /// Names of interrupts.
    Channels,
    /// Statements of packages.
    Elaborations,
    /// Names that clash in one package.
    Clashes,
    /// Several packages as one.
    Units,
    /// Functions and procedures in specifications that are complete there.
    Completions,
    /// Declarations of bodies that can be ones of the package.
    Moves,
    /// Suspension objects.
    Suspensions,
    /// Task types and their objects.
    TaskTypes,
    /// Ranges of loops and indexes with a subtype.
    Ranges,
    /// Array types without names.
    ArrayTypes,
    /// Ranges of objects and components.
    Constraints,
    /// Powers whose value is known.
    Powers,
}

/// The stages of units and declarations in the order in which they are tried: the first that asks for an edit makes the edits of a round.
const DECLARATION_STAGES: [DeclarationStage; 15] = [
    DeclarationStage::Numbers,
    DeclarationStage::Texts,
    DeclarationStage::Aspects,
    DeclarationStage::Channels,
    DeclarationStage::Elaborations,
    DeclarationStage::Clashes,
    DeclarationStage::Units,
    DeclarationStage::Completions,
    DeclarationStage::Moves,
    DeclarationStage::Suspensions,
    DeclarationStage::TaskTypes,
    DeclarationStage::Ranges,
    DeclarationStage::ArrayTypes,
    DeclarationStage::Constraints,
    DeclarationStage::Powers,
];

/// Rules for statements, expressions and the types of these whose edits are made together.
#[derive(Clone, Copy)]
enum StatementStage {
    /// Exits by the name of a loop.
    Exits,
    /// Operations with time spans.
    SpanOperations,
    /// Calls by place.
    Calls,
    /// Default values of formal parameters.
    FormalDefaults,
    /// Relations of records.
    Equalities,
    /// Loops from one bound to another.
    Loops,
    /// A loop over the components of an array.
    Elements,
    /// Calls that are values of membership tests.
    TestedCalls,
    /// Membership tests as relations.
    Memberships,
    /// Default values of components.
    Defaults,
    /// Constant arrays as functions.
    Tables,
    /// Aggregates as values of variables of packages and components of protected objects.
    Starts,
    /// First values that statements give.
    FirstValues,
    /// Aggregates, component by component.
    Aggregates,
    /// Conditions with such calls that are evaluated again, or not always.
    Conditions,
    /// Calls of functions that can't stay functions, before their statements.
    Results,
    /// Functions as procedures.
    Procedures,
    /// Qualified expressions as conversions.
    Qualifications,
    /// Attributes of integer types.
    Attributes,
    /// Enumeration types with their attributes.
    Enumerations,
    /// Modular types with their operations.
    ModularTypes,
    /// Ranges as choices of case statements.
    CaseRanges,
}

/// The stages of statements and expressions, in their order, where those of declarations ask for nothing.
const STATEMENT_STAGES: [StatementStage; 22] = [
    StatementStage::Exits,
    StatementStage::SpanOperations,
    StatementStage::Calls,
    StatementStage::FormalDefaults,
    StatementStage::Equalities,
    StatementStage::Loops,
    StatementStage::Elements,
    StatementStage::TestedCalls,
    StatementStage::Memberships,
    StatementStage::Defaults,
    StatementStage::Tables,
    StatementStage::Starts,
    StatementStage::FirstValues,
    StatementStage::Aggregates,
    StatementStage::Conditions,
    StatementStage::Results,
    StatementStage::Procedures,
    StatementStage::Qualifications,
    StatementStage::Attributes,
    StatementStage::Enumerations,
    StatementStage::ModularTypes,
    StatementStage::CaseRanges,
];

// What a stage of units and declarations asks for.
fn lower_declarations(
    changes: &mut Changes<'_>,
    stage: DeclarationStage,
    whole: &Whole<'_>,
) -> Result<(), AllocError> {
    match stage {
        DeclarationStage::Numbers => lower_numbers(changes, whole),
        DeclarationStage::Texts => lower_texts(changes, whole),
        DeclarationStage::Aspects => lower_aspects(changes, whole),
        DeclarationStage::Channels => lower_channels(changes, whole),
        DeclarationStage::Elaborations => lower_elaborations(changes, whole),
        DeclarationStage::Clashes => lower_clashes(changes, whole),
        DeclarationStage::Units => lower_units(changes, whole),
        DeclarationStage::Completions => lower_completions(changes, whole),
        DeclarationStage::Moves => lower_moves(changes, whole),
        DeclarationStage::Suspensions => lower_suspensions(changes, whole),
        DeclarationStage::TaskTypes => lower_task_types(changes, whole),
        DeclarationStage::Ranges => lower_ranges(changes, whole),
        DeclarationStage::ArrayTypes => lower_array_types(changes, whole),
        DeclarationStage::Constraints => lower_constraints(changes, whole),
        DeclarationStage::Powers => lower_powers(changes, whole),
    }
}

// What a stage of statements and expressions asks for.
fn lower_statements(
    changes: &mut Changes<'_>,
    stage: StatementStage,
    whole: &Whole<'_>,
) -> Result<(), AllocError> {
    match stage {
        StatementStage::Exits => lower_exits(changes, whole),
        StatementStage::SpanOperations => lower_span_operations(changes, whole),
        StatementStage::Calls => lower_calls(changes, whole),
        StatementStage::FormalDefaults => lower_formal_defaults(changes, whole),
        StatementStage::Equalities => lower_equalities(changes, whole),
        StatementStage::Loops => lower_loops(changes, whole),
        StatementStage::Elements => lower_elements(changes, whole),
        StatementStage::TestedCalls => lower_tested_calls(changes, whole),
        StatementStage::Memberships => lower_memberships(changes, whole),
        StatementStage::Defaults => lower_defaults(changes, whole),
        StatementStage::Tables => lower_tables(changes, whole),
        StatementStage::Starts => lower_starts(changes, whole),
        StatementStage::FirstValues => lower_first_values(changes, whole),
        StatementStage::Aggregates => lower_aggregates(changes, whole),
        StatementStage::Conditions => lower_conditions(changes, whole),
        StatementStage::Results => take_out_calls(changes, whole),
        StatementStage::Procedures => lower_procedures(changes, whole),
        StatementStage::Qualifications => lower_qualifications(changes, whole),
        StatementStage::Attributes => lower_attributes(changes, whole),
        StatementStage::Enumerations => lower_enumerations(changes, whole),
        StatementStage::ModularTypes => lower_modular_types(changes, whole),
        StatementStage::CaseRanges => lower_case_ranges(changes, whole),
    }
}

fn lower_in_order(changes: &mut Changes<'_>, whole: &Whole<'_>) -> Result<(), AllocError> {
    for stage in &DECLARATION_STAGES {
        if !changes.is_settled() {
            lower_declarations(changes, *stage, whole)?;
        }
    }
    for stage in &STATEMENT_STAGES {
        if !changes.is_settled() {
            lower_statements(changes, *stage, whole)?;
        }
    }
    Ok(())
}

fn lower_with_parts(
    changes: &mut Changes<'_>,
    program: &Program,
    parts: &Parts<'_>,
    names: &Names,
) -> Result<(), AllocError> {
    let whole = Whole {
        program,
        parts,
        names,
    };
    lower_in_order(changes, &whole)
}

/// What the first stage that finds anything asks for, where nothing was found before.
pub(crate) fn lower_with_names(
    changes: &mut Changes<'_>,
    program: &Program,
) -> Result<(), AllocError> {
    if changes.is_settled() {
        return Ok(());
    }
    let names = ada2012_names::resolve(changes.alloc, program)?;
    let parts = Parts::of(changes.alloc, program)?;
    lower_with_parts(changes, program, &parts, &names)
}
