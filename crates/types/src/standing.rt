//! What a name denotes, part by part (RM 4.1).
ghost use Rattle.std.specs.Prelude.{◌≡◌, bytes_eq, option_map};
ghost use Rattle.ada_tree.specs.ExpressionTree.{argument_trees, name_tree, selector_tree, selector_trees};
ghost use Rattle.types.specs.Entities.{entity_value, form_value, profile_value, protected_value};
ghost use Rattle.types.specs.Scopes.{number_of};
ghost use Rattle.types.specs.Standings.{array_attribute, bound_stands, bounds_stand, call_stands, called_operation, callee_profile, component_stands, conversion_stands, count, element_stands, is_single, object_attribute, object_select, operation_stands, profile_among, result_stands, select, select_all, settle, standing_of, stands_first, stands_for, subtype_attribute};

use crate::entity::{Entity, Profile, ProtectedObject, Role, Subtype, TypeForm, Value};
use crate::scope::Scope;
use ada_tree::laws::{arguments_by_parts, names_by_parts};
use ada_tree::{Argument, Identifier, NameExpr, Selector};
use lexer::Text;

/// What a call names: a subprogram or entry by the number of its name, or an operation of a protected object by the number of the object's name and the
/// operation's position.
#[derive(Clone, Copy, Debug, PartialEq, Eq)]
pub enum Callee {
    Direct(usize),
    Operation(usize, usize),
}

/// What the parts of a name read so far denote.
#[derive(Clone, Copy, Debug, PartialEq, Eq)]
pub enum Standing {
    /// An object or a part of one, and what the object may be used for.
    Part(Role, Subtype),
    /// A constant of the package as a whole, with its value where that is a scalar.
    Fixed(Subtype, Option<Value>),
    /// A value, and which one where it is static: of a call or a conversion, of an attribute, True or False.
    Given(Subtype, Option<Value>),
    /// A number without a type of its own, as the length of an array.
    Plain(i64),
    /// A type or subtype.
    Named(Subtype),
    /// What is called, before its parameters.
    Callee(Callee),
    /// `Put`, before its parameters.
    Put,
    /// A protected object, before its operation.
    Protected(usize),
    /// A call that is a statement: of a procedure, of an entry, or of `Put`.
    Statement,
    /// A task, of which no entry can be named.
    Task,
    /// What is no part of an expression: an exception, a unit.
    Other,
    /// What has no meaning, or is not known.
    Doubtful,
}

// What the name with this number stands for before its further parts.
fn stands_for(number: usize, entity: Option<&Entity>) -> Standing
    ensures { result ≡ stands_for number (option_map (λ e. entity_value e.now) entity.entry) }
{
    match entity {
        Some(Entity::Type(_, subtype)) => Standing::Named(*subtype),
        Some(Entity::Subtype(subtype)) => Standing::Named(*subtype),
        Some(Entity::Object(role, subtype)) => Standing::Part(*role, *subtype),
        Some(Entity::Constant(subtype, value)) => Standing::Fixed(*subtype, *value),
        Some(Entity::Literal(b)) => Standing::Given(Subtype::BOOLEAN, Some(Value::Truth(*b))),
        Some(Entity::Subprogram(_)) => Standing::Callee(Callee::Direct(number)),
        Some(Entity::Entry(_)) => Standing::Callee(Callee::Direct(number)),
        Some(Entity::Predefined(_, _)) => Standing::Callee(Callee::Direct(number)),
        Some(Entity::Put) => Standing::Put,
        Some(Entity::Protected(_)) => Standing::Protected(number),
        Some(Entity::Exception) => Standing::Other,
        Some(Entity::Task(_)) => Standing::Task,
        Some(Entity::Unit) => Standing::Other,
        Some(Entity::Doubtful) => Standing::Doubtful,
        None => Standing::Doubtful,
    }
}

fn component_stands(role: Role, form: Option<&TypeForm>, name: &Text) -> Standing
    ensures { result ≡ component_stands role (option_map (λ f. form_value f.now) form.entry) name.now }
{
    match form {
        Some(TypeForm::Record(components)) => match components.subtype_of(name) {
            Some(subtype) => Standing::Part(role, subtype),
            None => Standing::Doubtful,
        },
        _ => Standing::Doubtful,
    }
}

fn is_single(arguments: &[Argument]) -> bool
    ensures { result ≡ is_single (argument_trees arguments.now) }
{
    arguments.len() == 1
}

fn element_stands(role: Role, form: Option<&TypeForm>, single: bool) -> Standing
    ensures { result ≡ element_stands role (option_map (λ f. form_value f.now) form.entry) single }
{
    match form {
        Some(TypeForm::Array(_, _, element)) => {
            if single {
                Standing::Part(role, *element)
            } else {
                Standing::Doubtful
            }
        }
        _ => Standing::Doubtful,
    }
}

fn conversion_stands(subtype: Subtype, form: Option<&TypeForm>, single: bool) -> Standing
    ensures { result ≡ conversion_stands subtype (option_map (λ f. form_value f.now) form.entry) single }
{
    match form {
        Some(TypeForm::Integer) => {
            if single {
                Standing::Given(subtype, None)
            } else {
                Standing::Doubtful
            }
        }
        _ => Standing::Doubtful,
    }
}

fn is_named(name: &Text, word: &str) -> bool
    ensures { result ≡ bytes_eq name.now word.now }
{
    name.as_bytes() == word.as_bytes()
}

fn bound_stands(subtype: Subtype, bound: i64) -> Standing
    ensures { result ≡ bound_stands subtype bound }
{
    Standing::Given(
        Subtype::base_range_of(subtype.type_number),
        Some(Value::Number(bound)),
    )
}

fn bounds_stand(subtype: Subtype, name: &Text) -> Standing
    ensures { result ≡ bounds_stand subtype name.now }
{
    if is_named(name, "FIRST") {
        bound_stands(subtype, subtype.first)
    } else if is_named(name, "LAST") {
        bound_stands(subtype, subtype.last)
    } else {
        Standing::Doubtful
    }
}

fn array_attribute(index: Subtype, length: u16, name: &Text) -> Standing
    ensures { result ≡ array_attribute index length name.now }
{
    if is_named(name, "LENGTH") {
        Standing::Plain(length as i64)
    } else {
        bounds_stand(index, name)
    }
}

fn subtype_attribute(subtype: Subtype, form: Option<&TypeForm>, name: &Text) -> Standing
    ensures { result ≡ subtype_attribute subtype (option_map (λ f. form_value f.now) form.entry) name.now }
{
    match form {
        Some(TypeForm::Integer) => bounds_stand(subtype, name),
        Some(TypeForm::Array(index, length, _)) => array_attribute(*index, *length, name),
        _ => Standing::Doubtful,
    }
}

fn object_attribute(form: Option<&TypeForm>, name: &Text) -> Standing
    ensures { result ≡ object_attribute (option_map (λ f. form_value f.now) form.entry) name.now }
{
    match form {
        Some(TypeForm::Array(index, length, _)) => array_attribute(*index, *length, name),
        _ => Standing::Doubtful,
    }
}

// What a call gives.
fn call_stands(profile: Option<&Profile>) -> Standing
    ensures { result ≡ call_stands (option_map (λ p. profile_value p.now) profile.entry) }
{
    match profile {
        Some(profile) => match profile.result {
            Some(subtype) => Standing::Given(subtype, None),
            None => Standing::Statement,
        },
        None => Standing::Doubtful,
    }
}

// The operation at this position, of the protected object with this number.
fn called_operation(number: usize, position: Option<usize>) -> Standing
    ensures { result ≡ called_operation number position }
{
    match position {
        Some(position) => Standing::Callee(Callee::Operation(number, position)),
        None => Standing::Doubtful,
    }
}

fn operation_stands(number: usize, object: Option<&ProtectedObject>, name: &Text) -> Standing
    ensures { result ≡ operation_stands number (option_map (λ p. protected_value p.now) object.entry) name.now }
{
    match object {
        Some(object) => called_operation(number, object.position_of(name)),
        None => Standing::Doubtful,
    }
}

impl Scope {
    /// The profile of what a call names.
    pub fn callee_profile(&self, callee: Callee) -> Option<&Profile>
        ensures { option_map (λ p. profile_value p.now) result ≡ callee_profile self.now callee }
    {
        match callee {
            Callee::Direct(number) => self.profile(number),
            Callee::Operation(object, position) => {
                match self.protected(object)?.operations.as_slice().get(position) {
                    Some(operation) => Some(&operation.profile),
                    None => None,
                }
            }
        }
    }

    fn object_select(&self, role: Role, subtype: Subtype, selector: &Selector) -> Standing
        ensures { result ≡ object_select self.now role subtype (selector_tree selector.now) }
    {
        arguments_by_parts();
        let form = self.form(subtype.type_number);
        match selector {
            Selector::Component(name) => component_stands(role, form, &name.name),
            Selector::Arguments(arguments) => element_stands(role, form, is_single(arguments)),
            Selector::Attribute(name) => object_attribute(form, &name.name),
        }
    }

    fn subtype_select(&self, subtype: Subtype, selector: &Selector) -> Standing
        ensures { result ≡ select self.now (Standing.Named subtype) (selector_tree selector.now) }
    {
        arguments_by_parts();
        let form = self.form(subtype.type_number);
        match selector {
            Selector::Component(_) => Standing::Doubtful,
            Selector::Arguments(arguments) => {
                conversion_stands(subtype, form, is_single(arguments))
            }
            Selector::Attribute(name) => subtype_attribute(subtype, form, &name.name),
        }
    }

    /// What it denotes with one part more; what has no meaning is doubtful from there on.
    pub fn select(&self, standing: Standing, selector: &Selector) -> Standing
        ensures { result ≡ select self.now standing (selector_tree selector.now) }
    {
        arguments_by_parts();
        match standing {
            Standing::Part(role, subtype) => self.object_select(role, subtype, selector),
            Standing::Fixed(subtype, _) => self.object_select(Role::Constant, subtype, selector),
            Standing::Named(subtype) => self.subtype_select(subtype, selector),
            Standing::Callee(callee) => match selector {
                Selector::Arguments(_) => call_stands(self.callee_profile(callee)),
                _ => Standing::Doubtful,
            },
            Standing::Put => match selector {
                Selector::Arguments(_) => Standing::Statement,
                _ => Standing::Doubtful,
            },
            Standing::Protected(number) => match selector {
                Selector::Component(name) => {
                    operation_stands(number, self.protected(number), &name.name)
                }
                _ => Standing::Doubtful,
            },
            _ => Standing::Doubtful,
        }
    }

    /// What it denotes where it ends: what is called alone is a call (RM 6.4).
    pub fn settle(&self, standing: Standing) -> Standing
        ensures { result ≡ settle self.now standing }
    {
        match standing {
            Standing::Callee(callee) => call_stands(self.callee_profile(callee)),
            Standing::Put => Standing::Statement,
            Standing::Named(_) => Standing::Other,
            Standing::Protected(_) => Standing::Other,
            Standing::Task => Standing::Other,
            _ => standing,
        }
    }

    /// What an identifier denotes before its further parts.
    pub fn stands_first(&self, name: &Identifier) -> Standing
        ensures { result ≡ stands_first self.now (number_of self.now name.now.name) }
    {
        match self.number_of(&name.name) {
            Some(number) => stands_for(number, self.entity(number)),
            None => Standing::Doubtful,
        }
    }

    fn select_all(&self, first: Standing, selectors: &[Selector]) -> Standing
        ensures { result ≡ select_all self.now first (selector_trees selectors.now) }
    {
        let mut standing = first;
        for selector in selectors {
            standing = self.select(standing, selector);
        }
        self.settle(standing)
    }

    /// What a whole name denotes (RM 4.1).
    pub fn standing(&self, name: &NameExpr) -> Standing
        ensures { result ≡ standing_of self.now (name_tree name.now).first (name_tree name.now).selectors }
    {
        self.select_all(self.stands_first(&name.first), &name.selectors)
    }
}
