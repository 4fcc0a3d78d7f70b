//! What a dump shows of variables, which an image has no names of.
ghost use Rattle.std.specs.Prelude.{◌≡◌, option_map, slice_get};
ghost use Rattle.waveforms.specs.Signals.{components, package_variables, variables_in};

use base::Text;
use std::marker::Model;

/// A scalar variable, or a scalar part of one. Contracts see its name and the number of its word.
#[derive(Drop)]
pub struct Variable {
    name: Vec<u8>,
    word: u16,
}

impl Model for Variable {
    ghost use Rattle.waveforms.specs.Scopes as scopes;

    ghost Value = { scopes.Variable };

    ghost view = { λ v. record { name = v.name.items; word = v.word } };

    ghost invariant = { λ v. Unit {0} };
}

impl Variable {
    /// The variable with this name in the source, in upper case, with indexes in parentheses and components after dots. Its word has this number: among the
    /// plain words that of a package's variable, and among the words of the object that of a protected object's component.
    pub fn new(name: Vec<u8>, word: u16) -> Variable
        ensures { result ≡ record { name = name.items; word = word } }
    {
        Variable { name, word }
    }

    /// Its name.
    pub(crate) fn name(&self) -> &[u8]
        ensures { result.now ≡ self.now.name }
    {
        &self.name
    }

    /// The number of its word.
    pub(crate) fn word(&self) -> u16
        ensures { result ≡ self.now.word }
    {
        self.word
    }
}

/// A package or a protected object with its variables or components. Contracts see its name and a list.
#[derive(Drop)]
pub struct VariableScope {
    name: Text,
    variables: Vec<Variable>,
}

impl Model for VariableScope {
    ghost use Rattle.waveforms.specs.Scopes as scopes;

    ghost Value = { scopes.VariableScope };

    ghost view = { λ s. record { name = s.name; variables = s.variables.items } };

    ghost invariant = { λ s. Unit {0} };
}

impl VariableScope {
    /// The package or protected object of this name, with its variables or components in the order of their declarations.
    pub fn new(name: Text, variables: Vec<Variable>) -> VariableScope
        ensures { result ≡ record { name = name; variables = variables.items } }
    {
        VariableScope { name, variables }
    }

    /// Its name.
    pub(crate) fn name(&self) -> &Text
        ensures { result.now ≡ self.now.name }
    {
        &self.name
    }

    /// Its variables.
    pub(crate) fn variables(&self) -> &[Variable]
        ensures { result.now ≡ self.now.variables }
    {
        &self.variables
    }
}

/// The scopes of a dump that have variables. Contracts see the package's, if there is one, and a list.
#[derive(Drop)]
pub struct Scopes {
    package_: Option<VariableScope>,
    objects: Vec<VariableScope>,
}

impl Model for Scopes {
    ghost use Rattle.waveforms.specs.Scopes as scopes;

    ghost Value = { scopes.Scopes };

    ghost view = { λ s. record { package_ = s.package_; objects = s.objects.items } };

    ghost invariant = { λ s. Unit {0} };
}

// The variables of a scope, if there is one.
fn variables_in(scope: Option<&VariableScope>) -> &[Variable]
    ensures { result.now ≡ variables_in (option_map (λ s. s.now) scope.entry) }
{
    match scope {
        None => &[],
        Some(scope) => scope.variables(),
    }
}

impl Scopes {
    /// The scopes of a package, if there is one, and of the protected objects in the order of their numbers.
    pub fn new(package_: Option<VariableScope>, objects: Vec<VariableScope>) -> Scopes
        ensures { result ≡ record { package_ = package_; objects = objects.items } }
    {
        Scopes { package_, objects }
    }

    /// The scope of the package, if there is one.
    pub(crate) fn package_(&self) -> Option<&VariableScope>
        ensures { option_map (λ s. s.now) result ≡ self.now.package_ }
    {
        self.package_.as_ref()
    }

    /// The scope of an object, if it has one here.
    pub(crate) fn object(&self, object: u8) -> Option<&VariableScope>
        ensures { option_map (λ s. s.now) result ≡ slice_get self.now.objects object }
    {
        self.objects.get(usize::from(object))
    }

    /// The variables of the package.
    pub(crate) fn package_variables(&self) -> &[Variable]
        ensures { result.now ≡ package_variables self.now }
    {
        variables_in(self.package_())
    }

    /// The components of an object.
    pub(crate) fn components(&self, object: u8) -> &[Variable]
        ensures { result.now ≡ components self.now object }
    {
        variables_in(self.object(object))
    }
}
