//! The order in which faults are reported, what the check finds, and the words of packages, each what a function without work ensures.
ghost use Rattle.legality.specs.FoundFaults.{FindsWhatIsBroken};
ghost use Rattle.legality.specs.ProgramLayouts.{ObjectsStandAtTheirNumbers, VariablesStandInOrder, WordsHaveRoom};
ghost use Rattle.legality.specs.ProgramRules.{OrderIsByPlaceAndNumber};

use declaration_rules::laws::names_are_added;
use size_rules::laws::words_add_up;
use types::laws::shapes_stay;

/// The order of a program's faults: by their places in the text, and at one place by their numbers; the first of them is reported.
pub fn order_is_by_place_and_number()
    ensures { OrderIsByPlaceAndNumber }
{}

/// What the check finds of a program is what is broken in it.
pub fn check_finds_what_is_broken()
    ensures { FindsWhatIsBroken }
{}

/// A program that passes no limit has room for the words of its variables and of the components of its protected objects.
pub fn words_have_room()
    ensures { WordsHaveRoom }
{
    words_add_up();
    shapes_stay();
    names_are_added();
}

/// The position of a variable in the layout is the number of variables among the names before it.
pub fn variables_stand_in_order()
    ensures { VariablesStandInOrder }
{}

/// The layout of a protected object's components has the object's number.
pub fn objects_stand_at_their_numbers()
    ensures { ObjectsStandAtTheirNumbers }
{}
