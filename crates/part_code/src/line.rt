//! The label and the value of a line.
ghost use Rattle.std.specs.Prelude.{◌≡◌, option_map};
ghost use Rattle.ada_tree.specs.ExpressionTree.{argument_trees, expr_tree, name_tree};
ghost use Rattle.part_code.specs.Lines.{line_in, line_of};

use ada_tree::laws::arguments_by_parts;
use ada_tree::{Argument, Expr, NameExpr, Selector};
use lexer::Text;

// The label and the value, where the arguments are both.
fn line_in(arguments: &[Argument]) -> Option<(&Text, &Expr)>
    ensures { option_map (λ line. record { label = line.0.now; value = expr_tree line.1.now }) result ≡ line_in (argument_trees arguments.now) }
{
    match arguments {
        [Argument::Label(label, ..), Argument::Expr(value, ..)] => Some((label, value)),
        [Argument::Label(..), Argument::Label(..)] => None,
        [Argument::Expr(..), _] => None,
        [] => None,
        [_] => None,
        [_, _, _, ..] => None,
    }
}

/// The label and the value, where a name has both after it.
pub fn line_of(name: &NameExpr) -> Option<(&Text, &Expr)>
    ensures { option_map (λ line. record { label = line.0.now; value = expr_tree line.1.now }) result ≡ line_of (name_tree name.now) }
{
    arguments_by_parts();
    match name.selectors.as_slice() {
        [Selector::Arguments(arguments, ..)] => line_in(arguments),
        [Selector::Component(..)] => None,
        [Selector::Attribute(..)] => None,
        [] => None,
        [_, _, ..] => None,
    }
}
