//! Static expressions (RM 4.9): which are, and their values.
ghost use Rattle.std.specs.Prelude.{◌≡◌, Some, IfOk, IfErr, OnOk};
ghost use Rattle.ada_tree.specs.ExpressionTree.{expr_tree};
ghost use Rattle.types.specs.Evaluations.{Gives, and_then};
ghost use Rattle.types.specs.Knowing.{combined, evaluation_value, finding, found, found_after, mapped, name_found};
ghost use Rattle.types.specs.Operators.{unary_value};
ghost use Rattle.types.specs.Statics.{start_of, static_fault, static_form, static_value};
ghost use Rattle.types.specs.Values.{value_of};

use crate::entity::Value;
use crate::evaluation::Evaluation;
use crate::scope::Scope;
use crate::standing::Standing;
use ada_tree::laws::{chains_by_parts, names_by_parts};
use ada_tree::{BinaryOperator, Expr, Operand, UnaryOperator};
use base::faults::{NO_MEANING, NOT_STATIC, WRONG_STATIC_VALUE};
use lexer::Fault;

/// Whether an expression is static by its form.
#[derive(Clone, Copy, Debug, PartialEq, Eq)]
pub enum StaticForm {
    Static,
    NotStatic,
    /// A name in it has no meaning, or is not known.
    Doubtful,
}

// What is found of an expression: where it is static by its form, what its evaluation comes to.
#[derive(Clone, Copy, Debug, PartialEq, Eq)]
enum Known {
    Static(Evaluation),
    NotStatic,
    Doubtful,
}

fn name_known(standing: Standing) -> Known
    ensures { finding result ≡ name_found standing }
{
    match standing {
        Standing::Fixed(_, Some(v)) => Known::Static(Evaluation::Gives(v)),
        Standing::Given(_, Some(v)) => Known::Static(Evaluation::Gives(v)),
        Standing::Plain(z) => Known::Static(Evaluation::Gives(Value::Number(z))),
        Standing::Doubtful => Known::Doubtful,
        _ => Known::NotStatic,
    }
}

impl Known {
    fn under(self, operator: UnaryOperator) -> Known
        ensures { finding result ≡ mapped (λ v. and_then v (unary_value operator)) (finding self) }
    {
        match self {
            Known::Static(operand) => Known::Static(operand.under(operator)),
            other => other,
        }
    }

    fn with(self, operator: BinaryOperator, right: Known) -> Known
        ensures { finding result ≡ combined operator (finding self) (finding right) }
    {
        match (self, right) {
            (Known::Static(a), Known::Static(b)) => Known::Static(a.with(operator, b)),
            (Known::Static(_), _) => right,
            (Known::NotStatic, _) => Known::NotStatic,
            (Known::Doubtful, Known::NotStatic) => Known::NotStatic,
            (Known::Doubtful, _) => Known::Doubtful,
        }
    }
}

impl Scope {
    #[cycle(known)]
    fn known(&self, e: &Expr) -> Known
        ensures { finding result ≡ found self.now (expr_tree e.now) }
    {
        names_by_parts();
        chains_by_parts();
        match e {
            Expr::Number(z, _) => Known::Static(Evaluation::Gives(Value::Number(*z))),
            Expr::Name(name) => name_known(self.standing(name)),
            Expr::Parenthesized(_, inner) => self.known(inner),
            Expr::Unary(operator, _, operand) => self.known(operand).under(*operator),
            Expr::Chain(first, second, more) => {
                let left = self.known(first);
                let right = self.known(&second.value);
                self.known_after(left.with(second.operator, right), more)
            }
            Expr::Conditional(..) => Known::NotStatic,
        }
    }

    // What operators and the operands behind them make of what is known of all before them.
    #[cycle(known)]
    fn known_after(&self, first: Known, operands: &[Operand]) -> Known
        ensures { finding result ≡ found_after self.now (finding first) operands.now }
    {
        let mut known = first;
        for operand in operands {
            known = known.with(operand.operator, self.known(&operand.value));
        }
        known
    }

    /// Whether the expression is static by its form (RM 4.9).
    pub fn static_form(&self, e: &Expr) -> StaticForm
        ensures { result ≡ static_form self.now (expr_tree e.now) }
    {
        match self.known(e) {
            Known::Static(_) => StaticForm::Static,
            Known::NotStatic => StaticForm::NotStatic,
            Known::Doubtful => StaticForm::Doubtful,
        }
    }
}

/// The place of an expression: that of its first token.
pub fn start_of(e: &Expr) -> u32
    ensures { result ≡ start_of (expr_tree e.now) }
{
    chains_by_parts();
    match e {
        Expr::Number(_, place) => *place,
        Expr::Name(name) => name.first.place,
        Expr::Parenthesized(place, _) => *place,
        Expr::Conditional(place, _, _, _, _) => *place,
        Expr::Unary(_, place, _) => *place,
        Expr::Chain(first, _, _) => start_of(first),
    }
}

/// The value of a static expression (RM 4.9). Fault 14 where the expression is not static, 15 where its evaluation raises an exception, and 12 where an
/// operator in it has no meaning for its operands; each at the start of the expression.
pub fn static_value(scope: &Scope, e: &Expr) -> Result<Value, Fault>
    ensures form { OnOk result (static_form scope.now (expr_tree e.now) ≡ StaticForm.Static) }
    ensures value { IfOk result (λ v. static_value scope.now (expr_tree e.now) ≡ Gives (value_of v)) }
    ensures fault { IfErr result (λ f. static_fault scope.now (expr_tree e.now) ≡ Some f.number) }
    ensures place { IfErr result (λ f. f.place ≡ start_of (expr_tree e.now)) }
{
    let number = match scope.known(e) {
        Known::Static(Evaluation::Gives(value)) => return Ok(value),
        Known::Static(Evaluation::Raises(_)) => WRONG_STATIC_VALUE,
        Known::Static(Evaluation::Meaningless) => NO_MEANING,
        Known::NotStatic | Known::Doubtful => NOT_STATIC,
    };
    Err(Fault {
        number,
        place: start_of(e),
    })
}
