//! First values of `out` parameters, as they are put together (RM 6.4.1).
ghost use Rattle.std.specs.Prelude.{◌≡◌, OnOk};
ghost use Rattle.expr_code.specs.Pieces.{adds};
ghost use Rattle.stmt_code.specs.WholeCode.{out_code, outs_code};

use crate::initial_values::initialise;
use ada_tree::Mode;
use expr_code::Visible;
use expr_code::fragment::Fragment;
use part_code::PlacedFormal;
use std::alloc::AllocError;

// Adds what gives a parameter that is not copied in the value of an object without initial value, and nothing for another one.
#[tactic(auto, using(expr_code::proofs::Pieces::adds_nothing))]
fn initialise_out(
    fragment: &mut Fragment,
    visible: &Visible,
    formal: &PlacedFormal,
) -> Result<(), AllocError>
    ensures made { OnOk result (fragment.new ≡ adds fragment.old (out_code visible.now formal.now)) }
{
    match formal.mode {
        Mode::In => Ok(()),
        Mode::Out => initialise(fragment, visible, formal.offset, formal.subtype, &None),
        Mode::InOut => Ok(()),
    }
}

/// Adds what gives `out` parameters the value of an object without initial value.
pub fn initialise_outs(
    fragment: &mut Fragment,
    visible: &Visible,
    formals: &[PlacedFormal],
) -> Result<(), AllocError>
    ensures made { OnOk result (fragment.new ≡ adds fragment.old (outs_code visible.now formals.now)) }
{
    for formal in formals {
        initialise_out(fragment, visible, formal)?;
    }
    Ok(())
}
