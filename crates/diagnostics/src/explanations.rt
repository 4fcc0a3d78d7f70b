//! What is said of each fault (docs/FAULTS.md): the rule, a text that breaks it with the line that the program writes, and what to write instead.

ghost use Rattle.std.specs.Prelude.{◌≡◌, is_some, option_map};
ghost use Rattle.diagnostics.specs.explanations.Explained.{explanation_of, is_fault_number};

mod choices;
mod handlers;
mod images;
mod memory;
mod restrictions;
mod rules;
mod schedules;
mod spelling;

use memory::MEMORY_REFUSED;

/// What the section of docs/FAULTS.md says that has this number, as lines for a terminal; None where no fault has it.
pub fn explanation(number: u64) -> Option<&'static str>
    ensures explained { option_map (λ text. text.now) result ≡ explanation_of number }
    ensures numbered { is_some result ≡ is_fault_number number }
{
    match number {
        1..=7 => spelling::explanation(number),
        10..=23 => rules::explanation(number),
        30..=39 => restrictions::explanation(number),
        40..=47 => images::explanation(number),
        50..=53 => schedules::explanation(number),
        60 => Some(MEMORY_REFUSED),
        70..=73 => handlers::explanation(number),
        80 => choices::explanation(number),
        82..=86 => choices::explanation(number),
        _ => None,
    }
}
