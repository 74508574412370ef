//! What the supplied functions take.

ghost use Rattle.std.specs.Prelude.{◌≡◌, map};
ghost use Rattle.std.specs.Option.{option_map};
ghost use Rattle.bas_scope.specs.Supplied.{forms_told};
ghost use Rattle.bas_rules.specs.Kinds.{form_with as form_of};
ghost use Rattle.bas_operands.specs.Parameters.{parameter_told};

use bas_scope::Forms;

/// What a supplied function takes as an argument.
#[derive(Clone, Copy, Debug)]
pub enum Parameter {
    Number,
    Text,
    Array,
}

/// What a supplied function takes where it is called with a count of arguments, or `None` where it
/// takes another count.
pub fn form_with(count: usize, forms: Forms) -> Option<&'static [Parameter]>
    ensures { option_map (λ form. map parameter_told form.now) result ≡ form_of count (forms_told forms) }
{
    match (forms, count) {
        (Forms::Nothing, 0) => Some(&[]),
        (Forms::Number, 1) => Some(&[Parameter::Number]),
        (Forms::Numbers, 2) => Some(&[Parameter::Number, Parameter::Number]),
        (Forms::Text, 1) => Some(&[Parameter::Text]),
        (Forms::Bound, 1) => Some(&[Parameter::Array]),
        (Forms::Bound, 2) => Some(&[Parameter::Array, Parameter::Number]),
        (Forms::Position, 2) => Some(&[Parameter::Text, Parameter::Text]),
        (Forms::Position, 3) => Some(&[Parameter::Text, Parameter::Text, Parameter::Number]),
        (Forms::Repetition, 2) => Some(&[Parameter::Text, Parameter::Number]),
        _ => None,
    }
}
