//! What a name of a body is.

ghost use Rattle.std.specs.Prelude.{◌≡◌};
ghost use Rattle.std.specs.Option.{option_map};
ghost use Rattle.bas_scope.specs.Senses.{sense_told, shape_written, undeclared_shape as undeclared_shape_of, type_written};
ghost use Rattle.bas_names.specs.Names.{lookup_in, senses_in};

use crate::entry::Table;
use bas_base::Name;
use bas_scope::{Sense, WrittenShape, WrittenType, forms_of, is_text_name};
use bas_text::MAX_STRING_LEN;

/// Where the names of a body are looked up, from the inside out.
#[derive(Clone, Copy, Debug)]
pub struct Names<'a> {
    /// The names of an internal procedure, in its body.
    pub inner: Option<&'a Table>,
    /// The names of a program, an external procedure or an initial part.
    pub container: &'a Table,
    /// The variables of the module, and its procedures.
    pub variables: &'a Table,
    pub procedures: &'a Table,
    /// The type of the numbers that nothing declares.
    pub numbers: WrittenType,
}

fn undeclared_shape(numbers: WrittenType, name: Name) -> WrittenShape
    ensures { shape_written result ≡ undeclared_shape_of (type_written numbers) name }
{
    if is_text_name(name) {
        WrittenShape::Str(MAX_STRING_LEN as u32)
    } else {
        WrittenShape::Num(numbers)
    }
}

impl<'a> Names<'a> {
    ghost use Rattle.bas_scope.specs.Senses.{function_sense};

    // What a name is by the names of the body.
    fn found(&self, name: &Name) -> Option<Sense<'a>>
        ensures { option_map sense_told result ≡ (lookup_in self.now).names name.now }
    {
        if let Some(inner) = self.inner {
            if let Some(sense) = inner.find(name) {
                return Some(sense);
            }
        }
        match self.container.find(name) {
            Some(sense) => Some(sense),
            None => self.variables.find(name),
        }
    }

    // What a function of the module is.
    fn function(&self, name: &Name) -> Option<Sense<'a>>
        ensures { option_map sense_told result ≡ function_sense ((lookup_in self.now).procedures name.now) }
    {
        match self.procedures.find(name) {
            Some(Sense::Function(formals, set_here)) => Some(Sense::Function(formals, set_here)),
            _ => None,
        }
    }

    /// What a name is as an operand or a target.
    pub fn named(&self, name: Name) -> Sense<'a>
        ensures { sense_told result ≡ (senses_in self.now).named name }
    {
        if let Some(forms) = forms_of(name) {
            return Sense::Supplied(forms);
        }
        match self.found(&name) {
            Some(sense) => sense,
            None => match self.function(&name) {
                Some(sense) => sense,
                None => Sense::Variable(undeclared_shape(self.numbers, name)),
            },
        }
    }

    /// What a name is by `CALL`.
    pub fn called(&self, name: Name) -> Sense<'a>
        ensures { sense_told result ≡ (senses_in self.now).called name }
    {
        match self.found(&name) {
            Some(Sense::Sub(formals)) => Sense::Sub(formals),
            Some(Sense::Function(formals, set_here)) => Sense::Function(formals, set_here),
            _ => match self.procedures.find(&name) {
                Some(sense) => sense,
                None => Sense::Sub(None),
            },
        }
    }
}
