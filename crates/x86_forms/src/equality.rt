//! When forms are equal.
ghost use Rattle.std.specs.Prelude.{◌≡◌};
ghost use Rattle.std.specs.Cmp.{on_equiv, on_per};
ghost use Rattle.std.specs.Ordering.{on};
ghost use Rattle.x86_forms.specs.contracts.equality.FormPartsPartialEq.TheImpl.Laws as parts_eq;
ghost use Rattle.x86_forms.specs.contracts.equality.FormPartsEq.TheImpl.Laws as parts_equivalence;
ghost use Rattle.x86_forms.specs.FormParts.{form_parts};
ghost use Rattle.x86_forms.specs.Words.{carried};

use crate::Form;

/// A form by two numbers.
#[derive(Clone, Copy, PartialEq, Eq, Drop)]
struct FormParts {
    first_ordinal: u8,
    carried: u8,
}

impl Form {
    /// The number that the form carries, or 0.
    #[inline(always)]
    pub fn carried(&self) -> u8
        ensures { result ≡ carried self.now }
    {
        match *self {
            Form::Zv_R(num)
            | Form::Zv_AX_R(num)
            | Form::Zb_Ib_R(num)
            | Form::Zv_Ivq_R(num)
            | Form::Zv_B(num) => num,
            _ => 0,
        }
    }

    fn parts(&self) -> FormParts
        ensures { result ≡ form_parts self.now }
    {
        FormParts {
            first_ordinal: self.first_ordinal(),
            carried: self.carried(),
        }
    }
}

/// The same variant with the same number: so forms are compared by two numbers, and not by pairs of variants.
impl PartialEq for Form {
    ghost eq = { on form_parts ⟦<FormParts as PartialEq>⟧.eq };

    ghost laws = { on_per form_parts parts_eq.laws-law };

    fn eq(&self, other: &Form) -> bool {
        self.parts() == other.parts()
    }
}

impl Eq for Form {
    ghost laws = { on_equiv form_parts parts_equivalence.laws-law };
}
