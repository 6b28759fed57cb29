//! Truth values as a dioid.
use crate::algebra::{Dioid, Kleene, Refused, Residuated};
use std::alloc::Global;

/// A truth value.
///
/// The flags are the Boolean dioid (chapter 3): the sum is "or", the product is "and", `No` is zero
/// and `Yes` is one.
#[derive(Clone, Copy, Debug, PartialEq, Eq)]
pub enum Flag {
    /// False, the zero.
    No,
    /// True, the one.
    Yes,
}

impl Dioid for Flag {
    ghost use Rattle.std.specs.Prelude.{false, ⊤};
    ghost use Rattle.dioid.specs.declared.flags.Flag.TheVariants.{No, Yes};
    ghost use Rattle.dioid.specs.Flags.{flag_or, flag_and};
    ghost use Rattle.dioid.specs.Proved.FlagLaws.{flags_closed, flag_laws};

    const TAKES_MEMORY: bool = false;

    ghost TAKES_MEMORY = { false };

    ghost is_element = { λ _. ⊤ };

    ghost zero = { No };

    ghost one = { Yes };

    ghost sum = { flag_or };

    ghost product = { flag_and };

    ghost sum_fits = { λ _ _. ⊤ };

    ghost product_fits = { λ _ _. ⊤ };

    ghost closed = { flags_closed };

    ghost laws = { flag_laws };

    fn zero(_alloc: Global) -> Result<Flag, Refused> {
        Ok(Flag::No)
    }

    fn one(_alloc: Global) -> Result<Flag, Refused> {
        Ok(Flag::Yes)
    }

    fn plus(&self, _alloc: Global, other: &Flag) -> Result<Flag, Refused> {
        match self {
            Flag::No => Ok(*other),
            Flag::Yes => Ok(Flag::Yes),
        }
    }

    fn times(&self, _alloc: Global, other: &Flag) -> Result<Flag, Refused> {
        match self {
            Flag::No => Ok(Flag::No),
            Flag::Yes => Ok(*other),
        }
    }

    fn duplicate(&self, _alloc: Global) -> Result<Flag, Refused> {
        Ok(*self)
    }

    fn same(&self, other: &Flag) -> bool {
        *self == *other
    }
}

impl Kleene for Flag {
    ghost use Rattle.std.specs.Prelude.{⊤};
    ghost use Rattle.dioid.specs.declared.flags.Flag.TheVariants.{Yes};
    ghost use Rattle.dioid.specs.Proved.FlagLaws.{flag_star_laws};

    ghost star = { λ _. Yes };

    ghost star_fits = { λ _. ⊤ };

    ghost star_laws = { flag_star_laws };

    fn star(&self, _alloc: Global) -> Result<Flag, Refused> {
        Ok(Flag::Yes)
    }
}

impl Residuated for Flag {
    ghost use Rattle.std.specs.Prelude.{⊤};
    ghost use Rattle.dioid.specs.Flags.{flag_and, flag_left};
    ghost use Rattle.dioid.specs.Proved.FlagLaws.{flag_residual_laws};

    ghost left = { flag_left };

    ghost meet = { flag_and };

    ghost left_fits = { λ _ _. ⊤ };

    ghost meet_fits = { λ _ _. ⊤ };

    ghost residual_laws = { flag_residual_laws };

    fn left(&self, _alloc: Global, other: &Flag) -> Result<Flag, Refused> {
        match self {
            Flag::No => Ok(Flag::Yes),
            Flag::Yes => Ok(*other),
        }
    }

    fn meet(&self, alloc: Global, other: &Flag) -> Result<Flag, Refused> {
        self.times(alloc, other)
    }
}
