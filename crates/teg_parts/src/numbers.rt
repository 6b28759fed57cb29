//! Numbers that all are given.
ghost use Rattle.std.specs.Prelude.{IfOk};
ghost use Rattle.teg_parts.specs.PartNumbers.{AllNumbered, AreNumbersListed};

use std::alloc::{AllocError, Global};

// The numbers, where each transition has one.
pub(crate) fn numbers_of(alloc: Global, numbers: &[Option<u32>]) -> Result<Vec<u32>, AllocError>
    requires { AllNumbered numbers.now }
    ensures { IfOk result (λ plain. AreNumbersListed numbers.now plain.items) }
{
    let mut plain = Vec::new(alloc);
    for number in numbers {
        plain.push(number.unwrap())?;
    }
    Ok(plain)
}
