//! The numbers that the operators of rows compute with.

use ndarray::ScalarOperand;
use std::alloc::{AllocError, Global};
use std::ops::{Add, BitAnd, BitOr, BitXor, Div, Mul, Neg, Not, Rem, Shl, Shr, Sub};

/// An `i64` whose operators are defined on all operands: they wrap, a shift takes its amount modulo 64 (0 for one that is
/// no `u32`), and where there is no quotient or remainder it is 0.
#[derive(Clone, Copy)]
pub struct Wrapped(pub i64);

impl ScalarOperand for Wrapped {}

/// These numbers, to compute with.
pub fn wrap_all(alloc: Global, numbers: &[i64]) -> Result<Vec<Wrapped>, AllocError> {
    let mut wrapped = Vec::new(alloc);
    for number in numbers {
        wrapped.push(Wrapped(*number))?;
    }
    Ok(wrapped)
}

impl Add for Wrapped {
    type Output = Wrapped;

    fn add(self, rhs: Wrapped) -> Wrapped {
        Wrapped(self.0.wrapping_add(rhs.0))
    }
}

impl Sub for Wrapped {
    type Output = Wrapped;

    fn sub(self, rhs: Wrapped) -> Wrapped {
        Wrapped(self.0.wrapping_sub(rhs.0))
    }
}

impl Mul for Wrapped {
    type Output = Wrapped;

    fn mul(self, rhs: Wrapped) -> Wrapped {
        Wrapped(self.0.wrapping_mul(rhs.0))
    }
}

impl Div for Wrapped {
    type Output = Wrapped;

    fn div(self, rhs: Wrapped) -> Wrapped {
        Wrapped(self.0.checked_div(rhs.0).unwrap_or(0))
    }
}

impl Rem for Wrapped {
    type Output = Wrapped;

    fn rem(self, rhs: Wrapped) -> Wrapped {
        Wrapped(self.0.checked_rem(rhs.0).unwrap_or(0))
    }
}

impl BitAnd for Wrapped {
    type Output = Wrapped;

    fn bitand(self, rhs: Wrapped) -> Wrapped {
        Wrapped(self.0 & rhs.0)
    }
}

impl BitOr for Wrapped {
    type Output = Wrapped;

    fn bitor(self, rhs: Wrapped) -> Wrapped {
        Wrapped(self.0 | rhs.0)
    }
}

impl BitXor for Wrapped {
    type Output = Wrapped;

    fn bitxor(self, rhs: Wrapped) -> Wrapped {
        Wrapped(self.0 ^ rhs.0)
    }
}

impl Shl for Wrapped {
    type Output = Wrapped;

    fn shl(self, rhs: Wrapped) -> Wrapped {
        Wrapped(self.0.wrapping_shl(u32::try_from(rhs.0).unwrap_or(0)))
    }
}

impl Shr for Wrapped {
    type Output = Wrapped;

    fn shr(self, rhs: Wrapped) -> Wrapped {
        Wrapped(self.0.wrapping_shr(u32::try_from(rhs.0).unwrap_or(0)))
    }
}

impl Neg for Wrapped {
    type Output = Wrapped;

    fn neg(self) -> Wrapped {
        Wrapped(self.0.wrapping_neg())
    }
}

impl Not for Wrapped {
    type Output = Wrapped;

    fn not(self) -> Wrapped {
        Wrapped(!self.0)
    }
}
