//! Sums and products of elements, in the values that they have.

ghost use Rattle.std.specs.Prelude.{◌≡◌};

use crate::elements::LinalgScalar;

/// A sum.
#[inline(always)]
pub(crate) fn add<A: LinalgScalar>(x: A, y: A) -> A
    requires { A.InRange (A.addition.op (A.meaning x) (A.meaning y)) }
    ensures { A.meaning result ≡ A.addition.op (A.meaning x) (A.meaning y) }
{
    x + y
}

/// A product.
#[inline(always)]
pub(crate) fn multiply<A: LinalgScalar>(x: A, y: A) -> A
    requires { A.InRange (A.multiplication.op (A.meaning x) (A.meaning y)) }
    ensures { A.meaning result ≡ A.multiplication.op (A.meaning x) (A.meaning y) }
{
    x * y
}

/// A sum, and a product added to it.
#[inline(always)]
pub(crate) fn add_product<A: LinalgScalar>(sum: A, x: A, y: A) -> A
    requires product { A.InRange (A.multiplication.op (A.meaning x) (A.meaning y)) }
    requires added { A.InRange (A.addition.op (A.meaning sum) (A.multiplication.op (A.meaning x) (A.meaning y))) }
    ensures { A.meaning result ≡ A.addition.op (A.meaning sum) (A.multiplication.op (A.meaning x) (A.meaning y)) }
{
    sum + x * y
}
