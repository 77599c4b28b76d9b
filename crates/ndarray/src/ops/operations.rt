//! The operations on elements, each as a type, so that what computes arrays of them is written once for all.

use std::marker::PhantomData;
use std::ops::{
    Add, AddAssign, BitAnd, BitAndAssign, BitOr, BitOrAssign, BitXor, BitXorAssign, Div, DivAssign,
    Mul, MulAssign, Neg, Not, Rem, RemAssign, Shl, ShlAssign, Shr, ShrAssign, Sub, SubAssign,
};

/// An operation on two elements.
pub(crate) trait Operation<A, B> {
    /// What it returns.
    type Output;

    // Whether it is defined on two elements.
    ghost can_apply: { A → B → Type 0 };

    // Whether it may give this answer on them.
    ghost apply_gives: { A → B → Self.Output → Type 0 };

    /// Its result on two elements.
    fn apply(a: A, b: B) -> Self::Output
        requires { can_apply a b }
        ensures { apply_gives a b result };
}

/// An operation on one element.
pub(crate) trait UnaryOperation<A> {
    /// What it returns.
    type Output;

    // Whether it is defined on an element.
    ghost can_apply: { A → Type 0 };

    // Whether it may give this answer on it.
    ghost apply_gives: { A → Self.Output → Type 0 };

    /// Its result on an element.
    fn apply(a: A) -> Self::Output
        requires { can_apply a }
        ensures { apply_gives a result };
}

/// An operation with its sides exchanged.
pub(crate) struct Exchange<O>(PhantomData<O>);

impl<A, B, O: Operation<B, A>> Operation<A, B> for Exchange<O> {
    type Output = O::Output;

    ghost can_apply = { λ a b. O.can_apply b a };

    ghost apply_gives = { λ a b. O.apply_gives b a };

    fn apply(a: A, b: B) -> O::Output {
        O::apply(b, a)
    }
}

/// `+`.
pub(crate) struct Addition;

impl<A: Add<B>, B> Operation<A, B> for Addition {
    type Output = A::Output;

    ghost can_apply = { A.can_add };

    ghost apply_gives = { A.add_gives };

    fn apply(a: A, b: B) -> A::Output {
        a + b
    }
}

/// `-`.
pub(crate) struct Subtraction;

impl<A: Sub<B>, B> Operation<A, B> for Subtraction {
    type Output = A::Output;

    ghost can_apply = { A.can_sub };

    ghost apply_gives = { A.sub_gives };

    fn apply(a: A, b: B) -> A::Output {
        a - b
    }
}

/// `*`.
pub(crate) struct Multiplication;

impl<A: Mul<B>, B> Operation<A, B> for Multiplication {
    type Output = A::Output;

    ghost can_apply = { A.can_mul };

    ghost apply_gives = { A.mul_gives };

    fn apply(a: A, b: B) -> A::Output {
        a * b
    }
}

/// `/`.
pub(crate) struct Division;

impl<A: Div<B>, B> Operation<A, B> for Division {
    type Output = A::Output;

    ghost can_apply = { A.can_div };

    ghost apply_gives = { A.div_gives };

    fn apply(a: A, b: B) -> A::Output {
        a / b
    }
}

/// `%`.
pub(crate) struct Remainder;

impl<A: Rem<B>, B> Operation<A, B> for Remainder {
    type Output = A::Output;

    ghost can_apply = { A.can_rem };

    ghost apply_gives = { A.rem_gives };

    fn apply(a: A, b: B) -> A::Output {
        a % b
    }
}

/// `&`.
pub(crate) struct Conjunction;

impl<A: BitAnd<B>, B> Operation<A, B> for Conjunction {
    type Output = A::Output;

    ghost can_apply = { A.can_bitand };

    ghost apply_gives = { A.bitand_gives };

    fn apply(a: A, b: B) -> A::Output {
        a & b
    }
}

/// `|`.
pub(crate) struct Disjunction;

impl<A: BitOr<B>, B> Operation<A, B> for Disjunction {
    type Output = A::Output;

    ghost can_apply = { A.can_bitor };

    ghost apply_gives = { A.bitor_gives };

    fn apply(a: A, b: B) -> A::Output {
        a | b
    }
}

/// `^`.
pub(crate) struct ExclusiveDisjunction;

impl<A: BitXor<B>, B> Operation<A, B> for ExclusiveDisjunction {
    type Output = A::Output;

    ghost can_apply = { A.can_bitxor };

    ghost apply_gives = { A.bitxor_gives };

    fn apply(a: A, b: B) -> A::Output {
        a ^ b
    }
}

/// `<<`.
pub(crate) struct LeftShift;

impl<A: Shl<B>, B> Operation<A, B> for LeftShift {
    type Output = A::Output;

    ghost can_apply = { A.can_shl };

    ghost apply_gives = { A.shl_gives };

    fn apply(a: A, b: B) -> A::Output {
        a << b
    }
}

/// `>>`.
pub(crate) struct RightShift;

impl<A: Shr<B>, B> Operation<A, B> for RightShift {
    type Output = A::Output;

    ghost can_apply = { A.can_shr };

    ghost apply_gives = { A.shr_gives };

    fn apply(a: A, b: B) -> A::Output {
        a >> b
    }
}

/// `+=`, as an operation that returns the new value.
pub(crate) struct AdditionAssign;

impl<A: AddAssign<B>, B> Operation<A, B> for AdditionAssign {
    type Output = A;

    ghost can_apply = { A.can_add_assign };

    ghost apply_gives = { A.add_assign_gives };

    fn apply(mut a: A, b: B) -> A {
        a += b;
        a
    }
}

/// `-=`, as an operation that returns the new value.
pub(crate) struct SubtractionAssign;

impl<A: SubAssign<B>, B> Operation<A, B> for SubtractionAssign {
    type Output = A;

    ghost can_apply = { A.can_sub_assign };

    ghost apply_gives = { A.sub_assign_gives };

    fn apply(mut a: A, b: B) -> A {
        a -= b;
        a
    }
}

/// `*=`, as an operation that returns the new value.
pub(crate) struct MultiplicationAssign;

impl<A: MulAssign<B>, B> Operation<A, B> for MultiplicationAssign {
    type Output = A;

    ghost can_apply = { A.can_mul_assign };

    ghost apply_gives = { A.mul_assign_gives };

    fn apply(mut a: A, b: B) -> A {
        a *= b;
        a
    }
}

/// `/=`, as an operation that returns the new value.
pub(crate) struct DivisionAssign;

impl<A: DivAssign<B>, B> Operation<A, B> for DivisionAssign {
    type Output = A;

    ghost can_apply = { A.can_div_assign };

    ghost apply_gives = { A.div_assign_gives };

    fn apply(mut a: A, b: B) -> A {
        a /= b;
        a
    }
}

/// `%=`, as an operation that returns the new value.
pub(crate) struct RemainderAssign;

impl<A: RemAssign<B>, B> Operation<A, B> for RemainderAssign {
    type Output = A;

    ghost can_apply = { A.can_rem_assign };

    ghost apply_gives = { A.rem_assign_gives };

    fn apply(mut a: A, b: B) -> A {
        a %= b;
        a
    }
}

/// `&=`, as an operation that returns the new value.
pub(crate) struct ConjunctionAssign;

impl<A: BitAndAssign<B>, B> Operation<A, B> for ConjunctionAssign {
    type Output = A;

    ghost can_apply = { A.can_bitand_assign };

    ghost apply_gives = { A.bitand_assign_gives };

    fn apply(mut a: A, b: B) -> A {
        a &= b;
        a
    }
}

/// `|=`, as an operation that returns the new value.
pub(crate) struct DisjunctionAssign;

impl<A: BitOrAssign<B>, B> Operation<A, B> for DisjunctionAssign {
    type Output = A;

    ghost can_apply = { A.can_bitor_assign };

    ghost apply_gives = { A.bitor_assign_gives };

    fn apply(mut a: A, b: B) -> A {
        a |= b;
        a
    }
}

/// `^=`, as an operation that returns the new value.
pub(crate) struct ExclusiveDisjunctionAssign;

impl<A: BitXorAssign<B>, B> Operation<A, B> for ExclusiveDisjunctionAssign {
    type Output = A;

    ghost can_apply = { A.can_bitxor_assign };

    ghost apply_gives = { A.bitxor_assign_gives };

    fn apply(mut a: A, b: B) -> A {
        a ^= b;
        a
    }
}

/// `<<=`, as an operation that returns the new value.
pub(crate) struct LeftShiftAssign;

impl<A: ShlAssign<B>, B> Operation<A, B> for LeftShiftAssign {
    type Output = A;

    ghost can_apply = { A.can_shl_assign };

    ghost apply_gives = { A.shl_assign_gives };

    fn apply(mut a: A, b: B) -> A {
        a <<= b;
        a
    }
}

/// `>>=`, as an operation that returns the new value.
pub(crate) struct RightShiftAssign;

impl<A: ShrAssign<B>, B> Operation<A, B> for RightShiftAssign {
    type Output = A;

    ghost can_apply = { A.can_shr_assign };

    ghost apply_gives = { A.shr_assign_gives };

    fn apply(mut a: A, b: B) -> A {
        a >>= b;
        a
    }
}

/// `-` on one element.
pub(crate) struct Negation;

impl<A: Neg> UnaryOperation<A> for Negation {
    type Output = A::Output;

    ghost can_apply = { A.can_neg };

    ghost apply_gives = { A.neg_gives };

    fn apply(a: A) -> A::Output {
        -a
    }
}

/// `!` on one element.
pub(crate) struct Complement;

impl<A: Not> UnaryOperation<A> for Complement {
    type Output = A::Output;

    ghost can_apply = { A.can_not };

    ghost apply_gives = { A.not_gives };

    fn apply(a: A) -> A::Output {
        !a
    }
}
