//! Which tables the parts of a kernel belong to, and what its histories lead to.
use std::marker::Brand;

/// A kernel's parts, by what they have in common, and the law of its histories: to which places the calls of a
/// place's history lead. The types behind its locks cite them, so that what a lock holds is known by its type, and
/// the clause of a call, so that nobody can make its two places up.
/// A kernel is made, used and settled inside one function over `Names`, which is called with
/// `std::marker::Brand`.
pub trait Names {
    ghost use Rattle.xh_calls.specs.Leading.{Leading};
    ghost use Rattle.xh_calls.specs.Parts.{PartsOf};

    ghost parts: { PartsOf };

    ghost leads: { Leading };
}

impl Names for Brand {
    ghost use Rattle.xh_calls.specs.Parts.{no_parts};

    ghost parts = { no_parts };

    ghost leads = { λ _ _ _. Unit {0} };
}
