//! The blocks that a give names.
ghost use Rattle.std.specs.Prelude.{◌≡◌};
ghost use Rattle.xh_core.specs.Several.{has_twice};

/// Whether a record stands twice among these: the test of Twice, for every machine that gives blocks.
pub fn is_twice(blocks: &[u16]) -> bool
    ensures { result ≡ has_twice blocks.now }
{
    match blocks {
        [] => false,
        [first, rest @ ..] => rest.contains(first) || is_twice(rest),
    }
}
