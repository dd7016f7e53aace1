//! Which bodies may travel with a record of a length.
ghost use Rattle.std.specs.Prelude.{◌≡◌};

/// Whether a body is well formed for a length.
pub trait Fits {
    ghost use Rattle.std.specs.Prelude.{ℕ, Bool};

    ghost is_fit: { Self → ℕ → Bool };

    /// Whether the body is well formed for a record of `len` bytes. For none that is a blank body, which
    /// takes no memory.
    fn fits(&self, len: u32) -> bool
        ensures { result ≡ is_fit self.now len };
}
