//! Things with a name.

ghost use Rattle.std.specs.Prelude.{◌≡◌, ℕ, List};

/// Something with a name, such as a row of a directory.
pub trait HasName {
    ghost name: { Self → List ℕ };

    /// The bytes of its name.
    fn name(&self) -> &[u8]
        ensures { result.now ≡ name self.now };
}
