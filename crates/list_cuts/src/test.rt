// A test of one item.
ghost use Rattle.std.specs.Prelude.{◌≡◌, Bool};

/// A test of one item, which answers the same for the same item.
pub trait Test<T> {
    ghost passes: { Self → T → Bool };

    /// Whether the item passes.
    fn test(&self, item: &T) -> bool
        ensures { result ≡ passes self.now item.now };
}
