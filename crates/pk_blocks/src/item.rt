// What a list's items are, and what merges two lists of them.

ghost use Rattle.std.specs.Prelude.{◌≡◌, ◌↔◌, ℕ, true};

/// An item of a list: small, and told apart from others.
pub trait Item: Copy {
    /// Whether both are the same.
    fn same(&self, other: &Self) -> bool
        ensures { result ≡ true ↔ self.now ≡ other.now };
}

/// What makes an item of two, each at the same place of a list.
pub trait Merge<T> {
    ghost merged: { Self → ℕ → T → T → T };

    /// The item that both make.
    fn merge(&self, i: usize, a: &T, b: &T) -> T
        ensures { result ≡ merged self.now i a.now b.now };

    /// Whether that is surely the left one.
    fn keeps(&self, i: usize, a: &T, b: &T) -> bool
        ensures { result ≡ true → merged self.now i a.now b.now ≡ a.now };
}
