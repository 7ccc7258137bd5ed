ghost use Rattle.std.specs.Prelude.{◌≡◌, ℕ};

/// A value with a number, its rank, by which a shared list of such values ascends.
pub trait Ranked {
    ghost rank_of: { Self → ℕ };

    fn rank(&self) -> u64
        ensures { result ≡ rank_of self.now };
}
