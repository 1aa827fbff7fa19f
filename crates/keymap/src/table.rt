ghost use Rattle.std.specs.Prelude.{◌≡◌, ℕ, List};
ghost use Rattle.keymap.specs.Probe.{alike};

// What a table can be keyed by: values with an equality, which is that of their meanings, and a hash, which equal keys share.
pub trait Key {
    // What a key stands for.
    ghost meaning: { Self → List ℕ };

    // The hash of a meaning.
    ghost hashed: { List ℕ → ℕ };

    fn same(&self, other: &Self) -> bool
        ensures { result ≡ alike (meaning self.now) (meaning other.now) };

    fn hash(&self) -> u32
        ensures { result ≡ hashed (meaning self.now) };
}

// A key that a table holds, and the number held for it.
#[derive(Clone, Copy, Drop)]
pub struct Entry<K> {
    pub key: K,
    pub number: u32,
}

// The table has no entry for a new key.
#[derive(Clone, Copy, PartialEq, Eq, Debug)]
pub struct Full;
