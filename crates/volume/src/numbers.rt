ghost use Rattle.std.specs.Prelude.{◌≡◌, ℕ, List, take, drop, slice_index};
ghost use Rattle.std.proofs.Common.{arith};
ghost use Rattle.std.proofs.lemmas.Grind.{common_steps};
ghost use Rattle.volume.specs.Files.{word};

// A number of a volume file, a level or a sample, which takes WIDTH bytes.
pub(crate) trait FileNumber<const WIDTH: usize>: Copy {
    // The number that begins at a place.
    ghost number: { List ℕ → ℕ → Self };

    fn from_bytes(bytes: &[u8; WIDTH]) -> Self
        ensures { result ≡ number bytes.now 0 };

    // It depends on its own bytes alone.
    ghost own: { (bytes : List ℕ) (at : ℕ) → number (take WIDTH (drop at bytes)) 0 ≡ number bytes at };
}

impl FileNumber<1> for u8 {
    ghost number = { slice_index };

    ghost own = { Prim.grind (arith, common_steps) };

    fn from_bytes(bytes: &[u8; 1]) -> u8 {
        bytes[0]
    }
}

impl FileNumber<2> for u16 {
    ghost number = { word };

    ghost own = { Prim.grind (arith, common_steps) };

    fn from_bytes(bytes: &[u8; 2]) -> u16 {
        u16::from_le_bytes(*bytes)
    }
}
