ghost use Rattle.std.specs.Prelude.{◌≡◌, ℕ, ◌<◌, true, false, replicate, slice_index_or};

// Whether the corners are all inside or all outside.
pub fn is_uniform(inside: &[bool; 8]) -> bool
    ensures each { result ≡ true → (k : ℕ) → k < 8 → slice_index_or inside.now k false ≡ slice_index_or inside.now 0 false }
    ensures whole { result ≡ true → inside.now ≡ replicate 8 (slice_index_or inside.now 0 false) }
{
    let [a, b, c, d, e, f, g, h] = *inside;
    (a | b | c | d | e | f | g | h) == (a & b & c & d & e & f & g & h)
}
