ghost use Rattle.std.specs.Prelude.{◌≡◌, ℕ, ◌<◌, false, None, length, replicate, is_some, is_ok, IfSome, slice_index_or};
ghost use Rattle.std.specs.Option.{option_map};
ghost use Rattle.std.specs.List.{position};
ghost use Rattle.keymap.specs.Probe.{start, stops, slot, lookup, put, Sound, Crowded};
ghost use Rattle.keymap.specs.Law.{Maps};

use crate::table::{Entry, Full, Key};

// Whether probing for `key` ends at an entry.
fn ends_at<K: Key>(entry: &Option<Entry<K>>, key: &K) -> bool
    ensures { result ≡ stops K.meaning (K.meaning key.now) entry.now }
{
    match entry {
        None => true,
        Some(held) => held.key.same(key),
    }
}

// The first of some entries at which probing for `key` ends, with its place.
fn first_end<'e, K: Key>(
    entries: &'e [Option<Entry<K>>],
    key: &K,
) -> Option<(usize, &'e Option<Entry<K>>)>
    ensures place { option_map (λ r. r.0) result ≡ position (stops K.meaning (K.meaning key.now)) entries.now }
    ensures entry { IfSome result (λ r. r.1.now ≡ slice_index_or entries.now r.0 None) }
{
    for (i, entry) in entries.iter().enumerate() {
        if ends_at(entry, key) {
            return Some((i, entry));
        }
    }
    None
}

// Where probing for `key` ends, and the entry there: from its start entry on, after the last at the first, until the key or a free entry is
// met.
fn probe<'e, K: Key>(
    entries: &'e [Option<Entry<K>>],
    key: &K,
) -> Option<(usize, &'e Option<Entry<K>>)>
    ensures within { IfSome result (λ r. r.0 < length entries.now) }
    ensures found { option_map (λ r. r.0) result ≡ slot K.meaning K.hashed entries.now (K.meaning key.now) }
    ensures entry { IfSome result (λ r. r.1.now ≡ slice_index_or entries.now r.0 None) }
{
    let n = entries.len();
    if n == 0 {
        return None;
    }
    let start = key.hash().wrapping_mul(2_654_435_761) as usize % n;
    let (before, after) = entries.split_at(start);
    match first_end(after, key) {
        Some((i, entry)) => Some((start + i, entry)),
        None => first_end(before, key),
    }
}

// The number that `entries` hold for `key`.
pub fn number_of<K: Key>(entries: &[Option<Entry<K>>], key: &K) -> Option<u32>
    ensures { result ≡ lookup K.meaning K.hashed entries.now (K.meaning key.now) }
{
    let (_, entry) = probe(entries, key)?;
    entry.as_ref().map(|held| held.number)
}

// A map from keys to numbers, in a lent slice of entries, of which those that hold no key are free.
#[derive(Drop)]
pub struct KeyMap<'a, K> {
    entries: &'a mut [Option<Entry<K>>],
}

impl<'a, K: Drop> KeyMap<'a, K> {
    // A map over what `entries` hold.
    pub fn over(entries: &'a mut [Option<Entry<K>>]) -> KeyMap<'a, K>
        ensures value { result.entries.now ≡ entries.old }
        ensures same { result.entries.ghost_name ≡ entries.entry.ghost_name }
    {
        KeyMap { entries }
    }

    // How many entries there are, free ones too.
    pub fn len(&self) -> usize
        ensures { result ≡ length self.now.entries.now }
    {
        self.entries.len()
    }

    // Makes every entry free.
    pub fn clear(&mut self)
        ensures free { self.new.entries.now ≡ replicate (length self.old.entries.now) None }
        ensures same { self.new.entries.ghost_name ≡ self.old.entries.ghost_name }
    {
        for entry in self.entries.iter_mut() {
            *entry = None;
        }
    }
}

impl<K: Key + Drop> KeyMap<'_, K> {
    // The place of the entry at which probing for `key` ends.
    fn find(&self, key: &K) -> Option<usize>
        ensures within { IfSome result (λ i. i < length self.now.entries.now) }
        ensures found { result ≡ slot K.meaning K.hashed self.now.entries.now (K.meaning key.now) }
    {
        let (i, _) = probe(self.entries, key)?;
        Some(i)
    }

    // The number held for `key`.
    pub fn get(&self, key: &K) -> Option<u32>
        ensures { result ≡ lookup K.meaning K.hashed self.now.entries.now (K.meaning key.now) }
    {
        number_of(self.entries, key)
    }

    // Holds `number` for `key`, in place of the number held for it, if any. A full map takes no new key, and is left as it is.
    pub fn insert(&mut self, key: K, number: u32) -> Result<(), Full>
        ensures entries { self.new.entries.now ≡ put self.old.entries.now (slot K.meaning K.hashed self.old.entries.now (K.meaning key)) key number }
        ensures answer { is_ok result ≡ is_some (slot K.meaning K.hashed self.old.entries.now (K.meaning key)) }
        ensures maps { Sound K.meaning K.hashed self.old.entries.now → Maps K.meaning K.hashed self.old.entries.now self.new.entries.now key number }
        ensures full { is_ok result ≡ false → Crowded self.old.entries.now }
        ensures same { self.new.entries.ghost_name ≡ self.old.entries.ghost_name }
    {
        let i = self.find(&key).ok_or(Full)?;
        self.entries[i] = Some(Entry { key, number });
        Ok(())
    }
}
