ghost use Rattle.std.specs.Prelude.{◌≡◌, ℕ, ◌+◌, ◌-◌, ◌<◌, ◌≤◌, min, length, slice_set, take};
ghost use Rattle.surface.specs.Questions.{RecordAnswer};
ghost use Rattle.surface.specs.Rooms.{room_left};

use refusal::Refusal;

// Records in a lent slice, and how many of them are taken.
#[derive(Drop)]
pub struct Records<'a, T> {
    pub(crate) items: &'a mut [T],
    pub(crate) count: u32,
    ghost fits: { count ≤ length items.now },
}

impl<'a, T: Copy> Records<'a, T> {
    // No record is taken yet.
    pub fn over(items: &'a mut [T]) -> Records<'a, T>
        ensures items { result.items.now ≡ items.old }
        ensures count { result.count ≡ 0 }
        ensures same { result.items.ghost_name ≡ items.entry.ghost_name }
    {
        Records { items, count: 0 }
    }

    // How many records are left. Numbers have 32 bits, so that at most 4,294,967,295 records are used.
    pub fn room(&self) -> usize
        ensures { result ≡ room_left (length self.now.items.now) self.now.count }
    {
        self.items
            .len()
            .min(4_294_967_295)
            .saturating_sub(self.count as usize)
    }

    // The record of a number, of those taken.
    pub fn get(&self, n: u32) -> Result<T, Refusal>
        ensures { RecordAnswer self.now.items.now self.now.count n result }
    {
        self.as_slice()
            .get(n as usize)
            .copied()
            .ok_or(Refusal::Outside(n))
    }

    // The records taken, in the order of their numbers.
    pub fn as_slice(&self) -> &[T]
        ensures { result.now ≡ take self.now.count self.now.items.now }
    {
        &self.items[0..self.count as usize]
    }

    // Takes the next record.
    pub fn push(&mut self, x: T)
        requires { 0 < room_left (length self.old.items.now) self.old.count }
        ensures items { self.new.items.now ≡ slice_set self.old.items.now self.old.count x }
        ensures count { self.new.count ≡ self.old.count + 1 }
        ensures same { self.new.items.ghost_name ≡ self.old.items.ghost_name }
    {
        let n = self.count;
        self.items[n as usize] = x;
        self.count = n + 1;
    }
}
