ghost use Rattle.std.specs.Prelude.{◌≡◌, ◌+◌, ◌-◌, ◌^◌, min};

/// How many entries of its tables a closure has looked at: a measure of its work that no machine changes.
#[derive(Clone, Copy, Debug)]
pub struct Steps {
    pub entries: u64,
}

impl Steps {
    /// So many entries more were looked at. The count stands still at its type's end.
    pub fn add(&mut self, entries: usize)
        ensures { self.new.entries ≡ min (self.old.entries + entries) (2 ^ 64 - 1) }
    {
        self.entries = self.entries.saturating_add(entries as u64);
    }
}
