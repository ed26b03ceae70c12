// The units and the positions of an instance, and counts over their rest.
ghost use Rattle.std.specs.Prelude.{◌≡◌, ◌<◌, ◌≤◌, ℕ, List, length, slice_index_or, false};
ghost use Rattle.shunt_lists.specs.defs.Below.{count_below};
ghost use Rattle.shunt_instance.specs.defs.Matching.{Entry, entry_at};
ghost use Rattle.shunt_matching.specs.defs.Counts.{is_of_kind, is_by_minute, count_by_minute};

/// Units or positions by their numbers.
pub(crate) trait Entries {
    ghost entries: { Self → List Entry };

    /// How many there are, at most 160.
    fn len(&self) -> usize
        ensures length { result ≡ length (entries self.now) }
        ensures few { result ≤ 160 };

    /// The number of an entry's type.
    fn kind(&self, i: usize) -> u8
        requires { i < length (entries self.now) }
        ensures { result ≡ (entry_at (entries self.now) i).kind };

    /// The minute from which a unit is ready, or at which a position leaves.
    fn minute(&self, i: usize) -> u16
        requires { i < length (entries self.now) }
        ensures { result ≡ (entry_at (entries self.now) i).minute };
}

/// Whether the mask leaves this entry out.
pub(crate) fn is_left_out(mask: &[bool], i: usize) -> bool
    ensures { result ≡ slice_index_or mask.now i false }
{
    i < mask.len() && mask[i]
}

/// Whether the entry is one of the rest of this type.
pub(crate) fn has_kind<E: Entries>(entries: &E, mask: &[bool], kind: u8, i: usize) -> bool
    requires { i < length (E.entries entries.now) }
    ensures { result ≡ is_of_kind (E.entries entries.now) mask.now kind i }
{
    !is_left_out(mask, i) && entries.kind(i) == kind
}

/// How many of the first `end` entries are of this type and of the rest.
pub(crate) fn count_first<E: Entries>(entries: &E, mask: &[bool], kind: u8, end: usize) -> u32
    requires within { end ≤ length (E.entries entries.now) }
    requires few { end ≤ 160 }
    ensures { result ≡ count_below end (is_of_kind (E.entries entries.now) mask.now kind) }
{
    let mut count = 0;
    for i in 0..end {
        if has_kind(entries, mask, kind, i) {
            count += 1;
        }
    }
    count
}

/// How many entries of the rest of this type have this minute or an earlier one.
pub(crate) fn count_by<E: Entries>(entries: &E, mask: &[bool], kind: u8, minute: u16) -> u32
    ensures { result ≡ count_by_minute (E.entries entries.now) mask.now kind minute }
{
    let mut count = 0;
    for i in 0..entries.len() {
        if has_kind(entries, mask, kind, i) && entries.minute(i) <= minute {
            count += 1;
        }
    }
    count
}
