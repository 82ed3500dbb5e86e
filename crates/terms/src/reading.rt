// The reading rule and the smallest entry, for groups, names and further kinds.
ghost use Rattle.std.specs.Prelude.{◌≡◌, None};
ghost use Rattle.std.specs.Ordering.{is_lt};
ghost use Rattle.terms.specs.Readings.{alike, every, reading_of, smallest_of};

// The reading of a list: the common entry if all are equal; blank otherwise, and for an empty list.
pub fn reading<T: PartialEq + Copy>(entries: &[Option<T>]) -> Option<T>
    ensures { result ≡ reading_of T.eq entries.now }
{
    match entries {
        [] => None,
        [first, rest @ ..] => if all_alike(*first, rest) {
            *first
        } else {
            None
        },
    }
}

// Whether every entry is like this one.
pub(crate) fn all_alike<T: PartialEq + Copy>(first: Option<T>, entries: &[Option<T>]) -> bool
    ensures { result ≡ every (alike T.eq first) entries.now }
{
    entries.iter().all(|entry| first == *entry)
}

// The smallest entry that is not blank.
pub(crate) fn smallest<T: Ord + Copy>(entries: &[Option<T>]) -> Option<T>
    ensures { result ≡ smallest_of (λ x y. is_lt (T.cmp x y)) None entries.now }
{
    entries.iter().filter_map(|entry| *entry).min()
}
