//! Where a value was found, or belongs.
ghost use Rattle.std.specs.Prelude.{◌≡◌, ◌<◌, ◌⊎◌};
ghost use Rattle.vx_search.specs.Places as spec;

use std::fmt;

/// Before or behind the elements that are equal to the value.
#[derive(Clone, Copy, Debug, PartialEq, Eq)]
pub enum SearchSortedSide {
    /// Before the first equal element.
    Left,
    /// Behind the last equal element.
    Right,
}

impl fmt::Display for SearchSortedSide {
    ghost use Rattle.std.specs.Prelude.{Some};
    ghost use Rattle.vx_search.specs.Texts.{side_text};

    ghost output = { λ side. Some (side_text side) };

    fn fmt<W: fmt::Write>(&self, f: &mut fmt::Formatter<W>) -> fmt::Result {
        f.write_str(match self {
            SearchSortedSide::Left => "left",
            SearchSortedSide::Right => "right",
        })
    }
}

/// The place of a value, and whether an equal element is there.
#[derive(Clone, Copy, Debug, PartialEq, Eq)]
pub enum SearchResult {
    /// An equal element exists.
    Found(usize),
    /// None is equal; the value belongs here.
    NotFound(usize),
}

impl fmt::Display for SearchResult {
    ghost use Rattle.std.specs.Prelude.{Some};
    ghost use Rattle.vx_search.specs.Texts.{result_text};

    ghost output = { λ result. Some (result_text result) };

    fn fmt<W: fmt::Write>(&self, f: &mut fmt::Formatter<W>) -> fmt::Result {
        match self {
            SearchResult::Found(place) => write!(f, "Found({place})"),
            SearchResult::NotFound(place) => write!(f, "NotFound({place})"),
        }
    }
}

impl SearchResult {
    /// The place where an equal element was found.
    pub fn to_found(self) -> Option<usize>
        ensures { result ≡ spec.to_found self }
    {
        match self {
            SearchResult::Found(place) => Some(place),
            SearchResult::NotFound(_) => None,
        }
    }

    /// The place, found or not.
    pub fn to_index(self) -> usize
        ensures { result ≡ spec.index_of self }
    {
        match self {
            SearchResult::Found(place) | SearchResult::NotFound(place) => place,
        }
    }

    /// The entry of a list of `len` offsets at which the run of the value starts: the entry before the place, but the
    /// place itself where it was found on the left side and isn't the list's end.
    pub fn to_offsets_index(self, len: usize, side: SearchSortedSide) -> usize
        ensures { result ≡ spec.offsets_index self len side }
    {
        match self {
            SearchResult::Found(place) => {
                if side == SearchSortedSide::Right || place == len {
                    place.saturating_sub(1)
                } else {
                    place
                }
            }
            SearchResult::NotFound(place) => place.saturating_sub(1),
        }
    }

    /// The entry of a list of `len` ends whose run holds the value: the place, but the last entry for the list's end.
    pub fn to_ends_index(self, len: usize) -> usize
        requires { 0 < spec.index_of self ⊎ 0 < len }
        ensures { result ≡ spec.ends_index self len }
    {
        let place = self.to_index();
        if place == len { place - 1 } else { place }
    }
}
