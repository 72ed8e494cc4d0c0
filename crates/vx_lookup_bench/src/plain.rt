//! Plain sets: a bit for each number, a sorted list of numbers, and a set of texts by their hashes.
use crate::numbers::{Listed, told};
use crate::{Kind, Measure, Outcome};
use std::alloc::Global;
use std::collections::HashSet;
use vx_base::Res;

/// Numbers or texts.
enum Items {
    Numbers(Vec<i64>),
    Texts(Vec<String>),
}

impl Drop for Items {
    fn drop(self) {
        match self {
            Items::Numbers(_numbers) => {}
            Items::Texts(_texts) => {}
        }
    }
}

/// A set of numbers or of texts.
enum PlainSet {
    Marks(Vec<bool>),
    Sorted(Vec<i64>),
    Texts(HashSet<String>),
}

impl Drop for PlainSet {
    fn drop(self) {
        match self {
            PlainSet::Marks(_marks) => {}
            PlainSet::Sorted(_numbers) => {}
            PlainSet::Texts(_texts) => {}
        }
    }
}

fn numbers(alloc: Global, measure: Measure, list: Listed) -> Res<Vec<i64>> {
    let mut numbers = Vec::new(alloc);
    for place in 0..measure.count {
        let number = measure.number_at(list, place);
        numbers.push(i64::try_from(number).unwrap_or(0))?;
    }
    Ok(numbers)
}

fn texts(alloc: Global, measure: Measure, list: Listed) -> Res<Vec<String>> {
    let mut texts = Vec::new(alloc);
    for place in 0..measure.count {
        let number = measure.number_at(list, place);
        texts.push(format!(in alloc; "{number}")?)?;
    }
    Ok(texts)
}

fn items_of(alloc: Global, measure: Measure, list: Listed) -> Res<Items> {
    match measure.kind {
        Kind::Texts => Ok(Items::Texts(texts(alloc, measure, list)?)),
        Kind::Dense | Kind::Sparse => Ok(Items::Numbers(numbers(alloc, measure, list)?)),
    }
}

/// A bit for each number below the end.
fn marks(alloc: Global, numbers: &[i64], end: u64) -> Res<Vec<bool>> {
    let mut marks = vec![in alloc; false; end as usize]?;
    for number in numbers {
        let place = usize::try_from(*number).unwrap_or(0);
        if place < marks.len() {
            marks[place] = true;
        }
    }
    Ok(marks)
}

fn sorted(alloc: Global, numbers: &[i64]) -> Res<Vec<i64>> {
    let mut sorted = Vec::from_slice(alloc, numbers)?;
    sorted.sort_unstable();
    Ok(sorted)
}

fn hashed(alloc: Global, texts: &[String]) -> Res<HashSet<String>> {
    let mut set = HashSet::new(alloc);
    for text in texts {
        let _ = set.insert(String::from_str(alloc, text.as_str())?)?;
    }
    Ok(set)
}

fn set_from(alloc: Global, measure: Measure, elements: &Items) -> Res<PlainSet> {
    match elements {
        Items::Texts(texts) => Ok(PlainSet::Texts(hashed(alloc, texts.as_slice())?)),
        Items::Numbers(numbers) => match measure.kind {
            Kind::Dense => {
                let marks = marks(alloc, numbers.as_slice(), measure.twice())?;
                Ok(PlainSet::Marks(marks))
            }
            _ => Ok(PlainSet::Sorted(sorted(alloc, numbers.as_slice())?)),
        },
    }
}

fn marked(alloc: Global, marks: &[bool], needles: &[i64]) -> Res<Vec<bool>> {
    let mut bits = Vec::with_capacity(alloc, needles.len())?;
    for needle in needles {
        let place = usize::try_from(*needle).unwrap_or(0);
        bits.push(marks.get(place).copied().unwrap_or(false))?;
    }
    Ok(bits)
}

fn searched(alloc: Global, sorted: &[i64], needles: &[i64]) -> Res<Vec<bool>> {
    let mut bits = Vec::with_capacity(alloc, needles.len())?;
    for needle in needles {
        bits.push(sorted.binary_search(needle).is_ok())?;
    }
    Ok(bits)
}

fn among(alloc: Global, set: &HashSet<String>, needles: &[String]) -> Res<Vec<bool>> {
    let mut bits = Vec::with_capacity(alloc, needles.len())?;
    for needle in needles {
        bits.push(set.contains(needle.as_str()))?;
    }
    Ok(bits)
}

impl PlainSet {
    /// A bit for each needle, true where it is a member, and no bits where the needles are of another kind.
    fn bits(&self, alloc: Global, needles: &Items) -> Res<Vec<bool>> {
        match needles {
            Items::Texts(texts) => match self {
                PlainSet::Texts(set) => among(alloc, set, texts.as_slice()),
                _ => Ok(Vec::new(alloc)),
            },
            Items::Numbers(numbers) => match self {
                PlainSet::Marks(marks) => marked(alloc, marks.as_slice(), numbers.as_slice()),
                PlainSet::Sorted(sorted) => searched(alloc, sorted.as_slice(), numbers.as_slice()),
                PlainSet::Texts(_) => Ok(Vec::new(alloc)),
            },
        }
    }
}

/// Makes the set so often, and once more.
fn set_of(alloc: Global, measure: Measure) -> Res<PlainSet> {
    let elements = items_of(alloc, measure, Listed::Elements)?;
    for _ in 0..measure.made {
        let _set = set_from(alloc, measure, &elements)?;
    }
    set_from(alloc, measure, &elements)
}

/// Asks the set so often, and once more.
fn asked(alloc: Global, set: &PlainSet, needles: &Items, asked: u64) -> Res<Outcome> {
    for _ in 0..asked {
        let _bits = set.bits(alloc, needles)?;
    }
    let bits = set.bits(alloc, needles)?;
    Ok(told(bits.as_slice(), 0, 0))
}

/// Makes a plain set of the elements, and asks it about the needles, each so often.
pub(crate) fn found_plainly(alloc: Global, measure: Measure) -> Res<Outcome> {
    let needles = items_of(alloc, measure, Listed::Needles)?;
    let set = set_of(alloc, measure)?;
    asked(alloc, &set, &needles, measure.asked)
}
