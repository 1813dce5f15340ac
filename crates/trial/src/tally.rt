// What came of the comparisons of one kind.
use code::Refusal;
use second::rules::Rule;
use std::alloc::{AllocError, Global};
use std::collections::BTreeMap;
use std::fmt;
use std::fmt::{Debug, Display};

// A row of the refusal table, by its number, in which the two implementations are held against each other.
#[derive(Clone, Copy, Debug, PartialEq, Eq, PartialOrd, Ord)]
pub struct Row(u32);

impl From<Refusal> for Row {
    fn from(why: Refusal) -> Row {
        Row(why.number())
    }
}

impl From<Rule> for Row {
    fn from(rule: Rule) -> Row {
        Row(rule.number())
    }
}

impl Display for Row {
    fn fmt<W: fmt::Write>(&self, f: &mut fmt::Formatter<W>) -> fmt::Result {
        let number = self.0;
        write!(f, "{number}")
    }
}

// What a call answers, and what its buffers then hold.
#[derive(PartialEq, Debug, Drop)]
pub struct Outcome<T, B> {
    pub answer: Result<T, Row>,
    pub after: B,
}

// How many cases there were, how many of them each row refused, in how many the two answers differed, and the first of those.
#[derive(Drop)]
pub struct Tally {
    heap: Global,
    cases: u64,
    refused: BTreeMap<Row, u64>,
    differing: u64,
    first: Option<String>,
}

impl Tally {
    pub fn new(heap: Global) -> Tally {
        Tally {
            heap,
            cases: 0,
            refused: BTreeMap::new(heap),
            differing: 0,
            first: None,
        }
    }

    // Counts a case, and keeps it where it is the first in which the two differ.
    pub fn compare<T: PartialEq + Debug>(
        &mut self,
        case: impl Display + Drop,
        first: &T,
        other: &T,
    ) -> Result<(), AllocError> {
        self.cases = self.cases.saturating_add(1);
        if first != other {
            self.differing = self.differing.saturating_add(1);
            if self.first.is_none() {
                let text = format!(in self.heap; "{case}: {first:?}; the second: {other:?}")?;
                self.first = Some(text);
            }
        }
        Ok(())
    }

    // Counts a case that may be refused.
    pub fn compare_outcomes<T: PartialEq + Debug, B: PartialEq + Debug>(
        &mut self,
        case: impl Display + Drop,
        first: &Outcome<T, B>,
        other: &Outcome<T, B>,
    ) -> Result<(), AllocError> {
        if let Err(row) = first.answer {
            let count = self.refused.entry(row)?.or_insert(0);
            *count = count.saturating_add(1);
        }
        self.compare(case, first, other)
    }
}

// The counts, and the first difference where there is one.
impl Display for Tally {
    fn fmt<W: fmt::Write>(&self, f: &mut fmt::Formatter<W>) -> fmt::Result {
        let Tally {
            cases,
            differing,
            ..
        } = self;
        write!(f, "{cases} cases, {differing} differ")?;
        for (row, count) in self.refused.iter() {
            write!(f, "\n  refused as {row}: {count}")?;
        }
        if let Some(first) = &self.first {
            write!(f, "\n  the first: {first}")?;
        }
        Ok(())
    }
}
