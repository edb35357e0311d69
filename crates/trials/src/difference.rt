//! Where two texts differ.

use std::fmt;

// A line that is not as expected, counted from 1.
#[derive(Clone, Copy)]
pub(crate) struct Difference<'a> {
    number: u32,
    printed: Option<&'a str>,
    expected: Option<&'a str>,
}

impl<'a> Difference<'a> {
    // The first line that is not the same. A line has its newline, so a last one without counts as another.
    pub(crate) fn first(printed: &'a str, expected: &'a str) -> Option<Difference<'a>> {
        let mut printed = printed.split_inclusive('\n');
        let mut number = 0u32;
        for expected in expected.split_inclusive('\n') {
            number = number.saturating_add(1);
            let printed = printed.next();
            if printed != Some(expected) {
                return Some(Difference {
                    number,
                    printed,
                    expected: Some(expected),
                });
            }
        }
        printed.next().map(|printed| Difference {
            number: number.saturating_add(1),
            printed: Some(printed),
            expected: None,
        })
    }
}

impl fmt::Display for Difference<'_> {
    fn fmt<W: fmt::Write>(&self, f: &mut fmt::Formatter<W>) -> fmt::Result {
        write!(f, "line {}: printed ", self.number)?;
        quote(f, self.printed)?;
        write!(f, ", expected ")?;
        quote(f, self.expected)
    }
}

fn quote<W: fmt::Write>(f: &mut fmt::Formatter<W>, line: Option<&str>) -> fmt::Result {
    match line {
        Some(line) => write!(f, "{line:?}"),
        None => write!(f, "no line"),
    }
}
