// What a report tells of a visit and of a fault.

use pk_graph::Path;
use pk_runner::Known;
use std::alloc::{AllocError, Global};

/// The integers of a text.
pub fn integers(alloc: Global, text: &str) -> Result<Vec<i128>, AllocError> {
    let mut list = Vec::new(alloc);
    let mut number: i128 = 0;
    let mut is_open = false;
    let mut is_negative = false;
    for byte in text.as_bytes() {
        if byte.is_ascii_digit() {
            number = number.wrapping_mul(10).wrapping_add((*byte & 15) as i128);
            is_open = true;
        } else {
            if is_open {
                list.push(if is_negative {
                    number.wrapping_neg()
                } else {
                    number
                })?;
            }
            number = 0;
            is_open = false;
            is_negative = *byte == b'-';
        }
    }
    if is_open {
        list.push(if is_negative {
            number.wrapping_neg()
        } else {
            number
        })?;
    }
    Ok(list)
}

// The numbers of a name; the newest hides the others.
fn numbers<'a>(known: &'a [Known<'_>], name: &str) -> &'a [i128] {
    for one in known {
        if one.name == name {
            return one.numbers.as_slice();
        }
    }
    &[]
}

// Whether the numbers lie in the range and the class that end a line of their name, as `i [1,10] 2Z+1`.
fn are_in(numbers: &[i128], bounds: &[i128]) -> bool {
    let [.., low, high, step, first] = bounds else {
        return false;
    };
    for number in numbers {
        let is_met = match number.wrapping_sub(*first).checked_rem(*step) {
            Some(rest) => rest == 0,
            None => *number == *first,
        };
        if *number < *low || *high < *number || !is_met {
            return false;
        }
    }
    !numbers.is_empty()
}

// The value of `x - y`, `x + y` or `-x - y`.
fn form(known: &[Known<'_>], text: &str) -> Option<i128> {
    if let Some((left, right)) = text.split_once(" + ") {
        return Some(
            numbers(known, left)
                .first()?
                .wrapping_add(*numbers(known, right).first()?),
        );
    }
    let (left, right) = text.split_once(" - ")?;
    let right = *numbers(known, right).first()?;
    match left.strip_prefix("-") {
        None => Some(numbers(known, left).first()?.wrapping_sub(right)),
        Some(left) => Some(
            numbers(known, left)
                .first()?
                .wrapping_neg()
                .wrapping_sub(right),
        ),
    }
}

// Whether a line of a point holds.
fn holds(alloc: Global, line: &str, known: &[Known<'_>]) -> Result<bool, AllocError> {
    let bounds = integers(alloc, line)?;
    if let Some((text, _)) = line.split_once(" <= ") {
        return Ok(match form(known, text) {
            None => false,
            Some(value) => match bounds.last() {
                None => false,
                Some(bound) => value <= *bound,
            },
        });
    }
    let (subject, _) = line.split_once(" [").unwrap_or((line, line));
    let Some((name, mark)) = subject.split_once("[") else {
        return Ok(are_in(numbers(known, subject), &bounds));
    };
    Ok(match integers(alloc, mark)?.first() {
        None => are_in(numbers(known, name), &bounds),
        Some(element) => match usize::try_from(*element) {
            Err(_) => false,
            Ok(element) => match numbers(known, name).get(element) {
                None => false,
                Some(number) => are_in(&[*number], &bounds),
            },
        },
    })
}

// Whether a line is the first of its name: it has no element, or the first.
fn is_first(line: &str) -> bool {
    match line.split_once(" [") {
        None => false,
        Some((subject, _)) => match subject.split_once("[") {
            None => true,
            Some((_, mark)) => mark == "]" || mark == "0]",
        },
    }
}

/// Whether the report has a point whose heading ends so, with the lines of so many names, and each of its lines holds.
pub fn tells(
    alloc: Global,
    report: &[&str],
    heading: &str,
    known: &[Known<'_>],
    names: usize,
) -> Result<bool, AllocError> {
    let mut is_there = false;
    let mut left = names;
    for line in report {
        if !is_there {
            is_there = line.ends_with(heading);
        } else if let Some(line) = line.strip_prefix("  ") {
            if !holds(alloc, line, known)? {
                return Ok(false);
            }
            if is_first(line) {
                left = left.wrapping_sub(1);
            }
        } else {
            return Ok(left == 0);
        }
    }
    Ok(false)
}

/// Whether a line begins so.
pub fn has_line(report: &[&str], start: &str) -> bool {
    for line in report {
        if line.strip_prefix(start).is_some() {
            return true;
        }
    }
    false
}

/// The texts of call paths as reports have them.
pub fn path_texts(alloc: Global, paths: &[Path]) -> Result<Vec<String>, AllocError> {
    let mut texts: Vec<String> = Vec::new(alloc);
    for path in paths {
        let name = path.name.as_str();
        let text = match path.call {
            None => String::from_str(alloc, name)?,
            Some(site) => match texts.get(site.path) {
                None => String::from_str(alloc, name)?,
                Some(caller) => format!(in alloc; "{caller}>{name}@{}", site.at)?,
            },
        };
        texts.push(text)?;
    }
    Ok(texts)
}
