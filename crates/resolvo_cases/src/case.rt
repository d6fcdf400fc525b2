//! Cases as the lines of standard input spell them.

/// The title of a case: its first line.
pub fn title(case: &str) -> &str {
    case.split('\n').next().unwrap_or(case)
}

/// The lines of a case below a heading; none where it has no such heading.
pub fn section<'a>(case: &'a str, heading: &str) -> Option<&'a str> {
    let (_, below) = case.split_once(heading)?;
    Some(below.split("== ").next().unwrap_or(below))
}
