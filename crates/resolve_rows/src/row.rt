//! Rows as their files hold them: sections, and tables whose lines are rows.

use crate::escapes::unescaped;
use std::alloc::{AllocError, Global};

/// A part of a row: an input or an expected answer, verbatim from the file.
#[derive(Clone, Copy, Drop)]
pub struct Section<'a> {
    pub name: &'a str,
    body: Body<'a>,
}

#[derive(Clone, Copy, Drop)]
enum Body<'a> {
    /// No line.
    Empty,
    /// Lines, verbatim, without the last newline.
    Lines(&'a str),
    /// A text with escapes.
    Escaped(&'a str),
}

impl<'a> Section<'a> {
    /// A section from the text after its `== `.
    fn new(text: &'a str) -> Self {
        let (head, body) = match text.split_once('\n') {
            Some((head, lines)) => (head, Body::Lines(lines)),
            None => (text, Body::Empty),
        };
        match (head.strip_suffix(" escaped"), body) {
            (Some(name), Body::Lines(lines)) => Section {
                name,
                body: Body::Escaped(lines),
            },
            (Some(name), body) => Section { name, body },
            (None, body) => Section { name: head, body },
        }
    }

    /// Its text; none where an escape isn't one.
    pub fn text(&self, alloc: Global) -> Result<Option<Vec<u8>>, AllocError> {
        match self.body {
            Body::Empty => Ok(Some(Vec::new(alloc))),
            Body::Lines(lines) => {
                let mut text = Vec::from_slice(alloc, lines.as_bytes())?;
                text.push(b'\n')?;
                Ok(Some(text))
            }
            Body::Escaped(text) => unescaped(alloc, text),
        }
    }
}

/// A row, and its number among those of its file.
#[derive(Drop)]
pub struct Row<'a> {
    pub sections: Vec<Section<'a>>,
    pub number: u64,
}

impl<'a> Row<'a> {
    pub fn section(&self, name: &str) -> Option<&Section<'a>> {
        self.sections.iter().find(|section| section.name == name)
    }

    /// The lines of the table that the file ends with, if there is one.
    pub fn table(&self) -> Option<&'a str> {
        match self.section("table")?.body {
            Body::Lines(lines) => Some(lines),
            _ => None,
        }
    }
}

/// The sections of a file. The lines above the first are for the reader; without such a line there
/// are no sections.
pub fn file_sections(alloc: Global, text: &str) -> Result<Row<'_>, AllocError> {
    let text = text.strip_suffix('\n').unwrap_or(text);
    let mut sections = Vec::new(alloc);
    let parts = if text.starts_with("== ") { "" } else { text };
    for part in parts.split("\n== ").skip(1) {
        sections.push(Section::new(part))?;
    }
    Ok(Row {
        sections,
        number: 1,
    })
}

/// The row of a line of a table: its cells, and the other sections of the file. There are none of
/// either where the line hasn't a cell for each column.
pub fn row_of_line<'a>(
    alloc: Global,
    shared: &Row<'a>,
    columns: &'a str,
    line: &'a str,
    number: u64,
) -> Result<Row<'a>, AllocError> {
    let mut sections = Vec::new(alloc);
    if columns.split('\t').count() != line.split('\t').count() {
        return Ok(Row { sections, number });
    }
    for section in &shared.sections {
        if section.name != "table" {
            sections.push(*section)?;
        }
    }
    for (name, cell) in columns.split('\t').zip(line.split('\t')) {
        sections.push(Section {
            name,
            body: Body::Escaped(cell),
        })?;
    }
    Ok(Row { sections, number })
}
