//! Rows, from line to line.

use std::alloc::{AllocError, Global};

/// How rows begin.
#[derive(Clone, Copy)]
pub enum Form {
    /// Each line that says something is a row.
    Lines,
    /// A row begins with a line that has this in front, as `row `, and goes on to the next one.
    Titled(&'static str),
}

/// A row.
#[derive(Drop)]
pub struct Row {
    /// Its first line, with the number of that among all lines, from 1.
    pub head: String,
    pub number: u64,
    /// The other lines that say something.
    pub rest: Vec<String>,
    /// Whether it begins as a row does.
    pub(crate) has_title: bool,
    /// Whether it is wrong on purpose.
    pub(crate) is_wrong: bool,
}

/// What a line is.
#[derive(Clone, Copy)]
enum Kind {
    /// It says nothing.
    Nothing,
    /// Whether the rows from here on are wrong on purpose.
    Wrong(bool),
    /// A row begins with it.
    Begins,
    /// It belongs to the row above it.
    GoesOn,
}

/// The rows of the lines that were read.
#[derive(Drop)]
pub(crate) struct Rows {
    alloc: Global,
    form: Form,
    lines: u64,
    is_wrong: bool,
    open: Option<Row>,
}

impl Rows {
    /// No line was read.
    pub(crate) fn new(alloc: Global, form: Form) -> Rows {
        Rows {
            alloc,
            form,
            lines: 0,
            is_wrong: false,
            open: None,
        }
    }

    /// Reads the next line, and gives the row that ends above it.
    pub(crate) fn line(&mut self, line: String) -> Result<Option<Row>, AllocError> {
        self.lines = self.lines.saturating_add(1);
        match kind_of(self.form, line.as_str()) {
            Kind::Nothing => Ok(None),
            Kind::Wrong(is_wrong) => {
                self.is_wrong = is_wrong;
                Ok(self.open.take())
            }
            Kind::Begins => {
                let row = self.begun(line, true);
                Ok(self.open.replace(row))
            }
            Kind::GoesOn => {
                self.go_on(line)?;
                Ok(None)
            }
        }
    }

    /// The row that ends behind all lines.
    pub(crate) fn last(&mut self) -> Option<Row> {
        self.open.take()
    }

    fn begun(&self, line: String, has_title: bool) -> Row {
        Row {
            head: line,
            number: self.lines,
            rest: Vec::new(self.alloc),
            has_title,
            is_wrong: self.is_wrong,
        }
    }

    /// Adds a line to the row that is open, or opens one without a title.
    fn go_on(&mut self, line: String) -> Result<(), AllocError> {
        match &mut self.open {
            Some(row) => row.rest.push(line)?,
            None => {
                let row = self.begun(line, false);
                self.open = Some(row);
            }
        }
        Ok(())
    }
}

fn kind_of(form: Form, line: &str) -> Kind {
    if line.is_empty() || line.starts_with("//") {
        return Kind::Nothing;
    }
    match line {
        "== wrong" => Kind::Wrong(true),
        "== right" => Kind::Wrong(false),
        _ => kind_in(form, line),
    }
}

fn kind_in(form: Form, line: &str) -> Kind {
    match form {
        Form::Lines => Kind::Begins,
        Form::Titled(front) if line.starts_with(front) => Kind::Begins,
        Form::Titled(_) => Kind::GoesOn,
    }
}
