//! Files of tables. A table begins with a line `[check: 12 rows]` and a line that names its
//! columns. A last column such as `word ..` stands for any number of fields.
use crate::finding;
use crate::reading::first_misread_line;
use crate::sizes::{COUNT, row_of_size, size_at};
use cfgx_testing::rows::{Finding, fail, fields_of, rows_of, wrong_rows};
use std::alloc::{AllocError, Global};

// The parts of a table.
#[derive(Clone, Copy)]
struct Table<'a> {
    check: &'a str,
    count: &'a str,
    columns: &'a str,
    rows: &'a str,
}

// Returns the parts of a table, whose text lacks the first bracket.
fn table_of(text: &str) -> Option<Table<'_>> {
    let (head, text) = text.split_once("]\n")?;
    let (check, count) = head.split_once(": ")?;
    let (count, _) = count.split_once(" row")?;
    let (columns, rows) = text.split_once('\n')?;
    Some(Table {
        check,
        count,
        columns,
        rows,
    })
}

// Returns whether there is a field for each column.
fn has_columns(fields: usize, columns: &str) -> bool {
    let names = columns.split(" | ").count();
    fields == names || (columns.ends_with(" ..") && fields.saturating_add(1) >= names)
}

// Returns the finding of `check` in the fields of a row of the table.
fn finding_of_fields(alloc: Global, table: &Table<'_>, check: &str, fields: &[String]) -> Finding {
    if has_columns(fields.len(), table.columns) {
        finding(alloc, check, fields)
    } else {
        fail(alloc, "another number of fields than columns")
    }
}

// Returns the finding of `check` in a row of the table.
fn finding_of_check(alloc: Global, table: &Table<'_>, check: &str, row: &str) -> Finding {
    match fields_of(alloc, row) {
        Some(fields) => finding_of_fields(alloc, table, check, fields.as_slice()),
        None => fail(alloc, "a field without a meaning, or out of memory"),
    }
}

// Returns the finding of `check` in a row of the table, with `size` for each `$`.
fn finding_at_size(
    alloc: Global,
    table: &Table<'_>,
    check: &str,
    row: &str,
    size: usize,
) -> Finding {
    match row_of_size(alloc, row, size) {
        Ok(row) => finding_of_check(alloc, table, check, row.as_str()),
        Err(_) => fail(alloc, "out of memory"),
    }
}

// Returns `found` with the size at which it was found, or `found` alone if memory runs out.
fn with_size(alloc: Global, found: String, size: usize) -> String {
    match format!(in alloc; "at size {size}: {found}") {
        Ok(text) => text,
        Err(_) => found,
    }
}

// Returns the first finding of `check` in a row of the table, with each size for each `$`.
fn finding_at_each_size(alloc: Global, table: &Table<'_>, check: &str, row: &str) -> Finding {
    for index in 0..COUNT {
        let size = size_at(index).unwrap_or(0);
        if let Err(found) = finding_at_size(alloc, table, check, row, size) {
            return Err(with_size(alloc, found, size));
        }
    }
    Ok(())
}

// Returns the finding of the check of the table in a row.
fn finding_of_row(alloc: Global, table: &Table<'_>, row: &str) -> Finding {
    match table.check.strip_prefix("each size of ") {
        Some(check) if row.contains('$') => finding_at_each_size(alloc, table, check, row),
        Some(_) => fail(alloc, "a row without a size"),
        None => finding_of_check(alloc, table, table.check, row),
    }
}

// Pushes the fields of a row.
fn push_fields(texts: &mut Vec<String>, fields: Vec<String>) -> Result<(), AllocError> {
    for field in fields {
        texts.push(field)?;
    }
    Ok(())
}

// Pushes the fields of each row. Leaves out a row in which a field has no meaning.
fn push_texts(alloc: Global, texts: &mut Vec<String>, rows: &[String]) -> Result<(), AllocError> {
    for row in rows {
        if let Some(fields) = fields_of(alloc, row.as_str()) {
            push_fields(texts, fields)?;
        }
    }
    Ok(())
}

// The tables of a file that were checked so far.
#[derive(Drop)]
struct File {
    // What is wrong in them
    wrong: String,
    // The number of their rows
    rows: usize,
    // The fields of their rows
    texts: Vec<String>,
}

impl File {
    // Counts the rows of a table, and compares the number with that in its head.
    fn check_count(
        &mut self,
        alloc: Global,
        table: &Table<'_>,
        rows: usize,
    ) -> Result<(), AllocError> {
        self.rows = self.rows.saturating_add(rows);
        if table.count.parse() == Ok(rows) {
            return Ok(());
        }
        let check = table.check;
        let line = format!(in alloc; "wrong: a table of {check} has {rows} rows\n")?;
        self.wrong.push_str(line.as_str())
    }

    // Checks the rows of a table.
    fn check_rows(
        &mut self,
        alloc: Global,
        table: &Table<'_>,
        rows: &[String],
    ) -> Result<(), AllocError> {
        let wrong = wrong_rows(alloc, rows, |row| finding_of_row(alloc, table, row))?;
        self.wrong.push_str(wrong.as_str())?;
        push_texts(alloc, &mut self.texts, rows)?;
        self.check_count(alloc, table, rows.len())
    }

    // Checks a table, whose text lacks the first bracket.
    fn check_table(&mut self, alloc: Global, text: &str) -> Result<(), AllocError> {
        match table_of(text) {
            Some(table) => self.check_rows(alloc, &table, rows_of(alloc, table.rows)?.as_slice()),
            None => self
                .wrong
                .push_str("wrong: a table without a head and columns\n"),
        }
    }

    // Checks that no row stands before the first table.
    fn check_head(&mut self, alloc: Global, head: &str) -> Result<(), AllocError> {
        if rows_of(alloc, head)?.is_empty() {
            return Ok(());
        }
        self.wrong.push_str("wrong: a row before the first table\n")
    }

    // Checks all tables of a file.
    fn check(&mut self, alloc: Global, text: &str) -> Result<(), AllocError> {
        let mut tables = text.split("\n[");
        self.check_head(alloc, tables.next().unwrap_or(""))?;
        for table in tables {
            self.check_table(alloc, table)?;
        }
        Ok(())
    }
}

/// Returns the wrong rows of the file, and the number of its rows.
pub(crate) fn report(alloc: Global, name: &str, text: &str) -> Result<String, AllocError> {
    let mut file = File {
        wrong: String::new(alloc),
        rows: 0,
        texts: Vec::new(alloc),
    };
    file.check(alloc, text)?;
    let misread = first_misread_line(alloc, file.texts.as_slice())?;
    let (wrong, rows) = (file.wrong.as_str(), file.rows);
    format!(in alloc; "{wrong}{misread}{name}: {rows} rows")
}
