// The picture of a sheet on standard output, as comment lines of a sheet: a row for each rule in force, and one for all.

use crate::printing::Rules;
use picture::column::COLUMNS;
use picture::shade::Cell;
use sheet::Sheet;
use std::fmt;
use std::io::Result;

/// Draws a row at a time, `# |###########....#| rule 0` and `# |###########....#| all`; nothing where no sheet is open.
pub fn draw(rt: &impl Print, rules: Rules<'_>) -> Result<()> {
    let sheet = rules.sheet;
    if sheet.width == 0 {
        return Ok(());
    }
    for number in rules.in_force() {
        println!(rt;
            "# |{}| rule {number}",
            Row {
                sheet,
                rule: Some(number)
            }
        )?;
    }
    println!(rt; "# |{}| all", Row { sheet, rule: None })
}

// The columns of a row: by one rule in force, or by all.
#[derive(Clone, Copy)]
struct Row<'a> {
    sheet: &'a Sheet,
    rule: Option<usize>,
}

impl Row<'_> {
    fn cell(self, column: u64) -> Cell {
        match self.rule {
            Some(number) => picture::rule_cells::rule_at(*self.sheet, number, column),
            None => picture::all_cells::all_at(*self.sheet, column),
        }
    }
}

// Nothing past the last column.
impl fmt::Display for Row<'_> {
    fn fmt<W: fmt::Write>(&self, f: &mut fmt::Formatter<W>) -> fmt::Result {
        for column in 0..COLUMNS {
            f.write_str(match self.cell(column) {
                Cell::Fails => "#",
                Cell::Meets => ".",
                Cell::Partly => "+",
                Cell::Nowhere => "",
            })?;
        }
        Ok(())
    }
}
