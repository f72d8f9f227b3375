// The calls on a sheet that the caller keeps.
ghost use Rattle.std.specs.Prelude.{◌≡◌};
ghost use Rattle.page.specs.Calls.{add, back, forward, mark, set_gate};
ghost use Rattle.sheet.specs.Record.{blank};
ghost use Rattle.outside.specs.handing.Handed.{edition_of, opening_of, rule_in};
ghost use Rattle.outside.specs.on_words.Gates.{gate_of};
ghost use Rattle.keeping.specs.kept_numbers.Numbers.{numbers_of};
ghost use Rattle.keeping.specs.kept_changes.Changed.{Changed, Opened};
ghost use Rattle.keeping.specs.on_kept.Told.{Asked, Counted, Listed};

use outside::handing::NUMBERS;

/// The blank sheet.
pub fn branchmetal_sheet_blank(sheet: &mut [u64; keeping::NUMBERS])
    ensures { sheet.new ≡ numbers_of blank }
{
    keeping::on_sheets::blank(sheet)
}

/// Opens a sheet.
pub fn branchmetal_sheet_open(sheet: &mut [u64; keeping::NUMBERS], width: u64, edition: u64) -> u64
    ensures { Opened (opening_of width edition) sheet.old sheet.new result }
{
    keeping::on_sheets::open(sheet, width, edition)
}

/// Adds a rule.
pub fn branchmetal_sheet_add(
    sheet: &mut [u64; keeping::NUMBERS],
    edition: u64,
    rule: &[u64; NUMBERS],
) -> u64
    ensures { Changed (add (edition_of edition) (rule_in rule.now)) sheet.old sheet.new result }
{
    keeping::on_sheets::add(sheet, edition, rule)
}

/// Sets a mark.
pub fn branchmetal_sheet_mark(sheet: &mut [u64; keeping::NUMBERS]) -> u64
    ensures { Changed mark sheet.old sheet.new result }
{
    keeping::on_sheets::mark(sheet)
}

/// Goes back to the newest mark.
pub fn branchmetal_sheet_back(sheet: &mut [u64; keeping::NUMBERS]) -> u64
    ensures { Changed back sheet.old sheet.new result }
{
    keeping::on_sheets::back(sheet)
}

/// Brings back what was most recently taken back.
pub fn branchmetal_sheet_forward(sheet: &mut [u64; keeping::NUMBERS]) -> u64
    ensures { Changed forward sheet.old sheet.new result }
{
    keeping::on_sheets::forward(sheet)
}

/// Sets a gate.
pub fn branchmetal_sheet_gate(
    sheet: &mut [u64; keeping::NUMBERS],
    kind: u64,
    low: u32,
    high: u32,
) -> u64
    ensures { Changed (set_gate (gate_of kind low high)) sheet.old sheet.new result }
{
    keeping::on_sheets::gate(sheet, kind, low, high)
}

/// Asks.
pub fn branchmetal_sheet_ask(
    sheet: &[u64; keeping::NUMBERS],
    links: &mut [u64],
    answer: &mut [u64; 4],
) -> u64
    ensures { Asked sheet.now links.old links.new answer.new result }
{
    keeping::on_kept::ask(sheet, links, answer)
}

/// Counts the words that fit.
pub fn branchmetal_sheet_count(sheet: &[u64; keeping::NUMBERS], answer: &mut [u64; 2]) -> u64
    ensures { Counted sheet.now answer.new result }
{
    keeping::on_kept::count(sheet, answer)
}

/// Lists the words that fit, from a start on.
pub fn branchmetal_sheet_list(
    sheet: &[u64; keeping::NUMBERS],
    start: u64,
    words: &mut [u64],
    written: &mut u64,
) -> u64
    ensures { Listed sheet.now start words.old words.new written.new result }
{
    keeping::on_kept::list(sheet, start, words, written)
}
