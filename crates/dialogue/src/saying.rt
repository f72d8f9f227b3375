// What a statement does on a sheet: its call is made, and what the statement comes to goes by the number that the call answers.

ghost use Rattle.std.specs.Prelude.{◌≡◌};
ghost use Rattle.page.specs.Calls.{set_gate};
ghost use Rattle.dialogue.specs.declared.upshot.Response.TheVariants.{Done};
ghost use Rattle.dialogue.specs.upshot.Upshot.{by_number, upshot_of};
ghost use Rattle.dialogue.specs.saying.Says.{Calls, Lent, Says, Shows, at_least, at_most, lent, limit_at, up_to, within};

use crate::upshot::{Response, Stop};
use gate::{Gate, Span};
use line::Statement;
use line::grammar::kind::Kind;
use line::scan::{Amount, Mistake};
use listing::Listing;
use page::Opening;
use sheet::{Answer, Sheet};
use word::Edition;

/// Does what a statement says. What it opens and adds is of the new edition. A chain, or the numbers of rules that a word fails, are
/// written to `numbers`, and words that fit to `words`.
#[tactic(auto, using(crate::proofs::saying::SearchSays::wanted), unfolding(crate::specs::saying::Says::Says))]
pub fn says(
    sheet: &mut Sheet,
    statement: Statement,
    numbers: &mut [u64; Sheet::LENT],
    words: &mut [u64],
) -> Result<Response, Stop>
    ensures { Says sheet.old statement (lent numbers.old words.old) (lent numbers.new words.new) (upshot_of sheet.new result) }
{
    match statement {
        Statement::Blank => Ok(Response::Silent),
        Statement::Rule(rule) => done(sheet.add(Edition::New, rule), sheet),
        Statement::AtLeast(limit) => set(at_least(limit)?, sheet),
        Statement::AtMost(limit) => set(at_most(limit)?, sheet),
        Statement::Within(low, high) => set(within(low, high)?, sheet),
        Statement::Open(width) => done(
            sheet.open(Opening {
                width,
                edition: Edition::New,
            }),
            sheet,
        ),
        Statement::Mark => done(sheet.mark(), sheet),
        Statement::Back => done(sheet.back(), sheet),
        Statement::Forward => done(sheet.forward(), sheet),
        Statement::Ask => {
            let reply = sheet.ask(numbers);
            Response::Asked(reply).by_number(reply.number)
        }
        Statement::Count => {
            let share = counting::count(*sheet);
            Response::Counted(share).by_number(share.number)
        }
        Statement::List(wanted) => {
            let listing = listing::list(*sheet, wanted.from, words);
            Response::Listed(up_to(wanted.most, listing)).by_number(listing.number)
        }
        Statement::Why(word) => {
            let listing = listing::blaming::why(*sheet, word, numbers);
            Response::Blamed(listing).by_number(listing.number)
        }
        Statement::Show => shown(*sheet),
        Statement::Wrong(mistake) => Err(Stop::Mistaken(mistake)),
    }
}

// A call that may change the sheet was made.
fn done(answer: Answer, sheet: &mut Sheet) -> Result<Response, Stop>
    ensures { upshot_of sheet.new result ≡ by_number answer.number answer.sheet Done }
{
    *sheet = answer.sheet;
    Response::Done.by_number(answer.number)
}

// Sets a gate, whatever is lent, which stays as it is.
fn set(gate: Gate, sheet: &mut Sheet) -> Result<Response, Stop>
    ensures { (b : Lent) → Calls sheet.old (set_gate gate) b b (upshot_of sheet.new result) }
{
    done(gating::set(*sheet, gate), sheet)
}

#[tactic(auto, unfolding(crate::specs::saying::Says::by_limit))]
fn at_least(limit: Amount) -> Result<Gate, Mistake>
    ensures { result ≡ at_least limit }
{
    Ok(Gate::AtLeast(limit_at(limit)?))
}

#[tactic(auto, unfolding(crate::specs::saying::Says::by_limit))]
fn at_most(limit: Amount) -> Result<Gate, Mistake>
    ensures { result ≡ at_most limit }
{
    Ok(Gate::AtMost(limit_at(limit)?))
}

#[tactic(auto, unfolding(crate::specs::saying::Says::by_limits))]
fn within(low: Amount, high: Amount) -> Result<Gate, Mistake>
    ensures { result ≡ within low high }
{
    Ok(Gate::Within(Span {
        low: limit_at(low)?,
        high: limit_at(high)?,
    }))
}

// A limit, as it is written. One with more digits after the point than are read is a mistake where it stands; no line that was read has one.
#[tactic(auto, unfolding(crate::specs::saying::Says::by_bits))]
fn limit_at(amount: Amount) -> Result<f32, Mistake>
    ensures { result ≡ limit_at amount }
{
    let numeral = amount.numeral;
    match watts::nearest(numeral.minus, numeral.value, numeral.places) {
        Some(bits) => Ok(outside::on_words::watts(bits)),
        None => Err(Mistake {
            at: amount.at,
            expected: Kind::Amount,
        }),
    }
}

// Of the words that were listed at most so many are wanted.
#[tactic(auto, unfolding(crate::specs::saying::Says::up_to))]
fn up_to(most: u64, listing: Listing) -> Listing
    ensures { result ≡ up_to most listing }
{
    Listing {
        written: listing.written.min(most as usize),
        ..listing
    }
}

// What stands is to be shown.
fn shown(sheet: Sheet) -> Result<Response, Stop>
    ensures { Shows sheet (upshot_of sheet result) }
{
    if !sheet.is_sheet() {
        return Err(Stop::Refused(17));
    }
    if sheet.width == 0 {
        return Err(Stop::Refused(1));
    }
    Ok(Response::Shown)
}
