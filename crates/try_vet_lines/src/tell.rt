// What a statement is, in numbers.
ghost use Rattle.word.specs.Word.{IsWidth};

use line::scan::{Amount, Name};
use line::{Line, Statement};

const STDOUT: i32 = 1;

// Prints the statement and where its name stands, and gives the width after it.
pub fn tell(read: Line, width: u64) -> u64
    requires { IsWidth width }
    ensures { IsWidth result }
{
    let statement = read.statement;
    let name = read.name.unwrap_or(Name { from: 0, to: 0 });
    let after = opened(statement, width);
    print(statement);
    number(name.from as u64);
    number(name.to as u64);
    io::write_all(STDOUT, b"\n");
    after
}

// The width after a statement.
fn opened(statement: Statement, width: u64) -> u64
    requires { IsWidth width }
    ensures { IsWidth result }
{
    let Statement::Open(bits) = statement else {
        return width;
    };
    if bits < 1 {
        return width;
    }
    if 64 < bits {
        return width;
    }
    bits
}

fn print(statement: Statement) {
    match statement {
        Statement::Blank => number(0),
        Statement::Rule(rule) => {
            number(1);
            number(rule.form);
            number(rule.sense);
            number(rule.c1);
            number(rule.c2);
        }
        Statement::AtLeast(a) => {
            number(2);
            amount(a);
        }
        Statement::AtMost(a) => {
            number(3);
            amount(a);
        }
        Statement::Within(a, b) => {
            number(4);
            amount(a);
            amount(b);
        }
        Statement::Open(bits) => {
            number(5);
            number(bits);
        }
        Statement::Mark => number(6),
        Statement::Back => number(7),
        Statement::Forward => number(8),
        Statement::Ask => number(9),
        Statement::Count => number(10),
        Statement::List(listing) => {
            number(11);
            number(listing.from);
            number(listing.most);
        }
        Statement::Why(x) => {
            number(12);
            number(x);
        }
        Statement::Show => number(13),
        Statement::Wrong(mistake) => {
            number(14);
            number(mistake.at as u64);
            number(mistake.expected as u64);
        }
    }
}

// Whether it is below zero, its digits, and how many stand after the point.
fn amount(a: Amount) {
    let numeral = a.numeral;
    if numeral.minus {
        number(1);
    } else {
        number(0);
    }
    number(numeral.value);
    number(numeral.places);
}

fn number(n: u64) {
    io::print_decimal(STDOUT, n);
    io::write_all(STDOUT, b" ");
}
