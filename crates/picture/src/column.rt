// The columns of a picture: 64, or at fewer than 6 bits a column a word.

ghost use Rattle.std.specs.Prelude.{◌≡◌, ◌<◌};
ghost use Rattle.word.specs.Word.{IsWidth};
ghost use Rattle.picture.specs.column.Column.{columns, size, words_of};

use rule::band::Run;
use word::Width;

/// As many columns as a picture has at most, which are the words of so many bits.
pub const COLUMNS: u64 = 64;

const BITS: u64 = 6;

/// How many columns there are.
pub fn count(width: Width) -> u64
    requires { IsWidth width.bits }
    ensures { result ≡ columns width.bits }
{
    if width.bits < BITS {
        return width.top() + 1;
    }
    COLUMNS
}

// How many words a column has.
fn size(width: Width) -> u64
    requires { IsWidth width.bits }
    ensures { result ≡ size width.bits }
{
    if width.bits <= BITS {
        return 1;
    }
    let rest = Width {
        bits: width.bits - BITS,
    };
    rest.top() + 1
}

/// The words of a column.
pub fn words(width: Width, column: u64) -> Run
    requires width { IsWidth width.bits }
    requires column_bound { column < columns width.bits }
    ensures { result ≡ words_of width.bits column }
{
    let size = size(width);
    let from = column * size;
    Run {
        from,
        to: from + (size - 1),
    }
}
