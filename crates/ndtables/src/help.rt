//! The pages that are printed in place of a result: help, and the version.

ghost use Rattle.std.specs.Prelude.{◌≡◌, ◌∷◌, [], map, IfNone, IfSome, string_bytes};
ghost use Rattle.ndtables.specs.Lines.{AsksNoPage};
ghost use Rattle.ndtables.specs.Pages.{AsksPage, command_text, page_text};

use crate::command::Command;

/// What `help` prints.
const HELP: &str = "ndtables: exact arithmetic on tables of whole numbers

    ndtables COMMAND ARGUMENTS
    ndtables OPTIONS COMMAND ARGUMENTS - < FILE

Commands (`ndtables help COMMAND` says more):
    add TABLE TABLE         the sums of two tables, cell by cell
    conv TABLE KERNEL       the valid convolution of a table with a kernel
    conv-full TABLE TABLE   the full convolution of two tables of one axis
    cumprod K TABLE         the running products along axis K
    diff N K TABLE          the difference of order N along axis K
    dot TABLE TABLE         the product of two vectors, matrices or tables
    product TABLE           the product of all cells
    product-axis K TABLE    the products of the lanes along axis K
    sum TABLE               the sum of all cells
    sum-axis K TABLE        the sums of the lanes along axis K
    help, --help            this page
    --version               the version

A TABLE is a shape word and then its cells, row after row. Axes are counted from 0. A cell is a whole number of 64 bits.
    . 7                     a number: no axes
    3 1 2 3                 three cells: one axis
    2x3 1 2 3 4 5 6         two rows of three cells: axis 0 and axis 1
    2x1x2 1 2 3 4           two blocks of one row of two cells, and so on: up to 32 axes
    2x0                     no cells
    2x3f 1 2 3 4 5 6        the table 2x3 above, kept column by column: each result is the same

A - as the last word stands for the words of standard input: white space is between them, and none has more than 4096 bytes.
    ndtables sum-axis 0 - < table.txt

Before the command may stand, in either order, one of
    --csv                   the last TABLE is standard input: records of comma-separated cells, each a row
    --csv --header          the same, and the first record is no row
and one of
    --table                 the result is printed as a TABLE, to be read by the next command
    --to-csv                the result is printed with commas; it has two axes at most
    ndtables --csv --header sum-axis 0 < sales.csv
    ndtables --table dot - < two-tables.txt | ndtables sum-axis 0 -

The status is 0, and the result is on standard output. Else it is 2, and a line on standard error names the first fault:
    ndtables: usage         a word is missing or left over, or there is no such command
    ndtables: shape         a word spells no shape, or the shapes do not allow the command, or records are not equally long
    ndtables: number        a word spells no number, or none of its type
    ndtables: range         a number of the result, or on the way to it, may be beyond 64 bits
    ndtables: input         standard input cannot be read, is no text, or has too long a word
    ndtables: memory        there is not enough memory
Where a number or a record of standard input is at fault, a second line says where, for instance
    ndtables: line 3, word 2: '4x'
    ndtables: line 3, field 2: '4x'
    ndtables: line 3: 1 field, not 2
";

const ADD: &str = "ndtables add TABLE TABLE

Prints the sums of the cells of two tables, whose shapes are broadcast together: axes are compared from the last one, and an axis
that is missing or of length 1 is repeated.

    ndtables add 2x2 1 2 3 4 2 10 20     prints  11 22
                                                 13 24
Faults: shape where the shapes do not broadcast together, range where a sum is beyond 64 bits.
";

const CONV: &str = "ndtables conv TABLE KERNEL

Prints the valid convolution of a table with a kernel of as many axes: at each position where the kernel lies within the table the
sum of the products of its cells, in reverse order along each axis, with those below it.

    ndtables conv 3x3 1 2 3 4 5 6 7 8 9 2x2 1 0 0 2     prints  7 10
                                                                16 19
Faults: shape where there are not as many axes or a length of the kernel is 0, range where at some position the absolute values of the
products add up to more than 64 bits hold. It takes as many steps as cells of the kernel times positions.
";

const CONV_FULL: &str = "ndtables conv-full TABLE TABLE

Prints the full convolution of two tables of one axis: the coefficients of the product of two polynomials.

    ndtables conv-full 3 1 2 3 2 1 1     prints  1 3 5 3
Faults: shape where a table has another number of axes, range where at some place the absolute values of the products add up to more than
64 bits hold. It takes as many steps as the lengths multiply to: two tables of 40000 cells some 20 seconds.
";

const CUMPROD: &str = "ndtables cumprod K TABLE

Prints the running products along axis K: each cell times all those before it.

    ndtables cumprod 1 2x3 1 2 3 4 5 6     prints  1 2 6
                                                   4 20 120
Faults: shape where there is no axis K, range where a product is beyond 64 bits.
";

const DIFF: &str = "ndtables diff N K TABLE

Prints the difference of order N along axis K: N times each cell minus the one before it.

    ndtables diff 1 0 3 1 2 5     prints  1 3
Faults: shape where there is no axis K or N is not below its length (N may be 0), range where a difference is beyond 64 bits.
";

const DOT: &str = "ndtables dot TABLE TABLE

Prints the product of two tables: of two vectors the sum of their products, of two matrices their product; of more axes the sums of the
products of the lanes of the left along its last axis and of the right along its last but one.

    ndtables dot 2x2 1 2 0 1 2x2 1 2 2 3     prints  5 8
                                                     2 3
Faults: shape where the lengths of these two axes differ or there is none, range where the absolute values of the products add up to more
than 64 bits hold.
";

const PRODUCT: &str = "ndtables product TABLE

Prints the product of all cells, and 1 where there are none.

    ndtables product 2x3 1 2 3 4 5 6     prints  720
Faults: range where the absolute values of the cells that are not 0 multiply to more than 64 bits hold.
";

const PRODUCT_AXIS: &str = "ndtables product-axis K TABLE

Prints the products of the lanes along axis K.

    ndtables product-axis 0 2x3 1 2 3 4 5 6     prints  4 10 18
Faults: shape where there is no axis K, range as of product, for each lane.
";

const SUM: &str = "ndtables sum TABLE

Prints the sum of all cells, and 0 where there are none.

    ndtables sum 2x3 1 2 3 4 5 6     prints  21
Faults: range where some of the cells have a sum beyond 64 bits.
";

const SUM_AXIS: &str = "ndtables sum-axis K TABLE

Prints the sums of the lanes along axis K.

    ndtables sum-axis 0 2x3 1 2 3 4 5 6     prints  5 7 9
    ndtables sum-axis 1 2x3 1 2 3 4 5 6     prints  6 15
Faults: shape where there is no axis K, range where some of the cells of a lane have a sum beyond 64 bits.
";

/// What `--version` prints.
const VERSION: &str = "ndtables 1.0\n";

/// A page.
#[derive(Clone, Copy, PartialEq, Eq, Debug)]
pub enum Page {
    /// `help` and `--help` print what there is.
    Help,
    /// `help COMMAND` prints what the command does.
    Of(Command),
    /// `--version` prints the version.
    Version,
}

impl Page {
    /// The page that words ask for, if they do.
    pub fn asked(words: &[String]) -> Option<Page>
        ensures some { IfSome result (AsksPage (map string_bytes words.now)) }
        ensures none { IfNone result (AsksNoPage (map string_bytes words.now)) }
    {
        match words {
            [word] => Page::alone(word.as_str()),
            [word, name] => Page::of(word.as_str(), name.as_str()),
            _ => None,
        }
    }

    /// The page that a word alone asks for.
    fn alone(word: &str) -> Option<Page>
        ensures some { IfSome result (AsksPage (word.now ∷ [])) }
        ensures none { IfNone result (AsksNoPage (word.now ∷ [])) }
    {
        match word {
            "help" | "--help" => Some(Page::Help),
            "--version" => Some(Page::Version),
            _ => None,
        }
    }

    /// The page that two words ask for.
    fn of(word: &str, name: &str) -> Option<Page>
        ensures some { IfSome result (AsksPage (word.now ∷ name.now ∷ [])) }
        ensures none { IfNone result (AsksNoPage (word.now ∷ name.now ∷ [])) }
    {
        if word != "help" {
            return None;
        }
        match Command::named(name) {
            Some(command) => Some(Page::Of(command)),
            None => None,
        }
    }

    /// Its text.
    pub fn text(self) -> &'static str
        ensures { result.now ≡ page_text self }
    {
        match self {
            Page::Help => HELP,
            Page::Of(command) => text_of(command),
            Page::Version => VERSION,
        }
    }
}

/// What is said of a command.
fn text_of(command: Command) -> &'static str
    ensures { result.now ≡ command_text command }
{
    match command {
        Command::Add => ADD,
        Command::Conv => CONV,
        Command::ConvFull => CONV_FULL,
        Command::Cumprod => CUMPROD,
        Command::Diff => DIFF,
        Command::Dot => DOT,
        Command::Product => PRODUCT,
        Command::ProductAxis => PRODUCT_AXIS,
        Command::Sum => SUM,
        Command::SumAxis => SUM_AXIS,
    }
}
