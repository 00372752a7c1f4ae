// Why a file cannot be asked about, in words.
use crate::sentences::table_name;
use table_file::fault::Fault;
use verdict::{file, say};

// What kept a file's text from being read.
pub(crate) fn file_sentence(why: file::Fault) -> &'static str {
    match why {
        file::Fault::CannotBeOpened => "cannot be opened",
        file::Fault::CannotBeRead => "cannot be read",
        file::Fault::TooLarge => "is larger than the 1,048,576 bytes that ladle reads",
    }
}

// Why a text is no table file, but for a line that is no whole row, whose numbers are said with it.
fn sentence(why: Fault) -> &'static str {
    match why {
        Fault::NoTableYet => "a row before the first table, as [names]",
        Fault::UnknownTable => "no such table",
        Fault::AfterHeading => "nothing but a comment may follow a table's name",
        Fault::NotANumber => "a number has digits only, and an L behind a 64-bit one",
        Fault::NumberTooLarge => "the number is too large",
        Fault::UnknownWord => "no such word in this table",
        Fault::UnknownName => "no such name in [names] so far",
        Fault::StringNotClosed => "the string is not closed on its line",
        Fault::UnknownEscape => "an escape is one of \\\" \\\\ \\n \\t \\xHH",
        Fault::AfterString => "a blank has to follow a string",
        Fault::NotAString => "[pool] holds strings only",
        Fault::TableFull => "more rows than ladle holds",
        Fault::PoolFull => "more bytes of strings than ladle holds",
        Fault::RootGivenTwice => "[root] has one number",
        Fault::NoWholeRow { .. } => "",
    }
}

fn print_why(out: &impl Print, why: Fault) {
    let Fault::NoWholeRow { table, words } = why else {
        let _ = out.print(sentence(why));
        return;
    };
    let unit = if words == 1 { "word" } else { "words" };
    let name = table_name(table);
    let width = table.row_width();
    let _ = print!(out; "{words} {unit}, a row of {name} has {width}");
}

// Whether one token is what is wrong.
fn is_about_token(why: Fault) -> bool {
    matches!(
        why,
        Fault::UnknownTable
            | Fault::AfterHeading
            | Fault::NotANumber
            | Fault::NumberTooLarge
            | Fault::UnknownWord
            | Fault::UnknownName
            | Fault::NotAString
    )
}

// Why a text is no table file.
pub(crate) fn print_fault(out: &impl Print, why: Fault, token: &[u8]) {
    print_why(out, why);
    if is_about_token(why) {
        say::words(out, b": ");
        say::words(out, token);
    }
}
