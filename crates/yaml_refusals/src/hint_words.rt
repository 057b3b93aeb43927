// A hint in words.
use crate::hint::Hint;
use std::fmt;

/// What it looks like, and what would mend it.
impl fmt::Display for Hint {
    fn fmt<W: fmt::Write>(&self, f: &mut fmt::Formatter<W>) -> fmt::Result {
        match self {
            Hint::Reserved(reserved) => {
                write!(
                    f,
                    "a text without quotes can't begin with `{reserved}`: quote it"
                )
            }
            Hint::Control(control) => {
                let number = u32::from(*control);
                write!(
                    f,
                    "the control character U+{number:04X}: escape it in double quotes"
                )
            }
            Hint::LeftOut(part) => write!(f, "{part}"),
            hint => f.write_str(hint.words()),
        }
    }
}

impl Hint {
    /// The words of a hint that always has the same.
    fn words(&self) -> &'static str {
        match self {
            Hint::TabIndents => "a TAB in the indentation: use spaces",
            Hint::ColonInValue => "a `: ` in a value without quotes: quote the value",
            Hint::ColonWithoutSpace =>
                "a `:` without a space after it ends no key: put a space after it",
            Hint::NoColon =>
                "no `: ` on the line: write one after the key, or indent the line as a part of the text above",
            Hint::DashWithoutSpace =>
                "a `-` without a space after it begins no entry: put a space after it",
            Hint::SignInBrackets => "a `- ` or `? ` between brackets: drop it, or quote the text",
            Hint::CollectionAfterKey =>
                "a list or a `? ` on the line of its key: begin it on the next line",
            Hint::LongKey =>
                "a key of over 1,024 characters: write `? ` before it, and its `:` on the next line",
            Hint::KeyOverLines =>
                "a key in quotes that runs over lines: write it on one line, or `? ` before it",
            Hint::DeeperThanKey =>
                "deeper than the key above, so the line goes on with its value: indent it as that key, or end that value",
            Hint::NoSuchColumn =>
                "no line above it begins in this column: indent it as its neighbours",
            Hint::WiderLineOfSpaces =>
                "a line of spaces above is wider than this line's indentation: drop those spaces",
            Hint::AfterNode =>
                "the line above is a whole value, and this one is no part of it: give each a key, or drop one",
            Hint::KeyAmongEntries =>
                "a key among the entries of a list: begin it with `- `, or indent it otherwise",
            Hint::EntryAmongKeys =>
                "an entry of a list among the keys of a mapping: give the list a key",
            Hint::AfterComment =>
                "a comment ends the text above, and this line can't go on with it: move the comment",
            Hint::AfterQuote => "something is behind the closing quote: quote all of it",
            Hint::AfterBracket => "something is behind the closing bracket: quote all of it",
            Hint::SingleApostrophe => "an apostrophe in single quotes: write it twice",
            Hint::QuoteStillOpen =>
                "`''` is an apostrophe here, and the quote is still open: write one more, or one less",
            Hint::ClosingBracket =>
                "a closing bracket without an open one: drop it, or quote the value",
            Hint::NothingBetweenCommas => "nothing between two commas: drop one",
            Hint::Template => "a template in braces: render it first, or quote the value",
            Hint::TextAfterHeader =>
                "text on the line of the `|` or `>`: begin it on the next line",
            Hint::Reserved(_) | Hint::Control(_) | Hint::LeftOut(_) => "",
        }
    }
}
