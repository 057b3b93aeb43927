// What a malformed line looks like, by the characters around the place at fault.
ghost use Rattle.std.specs.Prelude.{◌≡◌, IsSome};

use crate::left_out::LeftOut;
use crate::spot::Spot;
use yaml_events::Why;

/// What the text at a fault looks like.
#[derive(Clone, Copy, Debug, PartialEq, Eq)]
pub enum Hint {
    /// A TAB is in the indentation (YAML 1.2.2, 6.1).
    TabIndents,
    /// A plain scalar begins with a character that it can't begin with (7.3.3).
    Reserved(char),
    /// A control character (5.1).
    Control(char),
    /// What YAML has and a configuration doesn't.
    LeftOut(LeftOut),
    /// A value on the line of its key has a `: ` in it (7.3.3).
    ColonInValue,
    /// A `:` has no space after it, so that it is no key's (7.3.3).
    ColonWithoutSpace,
    /// A line among keys has no `: `.
    NoColon,
    /// A `-` has no space after it, so that it begins no entry (8.2.1).
    DashWithoutSpace,
    /// A `-` or `?` with a space after it is between brackets (7.4).
    SignInBrackets,
    /// A list or a `? ` begins on the line of its key (8.2.1, 8.2.2).
    CollectionAfterKey,
    /// The `:` of a key is over 1,024 characters on (7.4.2, 8.2.2).
    LongKey,
    /// A key in quotes runs over lines (7.4.2, 8.2.2).
    KeyOverLines,
    /// A line is deeper than its key, so that it goes on with the value above.
    DeeperThanKey,
    /// A line begins in a column in which none of the lines above it does.
    NoSuchColumn,
    /// A line of spaces that is wider than the indentation comes before the text of a block scalar (8.1.1.1).
    WiderLineOfSpaces,
    /// A line begins where the one above does, which is a node by itself.
    AfterNode,
    /// A key is among the entries of a list.
    KeyAmongEntries,
    /// An entry of a list is among the keys of a mapping.
    EntryAmongKeys,
    /// A comment ends the text above, which can't go on behind it (6.6).
    AfterComment,
    /// Something is behind the closing quote.
    AfterQuote,
    /// Something is behind the closing bracket.
    AfterBracket,
    /// An apostrophe in single quotes is not written twice (7.3.2).
    SingleApostrophe,
    /// `''` stands for an apostrophe, so that the quote is still open (7.3.2).
    QuoteStillOpen,
    /// A bracket is closed that is not open.
    ClosingBracket,
    /// Nothing is between two commas (7.4).
    NothingBetweenCommas,
    /// A template in braces, as `{{ name }}` or `{% if name %}`.
    Template,
    /// A text is on the line of the `|` or `>` before it (8.1).
    TextAfterHeader,
}

impl Hint {
    /// What the text at a fault looks like; `None` if nothing more than the reason is known.
    pub(crate) fn of(why: Why, spot: &Spot<'_>) -> Option<Hint>
        ensures alias { why ≡ Why.Alias → IsSome result }
        ensures anchor { why ≡ Why.Anchor → IsSome result }
        ensures tag { why ≡ Why.Tag → IsSome result }
        ensures key { why ≡ Why.Key → IsSome result }
    {
        if spot.is_in_template() {
            return Some(Hint::Template);
        }
        match why {
            Why::Indent => Some(Hint::of_indentation(spot)),
            Why::Character => Hint::of_character(spot),
            Why::Directive if !spot.begins_line() => Some(Hint::Reserved('%')),
            Why::Alias => Some(Hint::of_alias(spot)),
            Why::Anchor => Some(Hint::of_anchor(spot)),
            Why::Tag => Some(Hint::of_tag(spot)),
            Why::Key => Some(Hint::of_key(spot)),
            Why::Quote if spot.has_apostrophe_pair() => Some(Hint::QuoteStillOpen),
            Why::Flow => Hint::of_flow(spot),
            Why::BlockHeader => Some(Hint::TextAfterHeader),
            Why::Other => Hint::of_rest(spot),
            _ => None,
        }
    }

    fn of_indentation(spot: &Spot<'_>) -> Hint {
        if spot.character() == Some('\t') {
            Hint::TabIndents
        } else if spot.is_before_indentation() {
            Hint::WiderLineOfSpaces
        } else if spot.above_has_comment() && spot.is_deeper_than_above() {
            Hint::AfterComment
        } else if !spot.is_as_deep_as_above() {
            Hint::NoSuchColumn
        } else if spot.above_is_template() {
            Hint::Template
        } else if spot.above_is_entry() && !spot.is_entry() {
            Hint::KeyAmongEntries
        } else {
            Hint::AfterNode
        }
    }

    fn of_character(spot: &Spot<'_>) -> Option<Hint> {
        match spot.character() {
            Some(reserved @ ('@' | '`' | '|' | '>')) => Some(Hint::Reserved(reserved)),
            Some('-' | '?') if spot.is_in_brackets() => Some(Hint::SignInBrackets),
            Some('-') if spot.begins_line() => Some(Hint::EntryAmongKeys),
            Some('-' | '?') => Some(Hint::CollectionAfterKey),
            Some(control) if control.is_control() => Some(Hint::Control(control)),
            _ => None,
        }
    }

    fn of_alias(spot: &Spot<'_>) -> Hint {
        if spot.is_merge_key() {
            Hint::LeftOut(LeftOut::MergeKey)
        } else if spot.is_name_behind_sign() {
            Hint::LeftOut(LeftOut::Alias)
        } else {
            Hint::Reserved('*')
        }
    }

    fn of_anchor(spot: &Spot<'_>) -> Hint {
        if spot.is_sign_twice('&') {
            Hint::LeftOut(LeftOut::AnchorTwice)
        } else if spot.is_name_behind_sign() {
            Hint::LeftOut(LeftOut::Anchor)
        } else {
            Hint::Reserved('&')
        }
    }

    fn of_tag(spot: &Spot<'_>) -> Hint {
        if spot.is_sign_twice('!') {
            Hint::LeftOut(LeftOut::TagTwice)
        } else if spot.is_name_behind_sign() {
            Hint::LeftOut(LeftOut::Tag)
        } else {
            Hint::Reserved('!')
        }
    }

    fn of_key(spot: &Spot<'_>) -> Hint {
        if spot.is_indented_by_tab() {
            Hint::TabIndents
        } else if spot.is_colon() && spot.has_key_before() {
            Hint::ColonInValue
        } else if spot.is_colon() {
            Hint::DeeperThanKey
        } else if spot.is_dash_without_space() {
            Hint::DashWithoutSpace
        } else if spot.is_open_quote() {
            Hint::KeyOverLines
        } else if spot.is_long_key() {
            Hint::LongKey
        } else if spot.has_colon() {
            Hint::ColonWithoutSpace
        } else {
            Hint::NoColon
        }
    }

    fn of_flow(spot: &Spot<'_>) -> Option<Hint> {
        match spot.character() {
            Some(']' | '}') => Some(Hint::ClosingBracket),
            Some(',') if spot.is_after_comma() => Some(Hint::NothingBetweenCommas),
            Some(',') => Some(Hint::Reserved(',')),
            _ => None,
        }
    }

    fn of_rest(spot: &Spot<'_>) -> Option<Hint> {
        match (spot.previous_sign(), spot.character()) {
            (_, Some(']' | '}')) => Some(Hint::ClosingBracket),
            (Some('\''), _) if spot.is_beside_quote() => Some(Hint::SingleApostrophe),
            (Some('\'' | '"'), _) => Some(Hint::AfterQuote),
            (Some(']' | '}'), _) => Some(Hint::AfterBracket),
            _ => None,
        }
    }
}
