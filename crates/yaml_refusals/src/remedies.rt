// What to do about a refused text.
use yaml_events::{ReadFault, Why};

/// What to do about a fault of a text, in a few words. `docs/FAULTS.md` has the same words.
pub fn remedy(fault: ReadFault) -> &'static str {
    match fault {
        ReadFault::TooLong | ReadFault::LargeInStyle => "make more than one configuration of it",
        ReadFault::NotUtf8 { .. } => "save it as UTF-8",
        ReadFault::Syntax { why, .. } => remedy_of_reason(why),
        ReadFault::Documents { count: 0 } => "write one: `{}` is an empty mapping",
        ReadFault::Documents { .. } => {
            "keep one, or let `confstorectl import --from yaml --split` take each"
        }
        ReadFault::KeyNotText => "write the key as a text",
        ReadFault::KeyTwice => "drop one, or give it another key",
        ReadFault::TooDeep => "make it flatter",
        ReadFault::OutOfMemory => "free memory, and send it again",
    }
}

fn remedy_of_reason(why: Why) -> &'static str {
    match why {
        Why::Alias | Why::Anchor => {
            "`confstorectl import --from yaml` expands them, or quote the text"
        }
        Why::Tag => "`confstorectl import --from yaml` drops them, or quote the text",
        Why::Directive => "take it out, or quote the value",
        Why::OmittedKey => "write a key, or `\"\"`",
        Why::ByteOrderMark => "take it out",
        Why::Character => "escape it in double quotes",
        Why::Escape => "write `\\\\`, or use single quotes",
        Why::Indent => "indent it as its neighbours",
        Why::Quote => "close it",
        Why::Flow => "close it, or put a comma",
        Why::Key => "write `? ` before it, or a line of its own",
        Why::BlockHeader => "only a digit, `+` or `-`, and a comment may be there",
        Why::Marker => "indent it, or close the quote or bracket above it",
        Why::Other => "compare the place with the line above",
    }
}
