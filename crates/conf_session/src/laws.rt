// Laws of the definitions.
ghost use Rattle.conf_session.specs.Answers.{AllAreAcknowledged, AnswersAreShort, EachIsAnswered};
ghost use Rattle.conf_session.specs.AnswersRead.{AnswersAreRead};
ghost use Rattle.conf_session.specs.Conditional.{ConditionsGuard};
ghost use Rattle.conf_session.specs.Sinks.{NoneIsTakenBack};

use conf_disk::Disk;
use yaml_recognizers::closings::closed_once;
use yaml_recognizers::one_style::style_reads;
use yaml_tree::bytes_give_one;

/// No answer is longer than the longest base: 67,108,864 bytes, with its first line and its closing line.
///
/// The longest are lists of names, since each name is in the base too. A `value` or a `text` comes from one
/// configuration, which has at most 4,194,304 bytes in the one style; all other answers have a few bytes.
pub fn answers_are_short()
    ensures { AnswersAreShort }
{}

/// The bytes of an answer are one document, which reads as the answer's tree, and as nothing else.
///
/// That tree is good: all is text, in each mapping the keys differ, and it is within the limits that `read_one` of
/// `yaml_tree` keeps for every tree. The bytes are closed once, at their end. So a reader that cuts the output of a
/// session after each closing line has the answers, one by one.
pub fn answers_are_read()
    ensures { AnswersAreRead }
{
    style_reads();
    closed_once();
    bytes_give_one();
}

/// Each request that a piece asks for has an answer, whatever is stored.
///
/// What a piece asks for has none of the faults that end a session: the device and memory are no part of its meaning.
pub fn requests_are_answered()
    ensures { EachIsAnswered }
{}

/// No crash after a session takes away a command that was answered.
///
/// A session over a store in which commands wait, submitted and not flushed before it, acknowledges them with its first
/// answer. Until then nothing is acknowledged.
pub fn answers_acknowledge()
    ensures { AllAreAcknowledged }
{}

/// No crash takes away a command whose answer was handed to a sink, from that moment on: also of a session that is cut
/// off.
///
/// It speaks of the condition on callers of [`AnswerSink::put`](crate::AnswerSink::put): what that says of the bytes
/// that are handed out, and what follows from it for a crash then, or while further commands are performed.
pub fn answers_stand<D: Disk>()
    ensures { NoneIsTakenBack D.model }
{}

/// A command with conditions is answered and performed exactly as it is without them, if all of them hold of the state
/// that it finds. Otherwise the first that does not hold is answered, by `Unmet`, `BadName` or `BadPath`, and nothing
/// is changed: no configuration, no file and no count.
pub fn conditions_guard()
    ensures { ConditionsGuard }
{}
