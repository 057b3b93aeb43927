// The answers of a group, until they are written.
ghost use Rattle.std.specs.Prelude.{◌≡◌, ◌+◌, ◌^◌, ◌<◌, ◌≤◌, ◌⊎◌, ◌↔◌, ◌++◌, true, [], None, if◌then◌else◌, OnOk};
ghost use Rattle.std.specs.Prelude.{IfErr, IsSome, length, take};
ghost use Rattle.conf_session.specs.Prelude.{Appends};
ghost use Rattle.conf_session.specs.Gathering.{FailsToWrite, HandsOut, KeepsAnswer, WritesAnswers, last_bytes, unwritten_bytes};
ghost use Rattle.conf_session.specs.Sinks.{AreAcknowledged};

use crate::fault::SessionFault;
use crate::pieces::{bytes_of, count_accepted, count_refused};
use crate::reply::Reply;
use crate::session::Tally;
use crate::sink::AnswerSink;
use conf_disk::Disk;
use conf_store::Store;
use std::alloc::Global;

/// Appends bytes to a text that keeps its limit. Returns whether it did: the text stays as it was if they would pass
/// the limit, or if there is no memory.
fn extend_within(limit: usize, text: &mut Vec<u8>, bytes: &[u8]) -> bool
    requires { length text.old.items ≤ limit }
    ensures bytes { text.new.items
        ≡ (if result then text.old.items ++ bytes.now else text.old.items) }
    ensures within { length text.new.items ≤ limit }
{
    if bytes.len() > limit - text.len() {
        return false;
    }
    text.extend_from_slice(bytes).is_ok()
}

/// The bytes of an answer that is kept apart; none if there is no such answer.
fn bytes_of_last(last: &Option<Reply>) -> &[u8]
    ensures { result.now ≡ last_bytes last.now }
{
    match last {
        None => b"",
        Some(reply) => bytes_of(reply),
    }
}

/// Puts bytes, if there are any.
///
/// # Errors
/// If not all bytes are taken: the number of those that are. These are the first ones.
fn put_some<D: Disk, S: AnswerSink<D>>(
    store: &Store<D>,
    sink: &mut S,
    bytes: &[u8],
) -> Result<(), usize>
    requires { AreAcknowledged D.model (S.taken sink.old) store.now bytes.now }
    ensures whole { OnOk result (Appends (S.taken sink.old) (S.taken sink.new) bytes.now) }
    ensures cut { IfErr result (λ count. count < length bytes.now) }
    ensures prefix { IfErr result (λ count.
        Appends (S.taken sink.old) (S.taken sink.new) (take count bytes.now)) }
    ensures hands { HandsOut (S.handings sink.old) (S.handings sink.new)
        (D.model.moment store.now.disk) (length bytes.now) }
{
    if bytes.is_empty() {
        return Ok(());
    }
    sink.put(store, bytes)
}

/// Puts a text, and then further bytes.
///
/// # Errors
/// If not all bytes are taken: the number of those that are. These are the first ones.
fn put_both<D: Disk, S: AnswerSink<D>>(
    store: &Store<D>,
    sink: &mut S,
    text: &[u8],
    last: &[u8],
) -> Result<(), u64>
    requires acknowledged { AreAcknowledged D.model (S.taken sink.old) store.now
        (text.now ++ last.now) }
    requires small { length text.now + length last.now < 2 ^ 64 }
    ensures whole { OnOk result
        (Appends (S.taken sink.old) (S.taken sink.new) (text.now ++ last.now)) }
    ensures cut { IfErr result (λ count. count < length (text.now ++ last.now)) }
    ensures prefix { IfErr result (λ count.
        Appends (S.taken sink.old) (S.taken sink.new) (take count (text.now ++ last.now))) }
    ensures hands { HandsOut (S.handings sink.old) (S.handings sink.new)
        (D.model.moment store.now.disk) (length (text.now ++ last.now)) }
{
    if let Err(count) = put_some(store, sink, text) {
        return Err(count as u64);
    }
    match put_some(store, sink, last) {
        Ok(()) => Ok(()),
        Err(count) => Err(text.len() as u64 + count as u64),
    }
}

/// The answers that are not written yet, what was done so far, and how many bytes of answers were written before.
///
/// An answer that is made is always kept: in the text if it fits there and there is memory, and else apart, as the last
/// one. After that none may follow before all are written.
#[derive(Drop)]
pub(crate) struct Unwritten {
    /// The most bytes of the text.
    pub limit: usize,
    pub text: Vec<u8>,
    pub last: Option<Reply>,
    pub tally: Tally,
    pub written: u64,
}

impl Unwritten {
    /// No answers: nothing was done yet. The text will have at most so many bytes.
    pub fn new(alloc: Global, limit: usize) -> Unwritten
        ensures limit { result.limit ≡ limit }
        ensures text { result.text.items ≡ [] }
        ensures last { result.last ≡ None }
        ensures documents { result.tally.documents ≡ 0 }
        ensures accepted { result.tally.accepted ≡ 0 }
        ensures refused { result.tally.refused ≡ 0 }
        ensures written { result.written ≡ 0 }
    {
        let tally = Tally {
            documents: 0,
            accepted: 0,
            refused: 0,
            rest: 0,
        };
        Unwritten {
            limit,
            text: Vec::new(alloc),
            last: None,
            tally,
            written: 0,
        }
    }

    /// Keeps one answer more, and counts it. None may be kept apart.
    pub fn keep(&mut self, reply: Reply)
        requires no_last { self.old.last ≡ None }
        requires within { length self.old.text.items ≤ self.old.limit }
        requires room { self.old.tally.documents + 1 < 2 ^ 64 }
        requires accepted { self.old.tally.accepted ≤ self.old.tally.documents }
        requires refused { self.old.tally.refused ≤ self.old.tally.documents }
        ensures { KeepsAnswer self.old self.new reply }
    {
        self.tally.documents += 1;
        self.tally.accepted += count_accepted(&reply);
        self.tally.refused += count_refused(&reply);
        if !extend_within(self.limit, &mut self.text, bytes_of(&reply)) {
            self.last = Some(reply);
        }
    }

    /// Whether a group has to end: an answer is kept apart, or the text has as many bytes as it may.
    pub fn is_full(&self) -> bool
        ensures { (result ≡ true) ↔ (IsSome self.now.last ⊎ (self.now.limit ≤ length self.now.text.items)) }
    {
        self.last.is_some() || self.text.len() >= self.limit
    }

    /// Hands all answers to a sink, and then keeps none. Their commands have to be flushed before.
    ///
    /// # Errors
    /// `Write`: the sink took only a part. It counts the bytes of all answers that were taken, with those before.
    pub fn put<D: Disk, S: AnswerSink<D>>(
        &mut self,
        store: &Store<D>,
        sink: &mut S,
    ) -> Result<(), SessionFault>
        requires acknowledged { AreAcknowledged D.model (S.taken sink.old) store.now
            (unwritten_bytes self.old) }
        requires small { self.old.written + length (unwritten_bytes self.old) < 2 ^ 64 }
        ensures ok { OnOk result
            (WritesAnswers (S.taken sink.old) (S.taken sink.new) self.old self.new) }
        ensures fails { IfErr result
            (FailsToWrite (S.taken sink.old) (S.taken sink.new) self.old) }
        ensures hands { HandsOut (S.handings sink.old) (S.handings sink.new)
            (D.model.moment store.now.disk) (length (unwritten_bytes self.old)) }
    {
        let last = bytes_of_last(&self.last);
        let len = self.text.len() as u64 + last.len() as u64;
        match put_both(store, sink, &self.text, last) {
            Ok(()) => {
                self.written += len;
                self.text.clear();
                self.last = None;
                Ok(())
            }
            Err(count) => Err(SessionFault::Write {
                written: self.written + count,
            }),
        }
    }
}
