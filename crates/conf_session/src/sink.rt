// Where the answers of a session go.
ghost use Rattle.std.specs.Prelude.{◌<◌, [], ℕ, List, Option, OnOk, IfErr, length, take};
ghost use Rattle.conf_session.specs.Prelude.{Appends};
ghost use Rattle.conf_session.specs.Handings.{Handing, NotesAtMost};
ghost use Rattle.conf_session.specs.Sinks.{AreAcknowledged};

use conf_disk::Disk;
use conf_store::Store;
use std::io::Write;
use yaml_docs::write_or_count;

/// What takes the answers of a session. Each writer is one: it writes them.
///
/// A session hands its answers out by [`put`](AnswerSink::put) and in no other way. So from the moment at which a sink
/// gets an answer, no crash takes back what it tells, whether the session ends or is cut off.
pub trait AnswerSink<D: Disk> {
    /// The bytes that were taken so far, where they are known.
    ghost taken: { Self → Option (List ℕ) };

    /// How many bytes calls of [`put`](AnswerSink::put) took so far, and at which moment of the disk, where that is
    /// noted. A sink need not note a call.
    ghost handings: { Self → List Handing };

    /// Takes the next bytes of the answers of a session on `store`. They may be a part of an answer, or none.
    ///
    /// The store has performed what they answer, and nothing waits: whatever a crash leaves means its state, so it has
    /// each command that was accepted up to these answers.
    ///
    /// # Errors
    /// If not all bytes were taken: the number of those that were. These are the first ones.
    fn put(&mut self, store: &Store<D>, bytes: &[u8]) -> Result<(), usize>
        requires { AreAcknowledged D.model (taken self.old) store.now bytes.now }
        ensures whole { OnOk result (Appends (taken self.old) (taken self.new) bytes.now) }
        ensures cut { IfErr result (λ count. count < length bytes.now) }
        ensures prefix { IfErr result (λ count.
            Appends (taken self.old) (taken self.new) (take count bytes.now)) }
        ensures noted { OnOk result (NotesAtMost (handings self.old) (handings self.new)
            (D.model.moment store.now.disk) (length bytes.now)) }
        ensures cut_noted { IfErr result (λ count. NotesAtMost (handings self.old)
            (handings self.new) (D.model.moment store.now.disk) count) };
}

/// Writers note nothing.
impl<D: Disk, W: Write> AnswerSink<D> for W {
    ghost taken = { λ writer. W.contents writer };

    ghost handings = { λ _. [] };

    fn put(&mut self, _store: &Store<D>, bytes: &[u8]) -> Result<(), usize> {
        write_or_count(self, bytes)
    }
}
