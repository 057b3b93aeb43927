// What begins with the base of a store's file: a state, or a part of one.
ghost use Rattle.std.specs.Prelude.{IfOk, IfSome, IfNone};
ghost use Rattle.conf_history.specs.Prelude.{IsBase, IsNoBase};

use crate::base::Base;
use conf_record::{BaseText, Miss, read_base};
use conf_state::{Command, Part, State};
use conf_store::{OnRefusal, RecordFault, Replayed};
use std::alloc::{AllocError, Global};

/// What begins with the base of a store's file.
pub(crate) trait OfBase: Replayed {
    /// The contents of a base; `None` if the bytes are none. It fails only if memory runs out.
    fn of_base(alloc: Global, bytes: Vec<u8>) -> Result<Option<Self>, AllocError>
        ensures some { IfOk result (λ read.
            IfSome read (λ held. IsBase bytes.items (Self.contents held))) }
        ensures none { IfOk result (λ read. IfNone read (IsNoBase bytes.items)) };
}

impl OfBase for State {
    fn of_base(alloc: Global, bytes: Vec<u8>) -> Result<Option<State>, AllocError> {
        read_base(alloc, &bytes)
    }
}

/// A part of a state, with the base of a store's file as what it is a part of.
#[derive(Drop)]
pub(crate) struct BasePart {
    pub part: Part<Base>,
}

impl Replayed for BasePart {
    ghost contents = { λ held. held.part };

    ghost Keeps = { λ held s. Unit {0} };

    ghost keeps = { λ held. tt };

    ghost Tells = { λ old new number command. Unit {0} };

    fn accepted(&self) -> u64 {
        self.part.count()
    }

    fn perform(
        &mut self,
        alloc: Global,
        command: Command,
        on_refusal: OnRefusal,
    ) -> Result<(), RecordFault> {
        self.part.perform(alloc, command, on_refusal)
    }
}

impl OfBase for BasePart {
    fn of_base(alloc: Global, bytes: Vec<u8>) -> Result<Option<BasePart>, AllocError> {
        match part_of_base(alloc, bytes) {
            Ok(Some(part)) => Ok(Some(BasePart { part })),
            Ok(None) => Ok(None),
            Err(fault) => Err(fault),
        }
    }
}

/// The part of a base. No configuration is built where the base is written as a store writes it.
fn part_of_base(alloc: Global, bytes: Vec<u8>) -> Result<Option<Part<Base>>, AllocError>
    ensures some { IfOk result (λ read. IfSome read (λ part. IsBase bytes.items part)) }
    ensures none { IfOk result (λ read. IfNone read (IsNoBase bytes.items)) }
{
    match BaseText::read(alloc, bytes) {
        Ok(base) => {
            let count = base.count();
            Ok(Part::new(alloc, Base::Written(base), count))
        }
        Err((bytes, Miss::OtherForm)) => spelled_part(alloc, &bytes),
        Err((_, Miss::OutOfMemory)) => Err(AllocError),
    }
}

/// The part of a base in any form.
fn spelled_part(alloc: Global, bytes: &[u8]) -> Result<Option<Part<Base>>, AllocError>
    ensures some { IfOk result (λ read. IfSome read (λ part. IsBase bytes.now part)) }
    ensures none { IfOk result (λ read. IfNone read (IsNoBase bytes.now)) }
{
    let Some(state) = read_base(alloc, bytes)? else {
        return Ok(None);
    };
    let count = state.count();
    Ok(Part::new(alloc, Base::Spelled(state), count))
}
