// Orders on a store and their answers.
use crate::calls::call;
use crate::cut_sessions::each;
use crate::device::device;
use crate::folders::{Place, create, image, noted, open, renew, shown, worn};
use crate::holes::{Note, holes};
use crate::images::Openings;
use crate::lists::{crash, lists, misjudged, waiting};
use crate::puts::puts;
use conf_disk::Name;
use probe_words::{Answers, number_of};
use std::alloc::{AllocError, Global};
use std::io;
use test_disks::Fuse;

impl Answers for Place {
    fn answer(&mut self, alloc: Global, order: &str) -> io::Result<String> {
        let words: Vec<&str> = order.split(';').collect(alloc)?;
        Ok(answer(alloc, self, &words)?)
    }
}

/// The answer to an order.
fn answer(alloc: Global, place: &mut Place, words: &[&str]) -> Result<String, AllocError> {
    match words {
        ["folder"] => renew(alloc, place, None, None),
        ["folder", store] => renew(alloc, place, Some(store), None),
        ["folder", store, next] => renew(alloc, place, Some(store), Some(next)),
        ["noted", store] => noted(alloc, place, store),
        ["open"] => open(alloc, place, u64::MAX, Fuse::Stop),
        ["open", fuse, calls] => open(alloc, place, number_of(calls), fuse_of(fuse)),
        ["create", text] => create(alloc, place, u64::MAX, Fuse::Stop, text),
        ["create", fuse, calls, text] => create(
            alloc,
            place,
            number_of(calls),
            fuse_of(fuse),
            text,
        ),
        ["file"] => shown(alloc, place, Name::Store),
        ["next"] => shown(alloc, place, Name::Next),
        ["image", stage] => image(alloc, place, number_of(stage)),
        ["worn", stage, first, count] => worn(
            alloc,
            place,
            number_of(stage),
            number_of(first),
            number_of(count),
        ),
        ["holes", commands, page] => holes(
            alloc,
            number_of(commands),
            number_of(page) as usize,
            Note::Left,
        ),
        ["unnoted", commands, page] => holes(
            alloc,
            number_of(commands),
            number_of(page) as usize,
            Note::Taken,
        ),
        ["crash", calls] => crash(alloc, number_of(calls)),
        ["waiting", calls] => waiting(alloc, number_of(calls)),
        ["misjudged", calls] => misjudged(alloc, number_of(calls)),
        ["lists", length] => lists(alloc, number_of(length), Openings::Whole),
        ["lists again", length] => lists(alloc, number_of(length), Openings::CutOff),
        ["device", fuse, calls] => device(alloc, number_of(calls), fuse_of(fuse)),
        ["each", how] => each(alloc, how),
        ["puts", kind, count] => puts(alloc, kind, number_of(count)),
        words => match place {
            Place::Open(store) => call(alloc, store, words),
            Place::Folder(_) => String::from_str(alloc, "no store is open"),
        },
    }
}

/// The fuse that a word says: any other word is `stop`.
fn fuse_of(word: &str) -> Fuse {
    match word {
        "done" => Fuse::FailOnce { done: true },
        "undone" => Fuse::FailOnce { done: false },
        _ => Fuse::Stop,
    }
}
