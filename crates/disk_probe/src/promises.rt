// What a run was promised of `store.yaml`, moment for moment.
use std::alloc::{AllocError, Global};

/// A file that may be found under `store.yaml`.
#[derive(Clone, Copy)]
struct Candidate {
    file: usize,
    /// How many of its bytes the device surely has.
    surely: usize,
    /// Where the second append begins of those that wait for one sync, if there is a second one.
    second: Option<usize>,
}

/// What may be found from a moment on.
#[derive(Drop)]
struct Promise {
    calls: usize,
    candidates: Vec<Candidate>,
    /// Whether there may be no file.
    may_be_missing: bool,
}

impl Promise {
    /// Another append begins, to a file that is so long.
    fn begin_append(&mut self, file: usize, length: usize) {
        for candidate in &mut self.candidates {
            let waits = candidate.file == file && candidate.surely < length;
            if waits && candidate.second.is_none() {
                candidate.second = Some(length);
            }
        }
    }
}

/// What the next run finds of `store.yaml`.
#[derive(Clone, Copy)]
pub(crate) struct Found<'a> {
    /// The bytes of the file, if it is there.
    pub(crate) bytes: Option<&'a [u8]>,
    /// Whether the run says that several appends may have waited for one sync.
    pub(crate) several: bool,
}

/// All that was promised.
#[derive(Drop)]
pub(crate) struct Promises {
    alloc: Global,
    /// All bytes of each file that was `store.yaml`, in the order of their renaming.
    files: Vec<Vec<u8>>,
    promises: Vec<Promise>,
}

impl Promises {
    /// From the first moment on, a file of these bytes is there, or none.
    pub(crate) fn new(alloc: Global, bytes: Option<&[u8]>) -> Result<Self, AllocError> {
        let mut promises = Promises {
            alloc,
            files: Vec::new(alloc),
            promises: Vec::new(alloc),
        };
        let mut candidates = Vec::new(alloc);
        if let Some(bytes) = bytes {
            promises.files.push(bytes.to_vec(alloc)?)?;
            candidates.push(Candidate {
                file: 0,
                surely: bytes.len(),
                second: None,
            })?;
        }
        promises.promise(0, candidates, bytes.is_none())?;
        Ok(promises)
    }

    fn promise(
        &mut self,
        calls: usize,
        candidates: Vec<Candidate>,
        may_be_missing: bool,
    ) -> Result<(), AllocError> {
        self.promises.push(Promise {
            calls,
            candidates,
            may_be_missing,
        })?;
        Ok(())
    }

    /// Whether there may be no file, as was promised last.
    fn may_be_missing(&self) -> bool {
        match self.promises.last() {
            Some(promise) => promise.may_be_missing,
            None => true,
        }
    }

    /// The last file that was renamed.
    fn last(&self) -> usize {
        self.files.len().saturating_sub(1)
    }

    /// The candidates that were promised last.
    fn candidates(&self) -> Result<Vec<Candidate>, AllocError> {
        match self.promises.last() {
            Some(promise) => promise.candidates.to_vec(self.alloc),
            None => Ok(Vec::new(self.alloc)),
        }
    }

    /// The last file has these bytes by now.
    pub(crate) fn reads_as(&mut self, bytes: &[u8]) -> Result<(), AllocError> {
        let kept = bytes.to_vec(self.alloc)?;
        if let Some(file) = self.files.last_mut() {
            *file = kept;
        }
        Ok(())
    }

    /// The last file may have these bytes at its end.
    pub(crate) fn may_grow(&mut self, bytes: &[u8]) -> Result<(), AllocError> {
        let last = self.last();
        let Some(file) = self.files.last_mut() else {
            return Ok(());
        };
        let length = file.len();
        file.extend_from_slice(bytes)?;
        if let Some(promise) = self.promises.last_mut() {
            promise.begin_append(last, length);
        }
        Ok(())
    }

    /// The device has all bytes of the last file.
    pub(crate) fn is_synced(&mut self, calls: usize) -> Result<(), AllocError> {
        let file = self.last();
        let length = match self.files.last() {
            Some(bytes) => bytes.len(),
            None => 0,
        };
        let mut candidates = self.candidates()?;
        for candidate in &mut candidates {
            if candidate.file == file {
                candidate.surely = length;
                candidate.second = None;
            }
        }
        self.promise(calls, candidates, self.may_be_missing())
    }

    /// A file of these bytes, so many of them synced, may be under the name from now on.
    pub(crate) fn may_be_renamed(
        &mut self,
        calls: usize,
        bytes: &[u8],
        surely: usize,
    ) -> Result<(), AllocError> {
        let mut candidates = self.candidates()?;
        self.files.push(bytes.to_vec(self.alloc)?)?;
        let file = self.last();
        candidates.push(Candidate {
            file,
            surely,
            second: None,
        })?;
        self.promise(calls, candidates, self.may_be_missing())
    }

    /// The last renaming was not done.
    pub(crate) fn is_not_renamed(&mut self) {
        let _ = self.files.pop();
        let _ = self.promises.pop();
    }

    /// The device has the name of the last file.
    pub(crate) fn is_settled(&mut self, calls: usize) -> Result<(), AllocError> {
        let file = self.last();
        let mut kept = Vec::new(self.alloc);
        for candidate in &self.candidates()? {
            if candidate.file == file {
                kept.push(*candidate)?;
            }
        }
        let may_be_missing = self.may_be_missing() && kept.is_empty();
        self.promise(calls, kept, may_be_missing)
    }

    /// Whether this may be found after a crash at a moment.
    pub(crate) fn allow(&self, calls: usize, found: Found<'_>) -> bool {
        let mut last = None;
        for promise in &self.promises {
            if promise.calls <= calls {
                last = Some(promise);
            }
        }
        let Some(promise) = last else {
            return false;
        };
        match found.bytes {
            Some(bytes) => self.is_candidate(&promise.candidates, bytes, found.several),
            None => promise.may_be_missing,
        }
    }

    /// Whether these bytes may be left of one of the candidates, with this note.
    fn is_candidate(&self, candidates: &[Candidate], bytes: &[u8], several: bool) -> bool {
        for candidate in candidates {
            if candidate.file < self.files.len()
                && is_noted(candidate.second, bytes, several)
                && is_left(&self.files[candidate.file], candidate.surely, bytes)
            {
                return true;
            }
        }
        false
    }
}

/// Whether it is noted that several appends may have waited, if there are bytes of the second one.
fn is_noted(second: Option<usize>, bytes: &[u8], several: bool) -> bool {
    match second {
        Some(second) => several || bytes.len() <= second,
        None => true,
    }
}

/// Whether these bytes may be left of a file, so many bytes of which the device surely has.
fn is_left(file: &[u8], surely: usize, bytes: &[u8]) -> bool {
    if bytes.len() > file.len() || bytes.len() < surely {
        return false;
    }
    for place in 0..bytes.len() {
        let is_same = place < file.len() && bytes[place] == file[place];
        let may_be_zero = place >= surely && bytes[place] == 0;
        if !is_same && !may_be_zero {
            return false;
        }
    }
    true
}
