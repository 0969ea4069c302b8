//! `WindowLists`: which lists of files a crash may leave in windows, by another rule than bench's.
ghost use Rattle.std.specs.Prelude.{◌≡◌, Some, None, if◌then◌else◌};
ghost use Rattle.std.specs.HashSet.{hash_set_len};

use crate::deeds::deeds_of;
use crash_lists::{CrashModel, Enumeration, Listed, Window};
use crash_points::{
    CrashPlace, ListedChanges, Promise, Stop, Taker, Told, digest_of_files, digest_of_window,
};
use disk_model::MOST_FILES;
use std::alloc::{AllocError, Global};
use std::collections::HashSet;
use std::fmt;
use std::thread::Threads;

/// The most lists of one window that are tried. A list counts near each common moment.
const MOST_LISTS: u64 = 1_000_000;

/// A rule of what a crash may leave, and how far it is tried.
#[derive(Clone, Copy)]
pub struct Rule {
    pub model: CrashModel,
    /// The most cells that are not as at a common moment.
    pub apart: u32,
}

/// Up to which bound all was tried. It prints as the end of a line.
#[derive(Clone, Copy)]
pub struct Bound {
    /// Whether what was tried came to its end, and all its windows were tried.
    is_over: bool,
    /// Whether a window has more lists than are tried.
    is_full: bool,
    /// The most cells apart; None where no list has more.
    apart: Option<u32>,
    /// How many lists have more files than a disk.
    too_many: usize,
}

impl fmt::Display for Bound {
    fn fmt<W: fmt::Write>(&self, f: &mut fmt::Formatter<W>) -> fmt::Result {
        match self.apart {
            _ if !self.is_over => {}
            _ if self.is_full => write!(
                f,
                ", not all: between two syncs the first {MOST_LISTS} alone were tried"
            )?,
            Some(apart) => write!(
                f,
                ", all with at most {apart} cells apart; those with more were not tried"
            )?,
            None => write!(f, ", all")?,
        }
        let too_many = self.too_many;
        if too_many > 0 {
            write!(f, "; {too_many} lists of more than 32 files were not tried")?;
        }
        Ok(())
    }
}

/// What was printed by the time of a crash.
#[derive(Drop)]
pub struct Promised {
    pub place: CrashPlace,
    pub promise: Promise,
}

/// A window, with what was printed while its last change was the last one.
#[derive(Drop)]
pub struct Closed {
    pub window: Window,
    pub promised: Vec<Promised>,
}

/// The lists of a window, and what each of its changes does.
#[derive(Drop)]
struct ToldWindow<'a> {
    closed: &'a Closed,
    lists: Enumeration<'a>,
    deeds: Vec<String>,
}

/// Hands out the lists of files that a crash may leave in windows, by a rule.
#[derive(Drop)]
pub struct WindowLists {
    alloc: Global,
    rule: Rule,
    /// Whether lists were left out, in which more cells are apart.
    is_cut: bool,
    /// How many lists of this window were handed out, with a promise each.
    lists: u64,
    is_full: bool,
    /// The digests of the lists that have more files than a disk.
    too_many: HashSet<String>,
    /// Those of the windows with their promises.
    windows: HashSet<String>,
}

impl WindowLists {
    /// Before the first window.
    pub fn new(alloc: Global, rule: Rule) -> WindowLists {
        WindowLists {
            alloc,
            rule,
            is_cut: false,
            lists: 0,
            is_full: false,
            too_many: HashSet::new(alloc),
            windows: HashSet::new(alloc),
        }
    }

    /// Up to which bound all was handed out, where these were all windows or not.
    pub fn bound(&self, is_over: bool) -> Bound
        ensures over { result.is_over ≡ is_over }
        ensures full { result.is_full ≡ self.now.is_full }
        ensures apart { result.apart ≡ (if self.now.is_cut then Some self.now.rule.apart else None) }
        ensures too_many { result.too_many ≡ hash_set_len self.now.too_many }
    {
        Bound {
            is_over,
            is_full: self.is_full,
            apart: if self.is_cut {
                Some(self.rule.apart)
            } else {
                None
            },
            too_many: self.too_many.len(),
        }
    }

    /// Hands out a list of files with each promise, if a disk may hold it.
    fn hand_out<T: Taker>(
        &mut self,
        closed: &Closed,
        changes: ListedChanges<'_>,
        taker: &mut T,
    ) -> Result<(), Stop> {
        let Listed { files, apart, .. } = changes.listed;
        let count = closed.promised.len() as u64;
        self.lists = self.lists.saturating_add(count);
        if files.count() > MOST_FILES {
            let digest = digest_of_files(self.alloc, files)?;
            self.too_many.insert(digest)?;
            return Ok(());
        }
        let told = Told {
            calls: None,
            changes: Some(changes),
        };
        for Promised { place, promise } in &closed.promised {
            taker.take(files, promise, place.with_apart(*apart), told)?;
        }
        Ok(())
    }

    /// Whether a window is new with its promises.
    fn is_new(&mut self, closed: &Closed) -> Result<bool, AllocError> {
        let mut key = digest_of_window(self.alloc, &closed.window)?;
        for promised in &closed.promised {
            key.push_str(promised.promise.digest.as_str())?;
        }
        Ok(self.windows.insert(key)?)
    }

    /// Hands out the lists near a common moment in which so many cells are apart. Whether there are others, with more.
    fn try_near<R: Threads + Sync, T: Taker>(
        &mut self,
        rt: &R,
        window: &ToldWindow<'_>,
        common: usize,
        apart: u32,
        taker: &mut T,
    ) -> Result<bool, Stop> {
        let near = window.lists.near(self.alloc, common, apart)?;
        for listed in near.lists.iter().filter(|listed| listed.apart == apart) {
            let changes = ListedChanges {
                deeds: window.deeds.as_slice(),
                lists: &window.lists,
                listed,
            };
            self.hand_out(window.closed, changes, taker)?;
            taker.settle(rt)?;
        }
        Ok(near.is_cut)
    }

    /// Hands out the lists of a window in which so many cells are apart. Whether there are others, with more.
    fn try_apart<R: Threads + Sync, T: Taker>(
        &mut self,
        rt: &R,
        window: &ToldWindow<'_>,
        apart: u32,
        taker: &mut T,
    ) -> Result<bool, Stop> {
        let mut is_cut = false;
        for common in 0..=window.closed.window.changes() {
            if self.lists >= MOST_LISTS {
                self.is_full = true;
                return Ok(false);
            }
            let cuts = self.try_near(rt, window, common, apart, taker)?;
            is_cut = is_cut || cuts;
        }
        Ok(is_cut)
    }

    /// Hands out what a crash may leave in a window, by rising number of cells apart, if that was not done before. Threads may share the work.
    pub fn try_window<R: Threads + Sync, T: Taker>(
        &mut self,
        rt: &R,
        closed: &Closed,
        taker: &mut T,
    ) -> Result<(), Stop> {
        if !self.is_new(closed)? {
            return Ok(());
        }
        self.lists = 0;
        let window = ToldWindow {
            closed,
            lists: Enumeration::new(self.alloc, &closed.window, self.rule.model)?,
            deeds: deeds_of(self.alloc, &closed.window)?,
        };
        for apart in 0..=self.rule.apart {
            let is_cut = self.try_apart(rt, &window, apart, taker)?;
            if !is_cut {
                return Ok(());
            }
        }
        self.is_cut = true;
        Ok(())
    }
}
