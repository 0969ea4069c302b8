//! Crashes of `writer.s` and of `renamer.s` throughout their groups. Each has to leave the files after a prefix of the changes with
//! every committed one in it, by a plain fold of them.
use crate::changers::Changer;
use crate::cores::{Source, TestCore, recover};
use anyhow::{Error, bail};
use kernel::SimDisk;
use std::alloc::Global;
use std::fs;
use std::rt::Files;

/// The bytes that a crash leaves in the ranges of writes in flight.
pub const FILLS: &[&[u8]] = &[&[0x00], &[0x01], &[0x7F, 0xFF]];

/// How many changes groups have: the first one, and each other one.
#[derive(Clone, Copy)]
pub struct Sizes {
    first: u32,
    others: u32,
}

/// Of the writer group 0 makes the file alone, and each other one has sixty-four writes.
pub const WRITER: Sizes = Sizes {
    first: 1,
    others: 64,
};

/// Of the renamer each group begins at another change of the round, until 21 of them come to 13 rounds.
const RENAMER: Sizes = Sizes {
    first: 13,
    others: 13,
};

/// How many changes the renamer makes until its next group makes a checkpoint: 33 groups of 63 changes, three rounds each.
const BEFORE_CHECKPOINT: u32 = 2079;

/// Of the renamer the checkpoint's group and the one after it have two rounds, and eight changes of the third: of its files
/// there are `b` and `c` then.
const CHECKPOINT: Sizes = Sizes {
    first: 50,
    others: 50,
};

/// A run of a program from a disk of zeros, and those of its groups that crash, or whose writes fail.
#[derive(Clone, Copy)]
pub struct Run {
    pub changer: Changer,
    pub sizes: Sizes,
    pub groups: &'static [u32],
}

impl Run {
    /// The beginning of this run, on a disk of zeros, which is `device`.
    pub fn origin<'a>(self, sources: &'a [Source], device: &'a SimDisk) -> Origin<'a> {
        Origin {
            changer: self.changer,
            sizes: self.sizes,
            sources,
            tape: b"",
            device,
            before: 0,
            group: 0,
        }
    }
}

/// Of the writer the making of the file, a group, the first checkpoint, and the first group after it.
const WRITER_RUN: Run = Run {
    changer: Changer::Writer,
    sizes: WRITER,
    groups: &[0, 1, 16, 17],
};

/// Of the renamer all groups that are records.
const RENAMER_RUN: Run = Run {
    changer: Changer::Renamer,
    sizes: RENAMER,
    groups: &[
        0, 1, 2, 3, 4, 5, 6, 7, 8, 9, 10, 11, 12, 13, 14, 15, 16, 17, 18, 19, 20,
    ],
};

impl Sizes {
    fn before(self, group: u32) -> u32 {
        match group.checked_sub(1) {
            None => 0,
            Some(others) => others
                .saturating_mul(self.others)
                .saturating_add(self.first),
        }
    }

    fn of(self, group: u32) -> u64 {
        u64::from(if group == 0 { self.first } else { self.others })
    }
}

/// A core of these programs, with this tape alone, on the completed bytes of a disk.
fn boot(
    alloc: Global,
    sources: &[Source],
    tape: &[u8],
    device: &SimDisk,
) -> Result<TestCore, Error> {
    let mut tapes = Vec::new(alloc);
    tapes.push(Vec::from_slice(alloc, tape)?)?;
    TestCore::boot(alloc, sources, tapes.as_slice(), device)
}

/// The beginning of runs of a program: the disk, how many changes the program made before, and the number of the first group.
#[derive(Clone, Copy)]
pub struct Origin<'a> {
    changer: Changer,
    sizes: Sizes,
    sources: &'a [Source],
    tape: &'a [u8],
    device: &'a SimDisk,
    before: u32,
    group: u32,
}

impl Origin<'_> {
    /// A core that has committed all groups before `group` and has cut this one, and how many writes commit it.
    pub fn cut(&self, alloc: Global, group: u32) -> Result<(TestCore, u64), Error> {
        let mut core = boot(alloc, self.sources, self.tape, self.device)?;
        for before in self.group..group {
            core.round(self.sizes.of(before))?;
        }
        let writes = core.cut_after(self.sizes.of(group))?;
        Ok((core, writes))
    }

    /// How many changes the program has made in all when the core of this run has `changes`.
    fn after(&self, changes: u64) -> Result<u32, Error> {
        Ok(self.before.saturating_add(u32::try_from(changes)?))
    }

    /// Whether a disk has the files after some number of changes from `least` to `most`.
    fn is_left(&self, alloc: Global, disk: &SimDisk, least: u32, most: u32) -> Result<bool, Error> {
        let found = recover(alloc, disk)?;
        Ok(self.changer.leaves(alloc, found.list(), least, most)?)
    }

    /// The disk that a crash of this core with this fill leaves. Its files have to be those after some number of changes, at least
    /// the committed ones.
    pub fn crash(&self, alloc: Global, core: TestCore, fill: &[u8]) -> Result<SimDisk, Error> {
        let least = self.after(core.committed())?;
        let most = self.after(core.changes())?;
        let left = core.halt(fill);
        if self.is_left(alloc, &left, least, most)? {
            return Ok(left);
        }
        bail!(
            "a crash with the fill {fill:?} leaves other files than after {least} to {most} changes"
        )
    }
}

/// Crashes with this fill before the first and after each completion of a group. Each crash has a run of its own, since it is the
/// end of a core. Gives the disk that the last of them leaves.
fn crash_group(
    alloc: Global,
    origin: Origin<'_>,
    group: u32,
    fill: &[u8],
) -> Result<SimDisk, Error> {
    for completed in 0..100 {
        let (mut core, writes) = origin.cut(alloc, group)?;
        core.commit(completed)?;
        let left = origin.crash(alloc, core, fill)?;
        if completed == writes {
            return Ok(left);
        }
    }
    bail!("group {group} has no end")
}

/// Crashes with this fill throughout the making of the file and the first 33 groups, two checkpoints among them. The runs of a
/// group begin on the disk that the one before it left.
fn crash_groups(alloc: Global, sources: &[Source], fill: &[u8]) -> Result<(), Error> {
    let mut device = SimDisk::zero(alloc)?;
    for group in 0..=33u32 {
        let before = WRITER.before(group);
        let origin = Origin {
            changer: Changer::Writer,
            sizes: WRITER,
            sources,
            tape: &before.saturating_sub(1).to_le_bytes(),
            device: &device,
            before,
            group,
        };
        device = crash_group(alloc, origin, group, fill)?;
    }
    Ok(())
}

/// Crashes with this fill throughout groups of one run.
fn crash_run(alloc: Global, run: Run, sources: &[Source], fill: &[u8]) -> Result<(), Error> {
    let device = SimDisk::zero(alloc)?;
    for group in run.groups {
        crash_group(alloc, run.origin(sources, &device), *group, fill)?;
    }
    Ok(())
}

/// The disk of a run of the renamer whose next group makes a checkpoint.
fn before_checkpoint(alloc: Global, sources: &[Source]) -> Result<SimDisk, Error> {
    let device = SimDisk::zero(alloc)?;
    let mut core = boot(alloc, sources, b"", &device)?;
    core.rounds(alloc, 33, 63)?;
    Ok(core.halt(b""))
}

/// Crashes with this fill throughout a checkpoint of the renamer, and the group after it in the same run.
fn crash_checkpoint(alloc: Global, sources: &[Source], fill: &[u8]) -> Result<(), Error> {
    let device = before_checkpoint(alloc, sources)?;
    let origin = Origin {
        changer: Changer::Renamer,
        sizes: CHECKPOINT,
        sources,
        tape: &BEFORE_CHECKPOINT.to_le_bytes(),
        device: &device,
        before: BEFORE_CHECKPOINT,
        group: 0,
    };
    let left = crash_group(alloc, origin, 0, fill)?;
    if left.bytes().first() != Some(&1) {
        bail!("the group made no checkpoint");
    }
    crash_group(alloc, origin, 1, fill)?;
    Ok(())
}

/// A list of one program, for terminal 0, whose source stands in this file.
pub fn one_source<R: Files + AllocGlobal>(rt: &R, name: &str) -> Result<Vec<Source>, Error> {
    let text = fs::read_to_string(rt, name)?;
    let mut sources = Vec::new(rt.alloc());
    sources.push(Source { terminal: 0, text })?;
    Ok(sources)
}

fn crash_writers(alloc: Global, sources: &[Source]) -> Result<(), Error> {
    for fill in FILLS {
        crash_groups(alloc, sources, fill)?;
        crash_run(alloc, WRITER_RUN, sources, fill)?;
    }
    Ok(())
}

fn crash_renamers(alloc: Global, sources: &[Source]) -> Result<(), Error> {
    for fill in FILLS {
        crash_run(alloc, RENAMER_RUN, sources, fill)?;
        crash_checkpoint(alloc, sources, fill)?;
    }
    Ok(())
}

/// All crashes of the writer, which is read from `writer.s`, with each fill.
pub fn crash_writer<R: Files + AllocGlobal>(rt: &R) -> Result<String, Error> {
    let sources = one_source(rt, "writer.s")?;
    crash_writers(rt.alloc(), sources.as_slice())?;
    Ok(String::from_str(rt.alloc(), "crashes throughout 34 groups")?)
}

/// All crashes of the renamer, which is read from `renamer.s`, with each fill.
pub fn crash_renamer<R: Files + AllocGlobal>(rt: &R) -> Result<String, Error> {
    let sources = one_source(rt, "renamer.s")?;
    crash_renamers(rt.alloc(), sources.as_slice())?;
    Ok(String::from_str(
        rt.alloc(),
        "crashes throughout 23 groups that remove and rename files",
    )?)
}
