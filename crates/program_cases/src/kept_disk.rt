//! Tests the file in which a run keeps its disk: the files beside it, its rights, links at its path, and the lock by which one run
//! has it. Other files that the program writes are tested too, with links and rights.
use crate::faulty_output::{STREAMS, check_unwritable};
use crate::program::Program;
use crate::running::{ENDS, check_status};
use anyhow::{Error, ensure};
use std::fs::{self, File, OpenOptions, Permissions};
use std::os::unix::fs::{PermissionsExt, symlink};
use std::rt::Files;

/// The file `.new` beside the disk's is made anew: what a link of that name leads to stays as it was.
fn check_link<R: Files<File = File> + AllocGlobal>(
    rt: &R,
    program: Program<'_>,
) -> Result<(), Error>
    requires { IsAlwaysCallable program.now }
{
    fs::write(rt, "precious", "text")?;
    symlink(rt, "precious", "kept.new")?;
    check_status(rt.alloc(), program, "run --disk kept ends", 0)?;
    let text = fs::read_to_string(rt, "precious")?;
    ensure!(text.as_str() == "text", "what the link led to was written");
    ensure!(
        fs::symlink_metadata(rt, "kept")?.is_file(),
        "the disk's file is a link"
    );
    ensure!(
        fs::symlink_metadata(rt, "kept.new").is_err(),
        "the link is still there"
    );
    Ok(fs::remove_file(rt, "precious")?)
}

/// The disk's file keeps these rights.
fn check_rights<R: Files<File = File> + AllocGlobal>(
    rt: &R,
    program: Program<'_>,
    rights: u32,
) -> Result<(), Error>
    requires { IsAlwaysCallable program.now }
{
    fs::set_permissions(rt, "kept", Permissions::from_mode(rights))?;
    check_status(rt.alloc(), program, "run --disk kept ends", 0)?;
    let mode = fs::metadata(rt, "kept")?.permissions().mode() & 0o777;
    ensure!(mode == rights, "the rights {rights:o} became {mode:o}");
    Ok(())
}

/// A run whose disk could not be kept ends before it begins. Where the file beside it is a folder, that stays.
fn check_folder<R: Files<File = File> + AllocGlobal>(
    rt: &R,
    program: Program<'_>,
) -> Result<(), Error>
    requires { IsAlwaysCallable program.now }
{
    fs::create_dir(rt, "kept.new")?;
    check_status(rt.alloc(), program, "run --disk kept ends", 6)?;
    Ok(fs::remove_dir(rt, "kept.new")?)
}

/// A link that leads to a disk is replaced by a file, and what it led to stays.
fn check_linked_disk<R: Files<File = File> + AllocGlobal>(
    rt: &R,
    program: Program<'_>,
) -> Result<(), Error>
    requires { IsAlwaysCallable program.now }
{
    symlink(rt, "kept", "linked")?;
    check_status(rt.alloc(), program, "run --disk linked ends", 0)?;
    ensure!(
        fs::symlink_metadata(rt, "linked")?.is_file(),
        "the disk's file is still a link"
    );
    Ok(fs::remove_file(rt, "linked")?)
}

/// While another run has the disk's file, a run is refused before it begins, durable or not. A durable run is also refused where another
/// has the file by another path. A folder where the lock would be is in the way of both.
fn check_lock<R: Files<File = File> + AllocGlobal>(
    rt: &R,
    program: Program<'_>,
) -> Result<(), Error>
    requires { IsAlwaysCallable program.now }
{
    let lock = OpenOptions::new()
        .write(true)
        .create(true)
        .open(rt, "kept.lck")?;
    ensure!(lock.try_lock().is_ok(), "the lock is had");
    check_status(rt.alloc(), program, "run --disk kept ends", 6)?;
    check_status(rt.alloc(), program, "run --durable --disk kept ends", 6)?;
    check_status(rt.alloc(), program, "run --disk missing ends", 0)?;
    lock.unlock()?;
    check_status(rt.alloc(), program, "run --durable --disk kept ends", 0)?;
    ensure!(
        fs::symlink_metadata(rt, "kept.lck").is_err(),
        "the lock is still there"
    );
    let file = fs::open(rt, "missing")?;
    ensure!(file.try_lock().is_ok(), "the disk's file is locked");
    check_status(rt.alloc(), program, "run --durable --disk missing ends", 6)?;
    file.unlock()?;
    check_status(rt.alloc(), program, "run --durable --disk missing ends", 0)?;
    fs::create_dir(rt, "kept.lck")?;
    check_status(rt.alloc(), program, "run --disk kept ends", 6)?;
    check_status(rt.alloc(), program, "run --durable --disk kept ends", 6)?;
    fs::remove_dir(rt, "kept.lck")?;
    Ok(fs::remove_file(rt, "missing")?)
}

/// A durable run writes the file to which a link leads, and the link stays.
fn check_durable_link<R: Files<File = File> + AllocGlobal>(
    rt: &R,
    program: Program<'_>,
) -> Result<(), Error>
    requires { IsAlwaysCallable program.now }
{
    symlink(rt, "kept", "linked")?;
    check_status(rt.alloc(), program, "run --durable --disk linked ends", 0)?;
    ensure!(
        fs::symlink_metadata(rt, "linked")?.is_symlink(),
        "the disk's path is no link any more"
    );
    Ok(fs::remove_file(rt, "linked")?)
}

/// A session writes no disk. So where its output fails, and the reason is told, the file beside the disk stays as it is: another run may
/// be writing it.
fn check_session<R: Files<File = File> + AllocGlobal>(
    rt: &R,
    program: Program<'_>,
) -> Result<(), Error>
    requires { IsAlwaysCallable program.now }
{
    fs::write(rt, "kept.new", "text")?;
    let words = "debug --live --explain --disk kept ends";
    check_unwritable(rt.alloc(), program, words, (6, STREAMS))?;
    let text = fs::read_to_string(rt, "kept.new")?;
    ensure!(
        text.as_str() == "text",
        "the file beside the disk was written"
    );
    Ok(fs::remove_file(rt, "kept.new")?)
}

/// A file is written to what a link at its path leads to, and the link stays. A file in its place keeps its rights. Its path stands
/// between these words.
fn check_written<R: Files<File = File> + AllocGlobal>(
    rt: &R,
    program: Program<'_>,
    words: (&str, &str),
) -> Result<(), Error>
    requires { IsAlwaysCallable program.now }
{
    let (before, after) = words;
    let linked = format!(in rt.alloc(); "{before} linked{after}")?;
    let whole = format!(in rt.alloc(); "{before} whole{after}")?;
    symlink(rt, "made", "linked")?;
    check_status(rt.alloc(), program, linked.as_str(), 0)?;
    check_status(rt.alloc(), program, whole.as_str(), 0)?;
    let made = fs::read(rt, "made")?;
    ensure!(
        made.as_slice() == fs::read(rt, "whole")?.as_slice(),
        "{before}: the link leads to another file"
    );
    // Nothing is left of a longer file.
    fs::write(rt, "made", [0u8; 10_000])?;
    check_status(rt.alloc(), program, linked.as_str(), 0)?;
    ensure!(
        made.as_slice() == fs::read(rt, "made")?.as_slice(),
        "{before}: the second time the link leads to another file"
    );
    ensure!(
        fs::symlink_metadata(rt, "linked")?.is_symlink(),
        "{before}: the path is no link any more"
    );
    fs::set_permissions(rt, "whole", Permissions::from_mode(0o640))?;
    check_status(rt.alloc(), program, whole.as_str(), 0)?;
    let mode = fs::metadata(rt, "whole")?.permissions().mode() & 0o777;
    ensure!(mode == 0o640, "{before}: the rights 640 became {mode:o}");
    for name in ["linked", "made", "whole"] {
        fs::remove_file(rt, name)?;
    }
    Ok(())
}

/// What a run of `exec` would write is as it was where two paths lead to it, by a link to a file that is not there yet, and where the
/// run's output fails.
fn check_left<R: Files<File = File> + AllocGlobal>(
    rt: &R,
    program: Program<'_>,
) -> Result<(), Error>
    requires { IsAlwaysCallable program.now }
{
    symlink(rt, "made", "linked")?;
    check_status(
        rt.alloc(),
        program,
        "exec --record made --log linked ends",
        125,
    )?;
    ensure!(
        fs::symlink_metadata(rt, "made").is_err(),
        "a file is made of a run that is refused"
    );
    fs::write(rt, "made", "text")?;
    for words in [
        "exec --record linked --log there-is-no-such-folder/a ends",
        "exec --record linked --log made ends",
        "exec --disk linked --log linked.new ends",
    ] {
        check_status(rt.alloc(), program, words, 125)?;
    }
    let end = (125, "bench: standard output could not be written\n");
    check_unwritable(rt.alloc(), program, "exec --record made printer.s", end)?;
    let text = fs::read_to_string(rt, "made")?;
    ensure!(
        text.as_str() == "text",
        "what the run would have written is not as it was"
    );
    ensure!(
        fs::symlink_metadata(rt, "made.new").is_err(),
        "what the run wrote is still there"
    );
    fs::remove_file(rt, "linked")?;
    Ok(fs::remove_file(rt, "made")?)
}

/// All these tests: the file of a kept disk with its links, rights and locks, and other files that the program writes.
pub fn check_kept_disk<R: Files<File = File> + AllocGlobal>(
    rt: &R,
    program: Program<'_>,
) -> Result<String, Error>
    requires { IsAlwaysCallable program.now }
{
    fs::write(rt, "ends.s", ENDS)?;
    check_status(rt.alloc(), program, "asm ends.s ends", 0)?;
    check_link(rt, program)?;
    for rights in [0o600, 0o444, 0o666] {
        check_rights(rt, program, rights)?;
    }
    check_folder(rt, program)?;
    check_linked_disk(rt, program)?;
    check_lock(rt, program)?;
    check_durable_link(rt, program)?;
    check_session(rt, program)?;
    for words in [
        ("image linkers/gnu.elf", ""),
        ("asm ends.s", ""),
        ("symbols ends.s", ""),
        ("exec --record", " ends"),
        ("exec --picture", " ends"),
        ("exec --log", " ends"),
    ] {
        check_written(rt, program, words)?;
    }
    check_left(rt, program)?;
    for name in ["ends.s", "ends", "kept"] {
        fs::remove_file(rt, name)?;
    }
    Ok(String::from_str(
        rt.alloc(),
        "a disk's file: no link is followed, its rights stay, and one run has it; an image is written through a link",
    )?)
}
