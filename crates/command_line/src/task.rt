//! `Task`: what the command line asks for.
use crate::options::{
    CrashOptions, ExecOptions, ExploreOptions, Explored, GdbOptions, ImagePaths, LiveOptions,
    ModelName, OrderBounds, PageOptions, PartOf, PictureOptions, ProgramOptions, RunOptions,
    TapePaths, model_named, part_of, run_numbers,
};
use crate::rules::{has, text, texts};
use clap::ArgMatches;
use std::alloc::{AllocError, Global};

/// What is done with a disk: its file comes first.
#[derive(Clone, Copy)]
pub enum DiskTask<'a> {
    List(&'a str),
    /// Print the file of a name.
    Cat(&'a str, &'a str),
    /// Copy, under a name, a file of the host.
    Put(&'a str, &'a str, &'a str),
    Diff(&'a str, &'a str),
}

/// What the program is to do, a variant for each command. Files are named by their paths, and one that is written comes last.
#[derive(Drop)]
pub enum Task<'a> {
    ReplayInput,
    /// Replay a script, or print the cone of the event of a number.
    Replay(&'a str, Option<u64>),
    Picture(PictureOptions<'a>),
    Page(PageOptions<'a>),
    Crashes(CrashOptions<'a>),
    Explore(ExploreOptions<'a>),
    Assemble(&'a str, &'a str),
    Check(&'a str),
    Image(&'a str, &'a str),
    Symbols(&'a str, &'a str),
    List(&'a str),
    /// Compare two logs, and say where in a program they differ, if its source is given.
    Diff {
        first: &'a str,
        second: &'a str,
        source: Option<&'a str>,
    },
    /// Debug an image, with the replies of a trace, or none, and beside its source, if it is given.
    Debug {
        image: &'a str,
        trace: Option<&'a str>,
        source: Option<&'a str>,
    },
    /// Debug a process while a kernel answers its calls.
    DebugLive(LiveOptions<'a>),
    Gdb(GdbOptions<'a>),
    Disk(DiskTask<'a>),
    Run(RunOptions<'a>),
    Exec(ExecOptions<'a>),
}

/// The options of `exec` that have a run go by turns, on one thread.
const BY_TURNS: [&str; 8] = [
    "limit", "seed", "record", "picture", "log", "calls", "json", "profile",
];

/// What a command asks for that holds no list of paths. None of other commands, and of a disk with words of no form.
fn plain_task<'a>(command: &str, matches: &ArgMatches<'a>) -> Option<Task<'a>> {
    let source = text(matches, "SOURCE");
    let image = text(matches, "IMAGE");
    let linked = text(matches, "ELF");
    Some(match command {
        "replay" => Task::Replay(text(matches, "SCRIPT"), matches.get_one("cone")),
        "asm" => Task::Assemble(source, image),
        "check" => Task::Check(source),
        "image" => Task::Image(linked, image),
        "symbols" => Task::Symbols(source, linked),
        "list" => Task::List(image),
        "diff" => Task::Diff {
            first: text(matches, "A"),
            second: text(matches, "B"),
            source: matches.get_str("source"),
        },
        "debug" if !matches.get_flag("live") => Task::Debug {
            image,
            trace: matches.get_str("trace"),
            source: matches.get_str("source"),
        },
        "disk" => Task::Disk(match texts(matches, "WORD") {
            [disk] => DiskTask::List(*disk),
            ["cat", disk, name] => DiskTask::Cat(*disk, *name),
            ["put", disk, name, from] => DiskTask::Put(*disk, *name, *from),
            ["diff", disk, other] => DiskTask::Diff(*disk, *other),
            _ => return None,
        }),
        _ => return None,
    })
}

/// How far orders are searched whose processes run so many instructions at most to their next call.
fn bounds(matches: &ArgMatches<'_>, instructions: u32) -> OrderBounds {
    OrderBounds {
        instructions,
        states: matches.get_one("most-states").unwrap_or_default(),
        calls: matches.get_one("most-calls").unwrap_or_default(),
    }
}

fn crash_options<'a>(matches: &ArgMatches<'a>, programs: ProgramOptions<'a>) -> CrashOptions<'a> {
    let limit: u64 = matches.get_one("limit").unwrap_or_default();
    // A run of all orders counts up to the next call of a process, and has the limit of `explore`.
    let instructions = if has(matches, "limit") {
        limit.min(2_147_483_647) as u32
    } else {
        1_000_000
    };
    let orders = bounds(matches, instructions);
    CrashOptions {
        programs,
        expect: matches.get_str("expect"),
        recover: matches.get_str("recover"),
        model: model_named(text(matches, "model")).unwrap_or(ModelName::Bench),
        apart: matches.get_one("apart").unwrap_or_default(),
        orders: matches.get_flag("all-orders").then_some(orders),
        nested: matches.get_one("nested").unwrap_or_default(),
        save: matches.get_str("save"),
        limit,
        jobs: matches.get_one("jobs"),
        part: part_of(text(matches, "part")),
        progress: matches.get_flag("progress"),
    }
}

fn explore_options<'a>(matches: &ArgMatches<'a>, explored: Explored<'a>) -> ExploreOptions<'a> {
    let part = part_of(text(matches, "part"));
    ExploreOptions {
        explored,
        part: part.map(|it| PartOf {
            number: u64::from(it.number),
            of: u64::from(it.of),
        }),
        expect: matches.get_str("expect"),
        save: matches.get_str("save"),
        bounds: bounds(matches, matches.get_one("limit").unwrap_or_default()),
        jobs: matches.get_one("jobs"),
        progress: matches.get_flag("progress"),
    }
}

fn live_options<'a>(matches: &ArgMatches<'a>, programs: ProgramOptions<'a>) -> LiveOptions<'a> {
    LiveOptions {
        process: matches.get_one("process").unwrap_or(1),
        programs,
        disk: matches.get_str("disk"),
        source: matches.get_str("source"),
    }
}

/// The options of `run`, and those that `exec` has too. None where a number is out of range, which was refused before.
fn run_options<'a>(
    matches: &ArgMatches<'a>,
    programs: ProgramOptions<'a>,
) -> Option<RunOptions<'a>> {
    let numbers = run_numbers(matches)?;
    Some(RunOptions {
        numbers,
        programs,
        disk: matches.get_str("disk"),
        is_durable: matches.get_flag("durable"),
        status: matches.get_one("status"),
    })
}

fn exec_options<'a>(matches: &ArgMatches<'a>, run: RunOptions<'a>) -> ExecOptions<'a> {
    let is_asked = run.is_durable || has(matches, "workers");
    ExecOptions {
        run,
        is_threaded: is_asked && !BY_TURNS.iter().any(|it| has(matches, it)),
        limit: matches.get_one("limit"),
        seed: matches.get_one("seed"),
        tells_calls: matches.get_flag("calls"),
        is_json: matches.get_flag("json"),
        record: matches.get_str("record"),
        picture: matches.get_str("picture"),
        log: matches.get_str("log"),
        logged: matches.get_one("log-of").unwrap_or(1),
        tells_profile: matches.get_flag("profile"),
    }
}

/// What a command asks for with these programs, and, of `page`, their sources. None of a command that takes none.
fn task_of_programs<'a>(
    command: &str,
    matches: &ArgMatches<'a>,
    programs: ProgramOptions<'a>,
    sources: Vec<&'a str>,
) -> Option<Task<'a>> {
    Some(match command {
        "page" => Task::Page(PageOptions {
            programs,
            sources,
            json: matches.get_flag("json"),
            limit: matches.get_one("limit").unwrap_or_default(),
        }),
        "picture" => Task::Picture(PictureOptions {
            programs,
            cone: matches.get_one("cone"),
            limit: matches.get_one("limit").unwrap_or_default(),
        }),
        "crashes" => Task::Crashes(crash_options(matches, programs)),
        "explore" => Task::Explore(explore_options(matches, Explored::Programs(programs))),
        "debug" => Task::DebugLive(live_options(matches, programs)),
        "gdb" => Task::Gdb(GdbOptions {
            live: live_options(matches, programs),
            trace: matches.get_str("trace"),
            symbols: matches.get_str("symbols"),
            history: matches.get_one("history").unwrap_or_default(),
        }),
        "run" => Task::Run(run_options(matches, programs)?),
        "exec" => Task::Exec(exec_options(matches, run_options(matches, programs)?)),
        _ => return None,
    })
}

/// What a command and its arguments ask for, once its rules are tested. None of a disk with words of no form.
pub fn task_of<'a>(
    alloc: Global,
    command: &str,
    matches: &ArgMatches<'a>,
) -> Result<Option<Task<'a>>, AllocError> {
    if let Some(task) = plain_task(command, matches) {
        return Ok(Some(task));
    }
    let mut paths = Vec::from_slice(alloc, texts(matches, "PROGRAM"))?;
    paths.extend_from_slice(texts(matches, "IMAGE"))?;
    if matches.get_flag("merge") {
        let options = explore_options(matches, Explored::Parts(paths));
        return Ok(Some(Task::Explore(options)));
    }
    let sources = Vec::from_slice(alloc, texts(matches, "source"))?;
    let Some(paths) = ImagePaths::new(paths) else {
        return Ok(None);
    };
    let tapes = TapePaths::read(matches).0;
    let programs = ProgramOptions { paths, tapes };
    Ok(task_of_programs(command, matches, programs, sources))
}
