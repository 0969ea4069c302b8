//! The options of the commands that run programs. A field that is named as an option has its value; the table says what it is.
ghost use Rattle.std.specs.Prelude.{◌≡◌, ◌<◌, ◌≤◌, true, IfSome, vec_len, length};
ghost use Rattle.std.proofs.Props.{props};
ghost use Rattle.kernel_model.specs.World.{most_programs, tape_count, terminal_count};

use crate::rules::{Broken, texts};
use clap::ArgMatches;
use input_reading::decimal;
use kernel_model::{MOST_PROGRAMS, TAPES, TERMINALS};

/// The paths of 1 to 8 images.
#[derive(Drop)]
pub struct ImagePaths<'a> {
    paths: Vec<&'a str>,
    ghost some: { 1 ≤ vec_len paths },
    ghost few: { vec_len paths ≤ most_programs },
}

impl<'a> ImagePaths<'a> {
    pub(crate) fn new(paths: Vec<&'a str>) -> Option<ImagePaths<'a>> {
        if paths.is_empty() || paths.len() > MOST_PROGRAMS {
            return None;
        }
        Some(ImagePaths { paths })
    }

    pub fn as_slice(&self) -> &[&'a str]
        ensures some { 1 ≤ length result.now }
        ensures few { length result.now ≤ most_programs }
    {
        self.paths.as_slice()
    }
}

/// What stands on the tapes of a run: for each the path of a file, or nothing. `-` stands for standard input.
#[derive(Clone, Copy)]
pub struct TapePaths<'a> {
    paths: [Option<&'a str>; TAPES],
}

/// The tape and the path of a value of `--tape-of`.
pub(crate) fn tape_of(value: &str) -> Option<(usize, &str)> {
    let (tape, path) = value.split_once("=")?;
    let tape = usize::try_from(decimal(tape)?).ok()?;
    (tape < TAPES && !path.is_empty()).then_some((tape, path))
}

impl<'a> TapePaths<'a> {
    /// The tapes that a command line gives, up to the first that cannot be given, and why it cannot.
    pub(crate) fn read(matches: &ArgMatches<'a>) -> (TapePaths<'a>, Option<Broken<'static>>) {
        let mut paths = [None; TAPES];
        paths[0] = matches.get_str("tape");
        let mut tapes = TapePaths { paths };
        let values = texts(matches, "tape-of").iter();
        for (tape, path) in values.filter_map(|it| tape_of(it)) {
            let is_second = path == "-" && tapes.read_input();
            match tapes.paths.get_mut(tape) {
                Some(Some(_)) => return (tapes, Some(Broken::TapeTwice(tape))),
                Some(_) if is_second => return (tapes, Some(Broken::TwoInputs)),
                Some(place) => *place = Some(path),
                None => {}
            }
        }
        (tapes, None)
    }

    pub(crate) fn read_input(&self) -> bool {
        self.paths.iter().any(|it| *it == Some("-"))
    }

    /// The paths of the tapes 0 to 7, where there are files.
    pub fn as_slice(&self) -> &[Option<&'a str>]
        ensures { length result.now ≡ tape_count }
    {
        &self.paths
    }
}

/// The programs of a command, and what they read: the paths of 1 to 8 images, executables or sources, for the terminals 0, 1, ..; or that
/// of a script alone, which has tapes of its own.
#[derive(Drop)]
pub struct ProgramOptions<'a> {
    pub paths: ImagePaths<'a>,
    pub tapes: TapePaths<'a>,
}

#[derive(Clone, Copy)]
pub struct RunNumbers {
    pub workers: u32,
    pub quantum: u32,
    /// The terminal that is printed, 0 to 7; None where all are.
    pub terminal: Option<u32>,
    /// Which completion of the run fails, counted from 1, if one is to.
    pub fail: Option<u32>,
    ghost some: { 1 ≤ workers },
    ghost few: { workers ≤ 16 },
    ghost moves: { 1 ≤ quantum },
    ghost there: { IfSome terminal (λ t. t < terminal_count) } by { Prim.hlevel props },
}

#[derive(Drop)]
pub struct RunOptions<'a> {
    pub numbers: RunNumbers,
    pub programs: ProgramOptions<'a>,
    pub disk: Option<&'a str>,
    pub is_durable: bool,
    pub status: Option<u32>,
}

#[derive(Drop)]
pub struct ExecOptions<'a> {
    /// What it has in common with `run`, which takes images alone.
    pub run: RunOptions<'a>,
    /// Whether workers run it, in threads.
    pub is_threaded: bool,
    pub limit: Option<u64>,
    pub seed: Option<u64>,
    pub tells_calls: bool,
    pub tells_profile: bool,
    pub is_json: bool,
    pub record: Option<&'a str>,
    pub picture: Option<&'a str>,
    pub log: Option<&'a str>,
    /// The process whose instructions are logged.
    pub logged: u32,
}

#[derive(Drop)]
pub struct PageOptions<'a> {
    pub programs: ProgramOptions<'a>,
    pub sources: Vec<&'a str>,
    pub json: bool,
    pub limit: u64,
}

#[derive(Drop)]
pub struct PictureOptions<'a> {
    pub programs: ProgramOptions<'a>,
    pub cone: Option<u64>,
    pub limit: u64,
}

/// A session of the debugger in which a kernel answers the calls.
#[derive(Drop)]
pub struct LiveOptions<'a> {
    pub process: u32,
    pub programs: ProgramOptions<'a>,
    pub disk: Option<&'a str>,
    pub source: Option<&'a str>,
}

#[derive(Drop)]
pub struct GdbOptions<'a> {
    /// The programs, and how a kernel answers their calls. With a trace there is one program.
    pub live: LiveOptions<'a>,
    pub trace: Option<&'a str>,
    pub symbols: Option<&'a str>,
    pub history: u32,
}

/// A rule of what a crash may leave.
#[derive(Clone, Copy, PartialEq, Eq)]
pub enum ModelName {
    Bench,
    Ordered,
    Delayed,
    Posix,
}

pub(crate) fn model_named(name: &str) -> Option<ModelName> {
    match name {
        "bench" => Some(ModelName::Bench),
        "ordered" => Some(ModelName::Ordered),
        "delayed" => Some(ModelName::Delayed),
        "posix" => Some(ModelName::Posix),
        _ => None,
    }
}

/// One of so many parts, counted from 1.
#[derive(Clone, Copy)]
pub struct PartOf<T> {
    pub number: T,
    pub of: T,
}

/// The part I/N, where 1 <= I <= N <= 9999.
pub(crate) fn part_of(text: &str) -> Option<PartOf<u32>> {
    let (number, of) = text.split_once('/')?;
    let number = u32::try_from(decimal(number)?).ok()?;
    let of = u32::try_from(decimal(of)?).ok()?;
    (1 <= number && number <= of && of <= 9999).then_some(PartOf { number, of })
}

/// How far orders of calls are searched.
#[derive(Clone, Copy)]
pub struct OrderBounds {
    /// How many instructions a process runs at most to its next call.
    pub instructions: u32,
    /// No further level is searched if more states were found, or if so many calls lead to those of the last.
    pub states: u64,
    pub calls: u64,
}

#[derive(Drop)]
pub struct CrashOptions<'a> {
    pub programs: ProgramOptions<'a>,
    pub expect: Option<&'a str>,
    pub recover: Option<&'a str>,
    pub save: Option<&'a str>,
    pub model: ModelName,
    pub apart: u32,
    /// How far all orders of calls are searched; None: only the crashes of one run are tried.
    pub orders: Option<OrderBounds>,
    pub nested: u32,
    pub limit: u64,
    pub jobs: Option<u32>,
    pub part: Option<PartOf<u32>>,
    pub progress: bool,
}

#[derive(Drop)]
pub enum Explored<'a> {
    Programs(ProgramOptions<'a>),
    /// The files of the parts of a search, by their paths, which are put together.
    Parts(Vec<&'a str>),
}

#[derive(Drop)]
pub struct ExploreOptions<'a> {
    pub explored: Explored<'a>,
    pub part: Option<PartOf<u64>>,
    pub expect: Option<&'a str>,
    pub save: Option<&'a str>,
    pub bounds: OrderBounds,
    pub jobs: Option<u32>,
    pub progress: bool,
}

fn is_terminal(terminal: Option<u32>) -> bool
    ensures { result ≡ true → IfSome terminal (λ t. t < terminal_count) }
{
    match terminal {
        Some(terminal) => terminal < TERMINALS as u32,
        None => true,
    }
}

/// A run's numbers. None where one is out of range, which was refused before.
pub(crate) fn run_numbers(matches: &ArgMatches<'_>) -> Option<RunNumbers> {
    // The defaults of `run`, which `exec` has too.
    let workers = matches.get_one("workers").unwrap_or(4);
    let quantum = matches.get_one("quantum").unwrap_or(10_000);
    let terminal = if matches.get_flag("all-terms") {
        None
    } else {
        matches.get_one("term")
    };
    let fail = matches.get_one("fail");
    if workers >= 1 && workers <= 16 && quantum >= 1 && is_terminal(terminal) {
        Some(RunNumbers {
            workers,
            quantum,
            terminal,
            fail,
        })
    } else {
        None
    }
}
