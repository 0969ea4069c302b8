//! The commands as a text, of which the parser, the help and the rules are made.
//!
//! A command is its name and what it does, its arguments in the order of the help, the rules between them in the order in which they are
//! tested, and an example. `--term <T> 0..7 [0]: HELP` is an option whose value is a decimal number from 0 to 7, and 0 by default; `1..`
//! ends at the largest of 64 bits. Another text in its place says what the value is; `Argument::takes` tests it. What may be repeated has
//! `..` after it, and words then how one of them is called. `NAMES as in COMMAND` are options of a command above.
//!
//! | Rule | Says |
//! |---|---|
//! | `NAMES [needs] NAME, MORE` | if one of the first is given, so is the second; a refusal says the words in brackets, and more |
//! | `NAMES [cannot be used without] NAME` | the same; the name of words stands for more than one of them |
//! | `NAME [cannot be used with] NAMES` | if the first is given, none of the others is |
//! | `NAME differs from NAME` | two words are different paths |
//! | `standard input has READER` | no tape is standard input |

/// The forms of the command `disk`.
pub const DISK_USAGE: &str =
    "bench disk [OPTIONS] <FILE>\n       bench disk [OPTIONS] cat <FILE> <NAME>\n       bench disk [OPTIONS] put <FILE> <NAME> <FROM>\n       bench disk [OPTIONS] diff <FILE> <OTHER>";

/// The commands, in the order of the help, which is that of their use.
pub const COMMANDS: &str =
    "exec: Run programs: images, executables or sources; the status is that of the first
  --limit <N> 0..: the most instructions of all processes together; status 124 where they are reached
  --seed <S> 0..: have chance decide which process runs next and how long; a seed, one order
  --calls: tell of each call on standard error: its process, what it is given and replied
  --record <FILE>: write the run as a script, which bench replay runs again
  --picture <FILE>: draw the run as an SVG, as bench picture does
  --log <FILE>: write each instruction of process 1, in the form of Spike's commit log
  --log-of <P> 1..4294967295: write those of process P in place of process 1
  --profile: say at the end how often each line, or function, of the first program was executed
  --json: print at the end one object of JSON, in place of what terminals show
  --workers <N> 1..16: run by so many worker threads, 1 to 16; without it by turns, on one
  --disk <FILE>: the disk's file, zeros if there is none; it is written at the end
  --durable: have the disk's file hold each change before what rests on it is printed
  --tape <FILE>: what the first program may read; - is standard input
  --tape-of <T=FILE>.. a number from 0 to 7, '=' and a file: what the program of terminal T may read; may be given for each T
  --term <T> 0..7 [0]: the terminal that is printed, 0 to 7
  --all-terms: print all terminals, each part after a line that names its terminal
  PROGRAM.. program: the files of 1 to 8 programs, for the terminals 0, 1, ..; or a script, whose set-up lines count
  --all-terms [cannot be used with] --term
  --durable [cannot be used with] --limit --seed --record --picture --log --calls --json --profile
  --disk [cannot be used with] --record --picture
  --log-of [needs] --log
  --durable [needs] --disk
  Example: echo 1 2 3 | bench exec --tape - --limit 1000000 examples/first.s
# check: Say what is wrong with a source, where, and what would cure it
  SOURCE: the source's file
  Example: bench check examples/first.s
# debug: Debug an image, or with --live any program, by commands on standard input
  IMAGE.. image: the image's file; with --live the files of 1 to 8 programs, for the terminals 0, 1, ..; or a script, whose set-up lines count
  --trace <FILE>: the replies that its calls take
  --live: let a kernel answer its calls, and print what terminals show
  --process <P> 1..1024: with --live, the process that is debugged, 1 to 1024; 1 if it is not given
  --tape <FILE>: with --live, what the first program may read
  --tape-of <T=FILE>.. a number from 0 to 7, '=' and a file: with --live, what the program of terminal T may read; may be given for each T
  --disk <FILE>: with --live, the disk's file, zeros if there is none; it is not written
  --source <FILE>: the source that assembles to the image; its lines are printed, and its labels name addresses
  --live [cannot be used with] --trace
  --process --tape --tape-of --disk IMAGE [cannot be used without] --live
  standard input has the commands
  Example: echo step 1 | bench debug --live examples/sum.s
# gdb: Answer gdb, which debugs a program: its remote protocol on standard input and output
  PROGRAM.. program: the files of 1 to 8 programs, for the terminals 0, 1, ..; or a script, whose set-up lines count; with --trace one program
  --process <P> 1..1024: the process that is debugged, 1 to 1024; 1 if it is not given
  --tape <FILE>: what the first program may read
  --tape-of as in exec
  --disk <FILE>: the disk's file, zeros if there is none; it is written by 'monitor keep' alone
  --trace <FILE>: the replies that its calls take, in place of a kernel's
  --symbols <ELF>: the file of symbols that gdb is told: an ELF file with DWARF
  --history <MIB> 1..1048576 [1024]: the most memory that the program's history may take, in MiB, 1 to 1048576
  --trace [cannot be used with] --process --tape --tape-of --disk PROGRAM
  standard input has gdb's packets
  Example: gdb-multiarch -ex 'target remote | bench gdb examples/sum.s'
# explore: Find all outcomes of programs, whatever the order of their calls
  PROGRAM.. program: the files of 1 to 8 programs, for the terminals 0, 1, ..; or a script, whose set-up lines count; or, with --merge, those of all parts
  --expect <FILE>: the outcomes that there may be
  --save <FOLDER>: write a script of each outcome into a folder
  --limit <N> 1..2147483647 [1000000]: the most instructions that a process runs to its next call, 1 to 2147483647
  --most-states <N> 1..4294967295 [1000000]: how many states may be found before the search is cut, 1 to 4294967295
  --most-calls <N> 1..4294967295 [10000]: how many calls an order may have before the search is cut, 1 to 4294967295
  --jobs <N> 1..256: how many threads search, 1 to 256; as many as there are processors, if it is not given
  --progress: say once a second how far the search has come
  --part <I/N> I/N, two decimal numbers with 1 <= I <= N <= 9999: search part I of N alone, and print its file; N is at most 9999
  --merge: put the files of all parts together, and print what the whole search prints
  --tape --tape-of as in exec
  --merge [cannot be used with] --part --save --limit --most-states --most-calls --jobs --progress --tape --tape-of
  --part [cannot be used with] --save --expect
  Example: bench explore examples/lost-update.s
# crashes: Try a crash after each change of files, and print what each leaves, or run a recovery on it
  PROGRAM.. program: the files of 1 to 8 programs, for the terminals 0, 1, ..; or a script
  --expect <FILE>: the lists of files that a crash may leave
  --recover <PROGRAM>: run this program on what each crash leaves: it has to end with status 0
  --model <NAME> bench, ordered, delayed or posix: the rule of what a crash may leave: bench, ordered, delayed or posix
  --apart <D> 0..99 [2]: by another rule than bench, the most cells that are not as at one moment, 0 to 99
  --all-orders: run the recovery on what is left by crashes of every order of the programs' calls
  --most-states <N> 1..4294967295 [1000000]: with --all-orders, how many states may be found before the search is cut, 1 to 4294967295
  --most-calls <N> 1..4294967295 [10000]: with --all-orders, how many calls an order may have before the search is cut, 1 to 4294967295
  --nested <N> 0..8 [1]: how many crashes of the recovery may come one after the other, 0 to 8
  --save <FOLDER>: write the first recovery that fails as scripts into a folder
  --limit <N> 1.. [100000000]: the most instructions of the programs, and of each recovery
  --jobs <N> 1..256: how many threads run recoveries, 1 to 256; as many as there are processors, if it is not given
  --part <I/N> two numbers, 1 <= I <= N <= 9999: run the recovery on part I of N of the disks, 1 <= I <= N <= 9999
  --progress: say once a second how many recoveries were run
  --tape --tape-of as in exec
  --apart [needs] --model, another than bench
  --expect [cannot be used with] --model
  --all-orders --nested --save --jobs --part --progress [needs] --recover
  --expect [cannot be used with] --recover
  --most-states --most-calls [needs] --all-orders
  Example: bench crashes --recover examples/c/checks.image examples/c/wal.image
# page: Make a web page of a run of programs, or of a script, to walk through it event by event
  PROGRAM.. program: the files of 1 to 8 programs, for the terminals 0, 1, ..; or a script
  --json: print instead what the page has of the run, as a line of JSON
  --source <FILE>..: a source of an image, whose lines are shown; may be given for each image
  --limit <N> 1.. [1000000]: the most instructions of the programs; a script has no limit
  --tape --tape-of as in exec
  Example: bench page examples/sum.s > /tmp/sum.html
# picture: Draw a run of programs, or of a script, as an SVG: what it shows, and when
  PROGRAM.. program: the files of 1 to 8 programs, for the terminals 0, 1, ..; or a script
  --cone <N> 0..: draw what event N rests on, and all else pale
  --limit --tape --tape-of as in page
  Example: bench picture examples/first-run.script > /tmp/run.svg
# replay: Run a script, and print what each of its lines gives
  SCRIPT: the script's file
  --cone <N> 0..: print instead what event N rests on, and what it gives on that alone
  Example: bench replay examples/first-run.script
# run: Run images by worker threads, and print what a terminal shows
  --workers <N> 1..16 [4]: how many workers there are, 1 to 16
  --quantum <Q> 1..1000000 [10000]: the most instructions that a worker runs at a time, 1 to 1000000
  --disk --durable --tape --tape-of --term --all-terms as in exec
  --fail <K> 1..2147483647: which completion of the disk fails, 1 to 2147483647; none if it is not given
  --status <P> 1..4294967295: the process whose status is that of the command
  IMAGE.. image: the files of 1 to 8 images, for the terminals 0, 1, ..
  --all-terms [cannot be used with] --term
  --durable [needs] --disk
  Example: echo 1 2 3 | bench run --tape - --disk /tmp/disk /tmp/first.image
# asm: Assemble a source, and write its image
  SOURCE: the source's file
  IMAGE: the image's file, which is written anew; another than the source's
  SOURCE differs from IMAGE
  Example: bench asm examples/first.s /tmp/first.image
# image: Make an image of an executable that a stock linker wrote
  ELF: the executable's file: ELF, 32 bits, for RISC-V, linked statically
  IMAGE: the image's file, which is written anew; another than the executable's
  ELF differs from IMAGE
  Example: bench image a.out /tmp/a.image
# symbols: Write what gdb is told of a source: its labels, lines and data
  SOURCE: the source's file
  ELF: the file of symbols, which is written anew; another than the source's
  SOURCE differs from ELF
  Example: bench symbols examples/first.s /tmp/first.elf
# list: Print the words of an image that may be executed
  IMAGE: the image's file
  Example: bench list /tmp/first.image
# disk: Print the files on a disk, and their lengths; copy one out or in; or compare two disks
  WORD..: FILE and OTHER have disks, with files of a NAME; FROM is a file of the host
  Example: bench disk put /tmp/disk settings examples/saves.files
# diff: Say where two logs of instructions differ first
  A: a log's file, in the form of Spike's commit log
  B: the other's
  --source <FILE>: say where in the program that is: its source, or its executable
  Example: bench diff /tmp/a.log /tmp/b.log";
