//! Lists the words that name trials.

/// A line for each word. The trials are compared with what is wanted, but for the last, which measures.
pub const LINES: &str = "NAME.calls: the cases of this file, of programs that call the kernel
NAME.sessions: the cases of this file, of the whole program by its command line
NAME.cores: the cases of this file, of cores
NAME.calls:TITLE, NAME.sessions:TITLE, NAME.cores:TITLE: the case of this title alone
NAME.image: this image at many limits
faulty-output: outputs that take one write or none
endless-run: a run without end whose output fails
lost-arguments: arguments that cannot be read
kept-disk: the file of a kept disk, its links and rights
whole-lines: lines of standard error
writer-crashes: crashes of writer.s
renamer-crashes: crashes of renamer.s
writer-failures: failures of writes of talker.s
growths: calls beside the core, each made once more where it is refused for want of memory
workers: two programs that are run by workers in threads, and at a desk
written-code: a page that writes over its words
random-programs: random programs at many limits
help: these lines
costs-writes: what an Enter that writes, or removes a file, costs after many events beside one after 1000";
