//! What debuggers are told of a source beside the image that it assembles to. `SourceLines` is for this program's own debugger: which
//! line a word of text is of, and where a label is. `symbol_file` is for gdb: an ELF file with the source's labels, lines and data
//! (DWARF 4). The nearest label before an address is proved; of all else only safety is, and what gdb makes of such a file is tested.
#![tactic(auto)]

mod file;
mod info;
mod labels;
mod line_table;
mod numbers;
mod sections;
mod source_lines;
mod symbol;
mod tables;

pub use file::{SymbolFile, symbol_file};
pub use labels::Label;
pub use source_lines::SourceLines;
