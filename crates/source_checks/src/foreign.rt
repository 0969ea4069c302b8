//! Words of other assemblers, and what does their work here. This is the one table of them: a test assembles what is written in place
//! of each.
use crate::foreign::Cure::{Alone, Doubles, Halves, Nothing, Said, Section, Word, ZeroEnded};
use std::fmt;

/// What does the work of a word of another assembler.
#[derive(Clone, Copy, PartialEq, Eq)]
pub enum Cure {
    /// This word with the same operands, and why.
    Word(&'static str, &'static str),
    /// This directive without operands.
    Alone(&'static str),
    /// A string with a zero byte at its end.
    ZeroEnded,
    /// Two bytes for each number.
    Halves,
    /// Two words for each number.
    Doubles,
    /// The section that is named.
    Section,
    /// Nothing, and why.
    Nothing(&'static str),
    /// What this says.
    Said(&'static str),
}

/// Why a line is left out that is for a linker or a debugger.
const NO_USE: Cure = Nothing("; nothing here needs it");

const NARROW: &str = ", since registers have 32 bits";

const TWO: &str = " with two numbers for each, the low one first";

const INTEGERS: Cure = Said("there is no floating point; count with integers");

const NO_STATE: Cure = Said("a program has only its 31 registers and its memory");

/// Words of other assemblers.
pub static FOREIGN: [(&str, Cure); 49] = [
    (".asciz .asciiz .string", ZeroEnded),
    (
        ".globl .global",
        Nothing("; the program begins at _start, and each label is known in the whole source"),
    ),
    (
        ".extern .import .export .weak .local .hidden",
        Nothing("; all labels are of this one source"),
    ),
    (".type .size .option .file .ident .attribute", NO_USE),
    (".loc .end .ent .frame .mask .addrsig", NO_USE),
    (
        ".align .p2align .balign",
        Nothing(
            "; instructions are aligned, and a check warns of each .word that needs .space before it",
        ),
    ),
    (".half .2byte .short .hword", Halves),
    (".4byte .long .int", Word(".word", "")),
    (".dword .8byte .quad", Doubles),
    (".float .single .double", INTEGERS),
    (".zero .skip", Word(".space", "")),
    (
        ".fill",
        Said("write .space n for zeros, else each number after .byte or .word"),
    ),
    (".comm .lcomm", Said("write name: .space n in .data")),
    (".section", Section),
    (
        ".pushsection .popsection .previous",
        Said("write .text or .data, whichever follows"),
    ),
    (".bss .rodata .sdata .sbss .srodata .kdata", Alone(".data")),
    (".ktext", Alone(".text")),
    (
        ".equ .set .eqv .equiv",
        Said("write the number itself wherever the name is used, and leave this line out"),
    ),
    (
        ".macro .endm .end_macro .rept .irp .endr",
        Said("write out the lines themselves, and leave this one out"),
    ),
    (
        ".include .incbin",
        Said("write out here what is in that file"),
    ),
    (
        ".if .ifdef .ifndef .elseif .else .endif",
        Said("keep the lines that are meant, without the test"),
    ),
    (".org", Said("write .space n, up to that place")),
    ("mov move", Word("mv", "")),
    ("push", Said("write addi sp,sp,-16 and sw rs,0(sp)")),
    ("pop", Said("write lw rd,0(sp) and addi sp,sp,16")),
    ("lla", Word("la", "")),
    ("tail b jmp", Word("j", "")),
    ("jals bal", Word("call", "")),
    ("ld lwu", Word("lw", NARROW)),
    ("sd", Word("sw", NARROW)),
    ("addiw", Word("addi", NARROW)),
    ("addw", Word("add", NARROW)),
    ("subw", Word("sub", NARROW)),
    ("negw", Word("neg", NARROW)),
    ("sext.w", Word("mv", NARROW)),
    ("sext.b", Said("write slli rd,rs,24 and srai rd,rd,24")),
    ("sext.h", Said("write slli rd,rs,16 and srai rd,rd,16")),
    ("zext.b", Said("write andi rd,rs,255")),
    ("zext.h", Said("write slli rd,rs,16 and srli rd,rd,16")),
    ("subi", Said("write addi with the number negated")),
    ("sgt", Said("write slt rd,rs2,rs1")),
    ("sgtu", Said("write sltu rd,rs2,rs1")),
    ("syscall scall", Word("ecall", "")),
    ("sbreak unimp", Word("ebreak", "")),
    ("inc", Said("write addi rd,rd,1")),
    ("dec", Said("write addi rd,rd,-1")),
    (
        "cmp",
        Said("write a branch that compares, as beq rs1,rs2,target"),
    ),
    ("je", Word("beq", "")),
    ("jne", Word("bne", "")),
];

/// How words begin of which there are many.
static BEGINNINGS: [(&str, Cure); 6] = [
    (".cfi_ .debug_", NO_USE),
    ("csr rdcycle rdtime rdinstret frcsr fscsr", NO_STATE),
    ("mret sret uret wfi sfence", NO_STATE),
    (
        "amo lr. sc.",
        Said("write lw and sw, since no other process has this memory"),
    ),
    ("c.", Said("write it without c.")),
    (
        "flw flh fld fsw fsd fadd. fsub. fmul. fdiv. fsqrt. fmadd. fmin. fmax. fmv. fneg. fabs. fcvt. feq. flt. fle. fsgnj",
        INTEGERS,
    ),
];

impl fmt::Display for Cure {
    fn fmt<W: fmt::Write>(&self, f: &mut fmt::Formatter<W>) -> fmt::Result {
        let (begin, said, end) = match *self {
            Word(word, why) => ("write ", word, why),
            Alone(word) => ("write ", word, ""),
            ZeroEnded => (
                ".ascii \"..\\0\"",
                ", in .data,",
                " ends a text with a zero byte",
            ),
            Halves => ("write ", ".byte", TWO),
            Doubles => ("write ", ".word", TWO),
            Section => ("write ", ".text or .data", ""),
            Nothing(why) => ("leave the line out", why, ""),
            Said(said) => (said, "", ""),
        };
        f.write_str(begin)?;
        f.write_str(said)?;
        f.write_str(end)
    }
}

/// What does the work of a word of another assembler.
pub fn cure_of(word: &str) -> Option<Cure> {
    for (names, cure) in &FOREIGN {
        if names.split(' ').any(|name| name == word) {
            return Some(*cure);
        }
    }
    for (beginnings, cure) in &BEGINNINGS {
        if beginnings.split(' ').any(|begin| word.starts_with(begin)) {
            return Some(*cure);
        }
    }
    None
}
