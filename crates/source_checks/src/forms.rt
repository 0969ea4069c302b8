//! How each statement is written. This is the one table of forms here: a test assembles an example of each.
use std::alloc::{AllocError, Global};

/// Mnemonics or directives, and what is written after each of them. A word that begins with `r` stands for a register; `number`,
/// `target` and `label` stand for what they say. All else is written as it stands here. `number,..` is one number or more, with
/// commas between them.
pub type Form = (&'static str, &'static str);

/// The forms of all statements. `jal` and `jalr` have two each, the first with a register to link.
pub static FORMS: [Form; 18] = [
    (
        "add sub sll slt sltu xor srl sra or and mul mulh mulhsu mulhu div divu rem remu",
        "rd,rs1,rs2",
    ),
    (
        "addi slti sltiu xori ori andi slli srli srai",
        "rd,rs1,number",
    ),
    ("lb lh lw lbu lhu jalr", "rd,number(rs1)"),
    ("sb sh sw", "rs2,number(rs1)"),
    (
        "beq bne blt bge bltu bgeu bgt ble bgtu bleu",
        "rs1,rs2,target",
    ),
    ("beqz bnez blez bgez bltz bgtz", "rs,target"),
    ("jal", "rd,target"),
    ("lui auipc li", "rd,number"),
    ("la", "rd,label"),
    ("mv not neg seqz snez sltz sgtz", "rd,rs"),
    ("j call jal", "target"),
    ("jr jalr", "rs"),
    ("nop ret fence fence.i ecall ebreak", ""),
    (".text .data", ""),
    (".word", "number,.."),
    (".byte", "number,.."),
    (".ascii", "\"text\""),
    (".space", "number"),
];

/// The operands of a mnemonic or a directive, by the first of its forms or by the next.
pub fn form_of(name: &str, nth: usize) -> Option<&'static str> {
    let mut left = nth;
    for (names, operands) in &FORMS {
        if names.split(' ').any(|each| each == name) {
            if left == 0 {
                return Some(*operands);
            }
            left = left.saturating_sub(1);
        }
    }
    None
}

pub fn is_known(name: &str) -> bool {
    form_of(name, 0).is_some()
}

/// All directives, or all mnemonics.
pub fn names(alloc: Global, are_directives: bool) -> Result<Vec<&'static str>, AllocError> {
    let mut found = Vec::new(alloc);
    for (names, _) in &FORMS {
        for name in names.split(' ') {
            if name.starts_with('.') == are_directives {
                found.push(name)?;
            }
        }
    }
    Ok(found)
}

/// `written`, and each form of a name.
pub fn written(alloc: Global, name: &str) -> Result<String, AllocError> {
    let mut text = String::from_str(alloc, "written ")?;
    for nth in 0..2 {
        if let Some(operands) = form_of(name, nth) {
            let or = if nth > 0 { " or " } else { "" };
            let blank = if operands.is_empty() { "" } else { " " };
            write!(text, "{or}{name}{blank}{operands}")?;
        }
    }
    Ok(text)
}
