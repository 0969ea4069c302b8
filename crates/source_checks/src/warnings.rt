//! What hardly does what is meant, though it assembles.
use crate::doubt::Doubt;
use crate::meanings::{A0, A1, A2, When, call_of, meaning_of};
use crate::statements::parts_of;
use asm_statements::{Link, Mnemonic, Operands, PlainOp, Statement, Value};
use asm_text::{Line, lines};
use assembler::Position;
use call_forms::Outcome;
use formats::ImmediateOperator;
use machine_model::Image;
use std::alloc::{AllocError, Global};

/// The number of the register sp.
const SP: u8 = 2;

/// The number of the register a7, which says which call is made.
const A7: u8 = 17;

/// A warning, and the number of its line.
#[derive(Clone, Copy, Debug)]
pub struct Warning {
    pub line: usize,
    pub doubt: Doubt,
}

/// The number of an instruction, where it is written as one.
fn number_in(operands: &Operands) -> Option<i64> {
    match operands.value {
        Value::Number(number) => Some(number.value()),
        _ => None,
    }
}

/// The register that an instruction writes, by the first of its operands.
fn written_by(mnemonic: Mnemonic, operands: &Operands) -> Option<u8> {
    match mnemonic {
        Mnemonic::Registers(_)
        | Mnemonic::Immediate(_)
        | Mnemonic::Shift(_)
        | Mnemonic::Load(_)
        | Mnemonic::Upper(_)
        | Mnemonic::Jal
        | Mnemonic::Jalr
        | Mnemonic::Unary(_)
        | Mnemonic::Li
        | Mnemonic::La => Some(operands.first.number()),
        _ => None,
    }
}

/// The number that an instruction puts into its register, where it is known.
fn number_put(mnemonic: Mnemonic, operands: &Operands) -> Option<i64> {
    match mnemonic {
        Mnemonic::Li => number_in(operands),
        Mnemonic::Immediate(ImmediateOperator::Addi) if operands.second.number() == 0 => {
            number_in(operands)
        }
        _ => None,
    }
}

/// Whether it goes elsewhere, where a7 may change before control comes back.
fn is_jump(mnemonic: Mnemonic) -> bool {
    matches!(
        mnemonic,
        Mnemonic::Jal
            | Mnemonic::Jump(_)
            | Mnemonic::JumpRegister(_)
            | Mnemonic::Jalr
            | Mnemonic::Plain(PlainOp::Ret)
    )
}

/// The bit of the register of an argument, and none of another register.
fn argument_bit(register: u8) -> u8 {
    match register {
        10 => A0,
        11 => A1,
        12 => A2,
        _ => 0,
    }
}

/// Whether it goes elsewhere and does not come back.
fn is_left_for_good(mnemonic: Mnemonic) -> bool {
    matches!(
        mnemonic,
        Mnemonic::Jump(Link::Zero)
            | Mnemonic::JumpRegister(Link::Zero)
            | Mnemonic::Plain(PlainOp::Ret)
    )
}

/// What the call of a number replies, if there is one.
fn outcome_of(number: i64) -> Option<Outcome> {
    call_of(number).map(|call| call.form().outcome)
}

/// Whether control goes on to the next word after an instruction, as far as can be said.
fn goes_on(mnemonic: Mnemonic, call: Option<i64>) -> bool {
    match mnemonic {
        Mnemonic::Plain(PlainOp::Ecall) => call.is_some_and(|number| outcome_of(number)
            != Some(Outcome::End)),
        Mnemonic::Plain(PlainOp::Ebreak) => false,
        mnemonic => !is_jump(mnemonic),
    }
}

/// The doubt about an instruction.
fn doubt_of(mnemonic: Mnemonic, operands: &Operands, call: Option<i64>) -> Option<Doubt> {
    match mnemonic {
        Mnemonic::Immediate(ImmediateOperator::Addi)
            if operands.first.number() == SP && operands.second.number() == SP => {
            let by = number_in(operands)?;
            if by.unsigned_abs() % 4 == 0 {
                return None;
            }
            Some(Doubt::StackPointer)
        }
        Mnemonic::Plain(PlainOp::Ecall) => {
            let number = call?;
            match call_of(number) {
                Some(_) => None,
                None => Some(Doubt::Call { number }),
            }
        }
        _ => None,
    }
}

/// Whether a doubt about a call is one before this instruction, or before none.
fn is_doubtful(when: When, next: Option<Mnemonic>) -> bool {
    match when {
        When::Always => true,
        When::GoesOn => next.is_some(),
        When::Ends => next.is_none(),
        When::NoReturn => !next.is_some_and(is_left_for_good),
    }
}

/// Where data begins.
fn base_of(image: &Image) -> u32 {
    match image.segments().get(1) {
        Some(segment) => segment.vaddr,
        None => 0,
    }
}

/// What is known where a statement begins, and the warnings so far.
#[derive(Drop)]
struct Walk {
    base: u32,
    position: Position,
    /// The number in a7, where it is known.
    call: Option<i64>,
    /// Which registers of arguments were written since the last call, a bit each.
    set: u8,
    /// These, and those in which something may be left for a call.
    possible: u8,
    /// The doubt about the last call, if it depends on what stands next.
    waiting: Option<(When, Warning)>,
    /// The warning that text runs on, if its last statement would.
    last: Option<Warning>,
    found: Vec<Warning>,
}

impl Walk {
    fn new(alloc: Global, image: &Image) -> Walk {
        Walk {
            base: base_of(image),
            position: Position::start(),
            call: None,
            set: 0,
            possible: 0,
            waiting: None,
            last: None,
            found: Vec::new(alloc),
        }
    }

    /// Adds the doubt about the last call, if this instruction lets it be one, or none, and forgets it.
    fn settle(&mut self, next: Option<Mnemonic>) -> Result<(), AllocError> {
        let waiting = self.waiting;
        self.waiting = None;
        if let Some((when, warning)) = waiting
            && is_doubtful(when, next)
        {
            self.found.push(warning)?;
        }
        Ok(())
    }

    /// The doubt that the call of a line is meant.
    fn meaning(&self, line: usize) -> Option<(When, Warning)> {
        let call = call_of(self.call?)?;
        let (when, said) = meaning_of(call, self.set, self.possible)?;
        let doubt = Doubt::OtherCall { call, said };
        Some((when, Warning { line, doubt }))
    }

    /// Goes over an `ecall`. A descriptor that it replies may be an argument of the next call.
    fn pass_call(&mut self, line: usize) {
        self.waiting = self.meaning(line);
        let is_doubtful = self.waiting.is_some();
        self.set = 0;
        self.possible = match self.call {
            Some(number) if is_doubtful || outcome_of(number) != Some(Outcome::Descriptor) => 0,
            _ => A0,
        };
    }

    /// Goes over an instruction of text.
    fn pass_instruction(&mut self, line: usize, mnemonic: Mnemonic, operands: &Operands) {
        let doubt = Doubt::RunsOn;
        let goes_on = goes_on(mnemonic, self.call);
        self.last = if goes_on {
            Some(Warning { line, doubt })
        } else {
            None
        };
        let written = written_by(mnemonic, operands);
        if matches!(mnemonic, Mnemonic::Plain(PlainOp::Ecall)) {
            self.pass_call(line);
        } else if is_jump(mnemonic) {
            self.call = None;
            self.set = 0;
            self.possible = if is_left_for_good(mnemonic) {
                0
            } else {
                A0 | A1 | A2
            };
        } else {
            let bit = written.map_or(0, argument_bit);
            self.set |= bit;
            self.possible |= bit;
            if written == Some(A7) {
                self.call = number_put(mnemonic, operands);
            }
        }
    }

    /// Goes over a statement.
    fn pass(&mut self, line: &Line, statement: &Statement) {
        let before = self.position;
        self.position = before.after(statement, line.tokens.as_slice());
        match statement {
            _ if before.in_data => {}
            Statement::Instruction(mnemonic, operands) => {
                self.pass_instruction(line.number, *mnemonic, operands);
            }
            _ if self.position.words != before.words => {
                self.call = None;
                self.last = None;
            }
            _ => {}
        }
    }

    /// The doubt about a statement.
    fn doubt(&self, statement: &Statement) -> Option<Doubt> {
        let (in_data, bytes) = (self.position.in_data, self.position.bytes);
        match statement {
            Statement::Words if in_data && bytes % 4 != 0 => {
                let at = self.base.saturating_add(bytes);
                Some(Doubt::Words { at })
            }
            Statement::Instruction(mnemonic, operands) if !in_data => {
                doubt_of(*mnemonic, operands, self.call)
            }
            _ => None,
        }
    }

    /// Goes over a line, and adds its warning, if it has one. A label forgets what is in a7, since control may come from elsewhere.
    fn pass_line(&mut self, source: &[u8], line: &Line) -> Result<(), AllocError> {
        let Ok((label, statement)) = parts_of(source, line, self.position.in_data) else {
            return Ok(());
        };
        let next = match statement {
            Statement::Instruction(mnemonic, _) if label.is_none() => Some(mnemonic),
            _ => None,
        };
        if label.is_some() || !matches!(statement, Statement::Nothing) {
            self.settle(next)?;
        }
        if label.is_some() {
            self.call = None;
        }
        if let Some(doubt) = self.doubt(&statement) {
            let line = line.number;
            self.found.push(Warning { line, doubt })?;
        }
        self.pass(line, &statement);
        Ok(())
    }
}

/// The warnings about a source that assembles to this image, by rising lines; that text runs on comes last.
pub fn warnings(alloc: Global, source: &str, image: &Image) -> Result<Vec<Warning>, AllocError> {
    let Ok(lines) = lines(alloc, source) else {
        return Err(AllocError);
    };
    let mut walk = Walk::new(alloc, image);
    for line in &lines {
        walk.pass_line(source.as_bytes(), line)?;
    }
    walk.settle(None)?;
    if let Some(last) = walk.last {
        walk.found.push(last)?;
    }
    let Walk { found, .. } = walk;
    Ok(found)
}
