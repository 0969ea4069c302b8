//! Tests of the numbers of refusals and faults, and of the names of those that no case shows.
use crate::asserting::{assert_row, assert_shown};
use asm_text::TextFault;
use assembler::Cause;
use elf32::ElfFault;
use formats::FieldFault;
use group_commit::CommitRefusal;
use journal::DiskFault;
use machine_model::BusFault;
use simdisk::DiskRefusal;
use std::alloc::AllocError;

const DISK_REFUSALS: &[(DiskRefusal, u8)] = &[
    (DiskRefusal::NoSuchWrite, 1),
    (DiskRefusal::OutOfRange, 2),
    (DiskRefusal::OutOfMemory, 3),
    (DiskRefusal::BadLength, 4),
];

const COMMIT_REFUSALS: &[(CommitRefusal, u8)] = &[
    (CommitRefusal::GroupInFlight, 5),
    (CommitRefusal::NothingToCut, 6),
    (CommitRefusal::NoSuchWrite, 7),
    (CommitRefusal::DiskFailed, 8),
    (CommitRefusal::OutOfMemory, 9),
    (CommitRefusal::Budget, 11),
];

const BUS_FAULTS: &[(BusFault, u8)] = &[
    (BusFault::Unmapped, 1),
    (BusFault::NoRight, 2),
    (BusFault::Misaligned, 3),
];

#[test]
fn refusals_and_faults(rt: HostRuntime) {
    for &(refusal, number) in DISK_REFUSALS {
        assert_row(&rt, refusal, refusal.number(), number);
    }
    for &(refusal, number) in COMMIT_REFUSALS {
        assert_row(&rt, refusal, refusal.number(), number);
    }
    for &(fault, number) in BUS_FAULTS {
        assert_row(&rt, fault, fault.number(), number);
    }
    assert_row(&rt, "a field", FieldFault::Range.number(), 1);
}

/// The other numbers of these faults stand in `damage.cores`, `images_refused.sessions` and `sources_refused.sessions`.
#[test]
fn want_of_memory(rt: HostRuntime) -> Result<(), AllocError> {
    let numbers = [
        DiskFault::OutOfMemory.number(),
        ElfFault::OutOfMemory.number(),
        Cause::OutOfMemory.number(),
        asm_text::Cause::OutOfMemory.number(),
    ];
    assert_row(&rt, "numbers", numbers, [4, 13, 7, 2]);
    assert_shown(&rt, rt.alloc(), &ElfFault::OutOfMemory, "OutOfMemory")?;
    assert_shown(&rt, rt.alloc(), &Cause::OutOfMemory, "OutOfMemory")
}

#[test]
fn faults_of_a_text(rt: HostRuntime) -> Result<(), AllocError> {
    let fault = TextFault {
        why: asm_text::Cause::Syntax,
        line: 2,
        column: 9,
    };
    assert_row(&rt, "syntax", fault.why.number(), 1);
    assert_shown(&rt, rt.alloc(), &fault, "2:9: syntax")
}
