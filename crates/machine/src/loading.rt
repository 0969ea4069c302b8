//! The memory in which a program begins.
ghost use Rattle.std.specs.Prelude.{◌≡◌, ℕ, [], ◌+◌, ◌-◌, ◌*◌, ◌<◌, ◌≤◌, All, length, nat_le, if◌then◌else◌, slice_index, vec_len, IfOk, OnOk};
ghost use Rattle.memory_model.specs.Memory.{memory_of};
ghost use Rattle.memory_model.specs.Access.{HoldsBytes};
ghost use Rattle.machine_model.specs.Images.{IsLoadable, AreAscending, first_page, page_count};
ghost use Rattle.machine_model.specs.First.{first_cell, byte_at};

use machine_model::{Rights, Segment};
use memory::Space;
use std::alloc::{AllocError, Global};

/// How many bytes a page has.
const PAGE: u32 = 4096;

/// The pages of segments and of the stack, which lies above them.
pub fn space_of(alloc: Global, segments: &[Segment]) -> Result<Space, AllocError>
    requires loadable { All IsLoadable segments.now }
    requires ascending { (page : ℕ) × AreAscending page segments.now }
    ensures memory { IfOk result (λ space. space ≡ memory_of (first_cell segments.now)) }
    ensures bytes { IfOk result (λ space. HoldsBytes space) }
{
    match segments {
        [] => stack(alloc),
        [segment, rest @ ..] => {
            let mut space = space_of(alloc, rest)?;
            let bytes = page_bytes(alloc, segment)?;
            space.map(
                alloc,
                segment.vaddr / PAGE,
                segment.rights,
                bytes.as_slice(),
            )?;
            Ok(space)
        }
    }
}

/// The stack alone: four pages of zeros that end at 0x80000000.
fn stack(alloc: Global) -> Result<Space, AllocError>
    ensures memory { IfOk result (λ space. space ≡ memory_of (first_cell [])) }
    ensures bytes { IfOk result (λ space. HoldsBytes space) }
{
    let rights = Rights {
        read: true,
        write: true,
        execute: false,
    };
    let bytes = with_zeros(alloc, 0, &[], 16384)?;
    let mut space = Space::new(alloc);
    space.map(alloc, 0x7fffc, rights, bytes.as_slice())?;
    Ok(space)
}

/// The bytes of a segment's pages: zeros, its bytes, then zeros.
fn page_bytes(alloc: Global, segment: &Segment) -> Result<Vec<u8>, AllocError>
    requires { IsLoadable segment.now }
    ensures len { IfOk result (λ bytes. vec_len bytes ≡ 4096 * page_count segment.now) }
    ensures bytes { IfOk result (λ bytes. (k : ℕ) → slice_index bytes.items k
        ≡ byte_at segment.now (4096 * first_page segment.now + k)) }
    ensures small { IfOk result (λ bytes. (k : ℕ) → slice_index bytes.items k < 256) }
{
    let pages = (segment.vaddr + segment.memsz - 1) / PAGE + 1 - segment.vaddr / PAGE;
    with_zeros(
        alloc,
        (segment.vaddr % PAGE) as usize,
        segment.bytes.as_slice(),
        (PAGE * pages) as usize,
    )
}

fn with_zeros(alloc: Global, zeros: usize, bytes: &[u8], size: usize) -> Result<Vec<u8>, AllocError>
    requires { zeros + length bytes.now ≤ size }
    ensures len { IfOk result (λ all. vec_len all ≡ size) }
    ensures bytes { IfOk result (λ all. (k : ℕ) → slice_index all.items k
        ≡ (if nat_le zeros k then slice_index bytes.now (k - zeros) else 0)) }
    ensures small { IfOk result (λ all. (k : ℕ) → slice_index all.items k < 256) }
{
    let mut all = Vec::with_capacity(alloc, size)?;
    all.resize(zeros, 0)?;
    all.extend_from_slice(bytes)?;
    all.resize(size, 0)?;
    Ok(all)
}
