//! What the definitions say of every source.
ghost use Rattle.std.specs.Prelude.{◌≡◌, ℕ, pos, ◌+ℤ◌, ◌-ℤ◌, ◌*◌, ◌%◌, ◌<◌, ◌^◌, ◌⊎◌, List, length, Some, All};
ghost use Rattle.formats.specs.Meaning.{Means};
ghost use Rattle.formats.specs.declared.instr.Instr.{Instr};
ghost use Rattle.machine_model.specs.Images.{Program, IsProfile};
ghost use Rattle.machine_model.specs.Effects.{ArchitecturalState, reg};
ghost use Rattle.asm_statements.specs.Expansion.{word_of, modulo_word, low_part, high_part, li_expansion, la_expansion, instructions_of};
ghost use Rattle.assembler.specs.Assembly.{Assembles, FaultOf};
ghost use Rattle.assembler.specs.Sections.{IsByLines, IsListedFirst, ListsInstructions};
ghost use Rattle.assembler.specs.Loads.{carried_out, with_value};
ghost use Rattle.assembler.specs.declared.fault.AsmFault.{AsmFault};
ghost use Rattle.assembler.specs.declared.listing.ListingRow.{ListingRow};

use asm_text::one_reading;

/// A law: the words of instructions are those of the instruction table. A word below 2^32 that means an instruction is that
/// instruction's word. FENCE and FENCE.I have several words: for FENCE it is the fence of all accesses, for FENCE.I the one whose
/// unused fields are 0.
pub fn word_meanings()
    ensures { (w : ℕ) (i : Instr) → w < 2 ^ 32 → (i ≡ Instr.Fence → w ≡ 0x0FF0000F) → (i ≡ Instr.FenceI → w ≡ 0x0000100F) → Means w i → w ≡ word_of i }
{}

/// A law: a number's high part, shifted up by twelve bits, and its low part add up to it, modulo 2^32. So `lui` and `addi` make the
/// number of `li`, and `auipc` and `addi` the distance of `la`.
pub fn parts_add_up()
    ensures { (u : ℕ) → modulo_word (pos (high_part u * 2 ^ 12) +ℤ low_part u) ≡ u % 2 ^ 32 }
{}

/// A law: the instructions of `li`, one after the other, put a word into their register. Those of `la` put the address of their
/// label there. Nothing else changes but the pc, which goes on after them.
pub fn loads_are_right()
    ensures li { (h : ArchitecturalState) (rd u : ℕ) → length h.registers ≡ 32 → reg h 0 ≡ 0 → rd < 32 → u < 2 ^ 32
        → carried_out (instructions_of (li_expansion rd u)) h ≡ Some (with_value h rd u (length (instructions_of (li_expansion rd u)))) }
    ensures la { (h : ArchitecturalState) (rd at : ℕ) → length h.registers ≡ 32 → rd < 32 → h.pc < 2 ^ 32 → at < 2 ^ 32
        → carried_out (instructions_of (la_expansion rd (modulo_word (pos at -ℤ pos h.pc)))) h ≡ Some (with_value h rd at 2) }
{}

/// A law: text and data are the bytes of the statements of a source's lines, one after the other, each at its own address. A label
/// stands at its section's base plus the bytes of that section before it.
pub fn images_are_by_lines()
    ensures { (source : List ℕ) (image : Program) (listing : List ListingRow) → Assembles source image listing → IsByLines source image }
{}

/// A law: a source has either an image and a listing or a first fault, and never both. `assemble` gives that one, memory aside.
pub fn one_outcome()
    ensures some { (source : List ℕ) → ((i : Program) × (l : List ListingRow) × Assembles source i l) ⊎ ((f : AsmFault) × FaultOf source f) }
    ensures image { (source : List ℕ) (i j : Program) (l m : List ListingRow) → Assembles source i l → Assembles source j m → (i ≡ j) × (l ≡ m) }
    ensures fault { (source : List ℕ) (f g : AsmFault) → FaultOf source f → FaultOf source g → f ≡ g }
    ensures not_both { (source : List ℕ) (i : Program) (l : List ListingRow) (f : AsmFault) → Assembles source i l → FaultOf source f → ⊥ }
{
    one_reading();
}

/// A law: what a source assembles to keeps the profile of what may be loaded. The listed words, each below 2^32, stand in the image
/// one after the other, each at its address. Each instruction in text is listed.
pub fn assembled_is_listed()
    ensures profile { (source : List ℕ) (image : Program) (listing : List ListingRow) → Assembles source image listing → IsProfile image }
    ensures listed { (source : List ℕ) (image : Program) (listing : List ListingRow) → Assembles source image listing → IsListedFirst image.segments listing }
    ensures words { (source : List ℕ) (image : Program) (listing : List ListingRow) → Assembles source image listing → All (λ row. row.word < 2 ^ 32) listing }
    ensures meant { (source : List ℕ) (image : Program) (listing : List ListingRow) → Assembles source image listing → ListsInstructions source listing }
{
    one_reading();
}
