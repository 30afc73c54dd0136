//! The cells that the memory of a run has to have: the program's words and the public cells.
#![tactic(auto, unfolding(crate::specs::Findings::finding_of))]

ghost use Rattle.std.specs.Prelude.{⊤, map};
ghost use Rattle.program_file.specs.Listing.{listing};
ghost use Rattle.public_input.specs.Statement.{statement};
ghost use Rattle.goldilocks.specs.Cells.{cells_from};
ghost use Rattle.table_builder.specs.Findings.{cell_finding, cell_findings, first_found};
ghost use Rattle.table_builder.specs.Parts.{FindsOrGives};

use crate::ends::agrees;
use crate::{BuildFault, Field};
use casm_word::Reads;
use goldilocks::{Felt, Pair};
use program_file::Program;
use public_input::Public;

/// An error where the memory hasn't the program's words, and then the public cells.
pub(crate) fn cells_agree<M: Reads>(
    program: &Program,
    public: &Public,
    m: &M,
) -> Result<(), BuildFault>
    ensures { FindsOrGives (first_found (cell_findings (listing program.now) (statement public.now) (M.cells m.now))) (λ _. ⊤) result }
{
    words_agree(program.words(), m)?;
    public_agree(&public.cells, m)
}

/// An error where the memory hasn't the words one after another, from address 1 on.
fn words_agree<M: Reads>(words: &[Felt], m: &M) -> Result<(), BuildFault>
    ensures { FindsOrGives (first_found (map (λ x. cell_finding x (M.cells m.now x.addr.number)) (cells_from 1 words.now))) (λ _. ⊤) result }
{
    let mut addr = Felt::ONE;
    for word in words {
        cell_agrees(addr, *word, m)?;
        addr = addr.add(Felt::ONE);
    }
    Ok(())
}

/// An error where the memory hasn't each of the cells.
fn public_agree<M: Reads>(cells: &[Pair], m: &M) -> Result<(), BuildFault>
    ensures { FindsOrGives (first_found (map (λ x. cell_finding x (M.cells m.now x.addr.number)) cells.now)) (λ _. ⊤) result }
{
    for cell in cells {
        cell_agrees(cell.addr, cell.value, m)?;
    }
    Ok(())
}

/// An error where the memory hasn't this value at the address.
fn cell_agrees<M: Reads>(addr: Felt, value: Felt, m: &M) -> Result<(), BuildFault>
    ensures { FindsOrGives (cell_finding (record { addr = addr; value = value }) (M.cells m.now addr.number)) (λ _. ⊤) result }
{
    match m.read(addr) {
        None => Err(BuildFault::NoCell(addr)),
        Some(found) => agrees(Field::Cell(addr), value, found),
    }
}
