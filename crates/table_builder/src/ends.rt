//! The number of steps, the first state, and the last pc and ap, against what the program and the public input state.
#![tactic(auto, unfolding(crate::specs::Findings::finding_of))]

ghost use Rattle.std.specs.Prelude.{◌≡◌, ◌≢◌, ◌≤◌, ◌+◌, ⊤, IfErr, map, length};
ghost use Rattle.casm_word.specs.Transition.{registers};
ghost use Rattle.trace_files.specs.TraceFile.{state_limit};
ghost use Rattle.program_file.specs.Listing.{listing};
ghost use Rattle.public_input.specs.Statement.{statement};
ghost use Rattle.table_builder.specs.declared.faults.BuildFault.TheVariants.{Memory};
ghost use Rattle.table_builder.specs.Findings.{differs, end_findings, first_found};
ghost use Rattle.table_builder.specs.Parts.{FindsOrGives};

use crate::{BuildFault, Field};
use casm_word::State;
use goldilocks::Felt;
use program_file::Program;
use public_input::Public;

/// An error where the run hasn't the stated number of steps, or begins or ends elsewhere than the program and the public
/// input say.
pub(crate) fn ends_agree(
    program: &Program,
    public: &Public,
    states: &[State],
) -> Result<(), BuildFault>
    requires least { 2 ≤ length states.now }
    requires most { length states.now ≤ state_limit }
    ensures told { FindsOrGives (first_found (end_findings (listing program.now) (statement public.now) (map registers states.now))) (λ _. ⊤) result }
    ensures memory { IfErr result (λ fault. fault ≢ Memory) }
{
    let first = states[0];
    let last = states[states.len() - 1];
    let steps = Felt {
        number: states.len() as u64 - 1,
    };
    agrees(Field::Steps, felt(public.steps), steps)?;
    agrees(Field::PcFirst, address_of(program.start()), first.pc)?;
    agrees(Field::ApFirst, public.ap_first, first.ap)?;
    agrees(Field::FpFirst, public.ap_first, first.fp)?;
    agrees(Field::PcLast, address_of(program.end()), last.pc)?;
    agrees(Field::ApLast, public.ap_last, last.ap)
}

/// An error where what is stated isn't what is found.
pub(crate) fn agrees(field: Field, stated: Felt, found: Felt) -> Result<(), BuildFault>
    ensures told { FindsOrGives (differs field stated.number found.number) (λ _. ⊤) result }
    ensures memory { IfErr result (λ fault. fault ≢ Memory) }
{
    if stated.number == found.number {
        return Ok(());
    }
    Err(BuildFault::Mismatch {
        field,
        stated,
        found,
    })
}

/// A number of 32 bits as one of the field.
pub(crate) fn felt(number: u32) -> Felt
    ensures { result.number ≡ number }
{
    Felt {
        number: u64::from(number),
    }
}

/// The address of the program's word at a place.
fn address_of(place: u32) -> Felt
    ensures { result.number ≡ 1 + place }
{
    Felt {
        number: 1 + u64::from(place),
    }
}
