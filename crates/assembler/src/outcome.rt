//! What items are assembled to, as a function: the contract of a function that does nothing.
ghost use Rattle.std.specs.Prelude.{◌≡◌, ◌↔◌, List, Ok, Err};
ghost use Rattle.casm_statements.specs.declared.Item.{Item};
ghost use Rattle.assembler.specs.declared.fault.AsmFault.{AsmFault};
ghost use Rattle.assembler.specs.Faults.{HasNoFault, IsFirstFault};
ghost use Rattle.assembler.specs.Assembling.{assembly_of, assembling};

/// Items are assembled exactly where none of the faults is there, and the fault that is reported is the first.
pub fn assembling_laws()
    ensures accepted { (items : List Item) → HasNoFault items ↔ (assembling items ≡ Ok (assembly_of items)) }
    ensures fault { (items : List Item) (f : AsmFault) → IsFirstFault items f ↔ (assembling items ≡ Err f) }
{}
