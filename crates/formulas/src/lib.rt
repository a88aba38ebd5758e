// What a building's shears are by both methods, over plain lists, and how near they lie to exact values.
#![tactic(auto)]

ghost use Rattle.formulas.specs.Theorems.{StaticTheorems, ForceTheorems, ModalTheorems, CombinedTheorems};

pub mod floor;

// What is proved of the formulas, as theorems that a check asks for.
pub fn formulas_stand() -> u8
    ensures statics { StaticTheorems }
    ensures forces { ForceTheorems }
    ensures modal { ModalTheorems }
    ensures combined { CombinedTheorems }
{
    0
}
