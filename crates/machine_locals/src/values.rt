// The values on offer at an instruction.
ghost use Rattle.std.specs.Prelude.{◌≡◌};
ghost use Rattle.notation.specs.Lists.{member};
ghost use Rattle.machine.specs.Instructions.{values};
ghost use Rattle.taskfile.specs.Code.Choices as choices;

use taskfile::Instruction;
use taskfile::operations::PICK;

// The lowest value on offer: c of a Pick, and 0 of any other instruction.
pub fn lowest(i: Instruction) -> u8
    ensures { result ≡ choices.lowest i }
{
    if i.operation == PICK { i.c } else { 0 }
}

// The highest value on offer: b of a Pick, and 0 of any other instruction.
pub fn highest(i: Instruction) -> u8
    ensures { result ≡ choices.highest i }
{
    if i.operation == PICK { i.b } else { 0 }
}

// May the step take this value?
pub fn on_offer(i: Instruction, v: u8) -> bool
    ensures { result ≡ member v (values i) }
{
    lowest(i) <= v && v <= highest(i)
}
