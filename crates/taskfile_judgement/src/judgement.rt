// The table's own judgement, numbers 7 to 9, each over the whole table at the first such site.
ghost use Rattle.std.specs.Prelude.{◌≡◌, map};
ghost use Rattle.taskfile.specs.declared.Site.TheVariants.{AtTask};
ghost use Rattle.notation.specs.Checked.{none_of};
ghost use Rattle.taskfile.specs.Judgement.{task_numbers, instruction_sites, of_instruction, of_task};
ghost use Rattle.taskfile.specs.Judgement.{body_fault, rate_fault, ceiling_fault, judged};
ghost use Rattle.taskfile.specs.Code.JudgingParts.{Shaped};
ghost use Rattle.taskfile.specs.Code.Refusals.{outcome};

use crate::faults::{first_body_fault, first_ceiling_fault};
use taskfile::refusals::{Refusal, Refused};
use taskfile::{Site, Table, Task};

// 7 over the whole table.
pub fn judge_bodies(t: &Table) -> Result<(), Refused<Site>>
    requires { Shaped t.now }
    ensures { outcome result ≡ none_of 7 (of_instruction (body_fault t.now)) (instruction_sites t.now) }
{
    for i in 0..t.tasks {
        if let Some(p) = first_body_fault(&t.entries[i as usize]) {
            return Err(Refusal::Body.at(Site::AtInstruction(Task(i), p)));
        }
    }
    Ok(())
}

// 8 over the whole table.
pub fn judge_rates(t: &Table) -> Result<(), Refused<Site>>
    requires { Shaped t.now }
    ensures { outcome result ≡ none_of 8 (of_task (rate_fault t.now)) (map (λ i. AtTask i) (task_numbers t.now)) }
{
    for i in 0..t.tasks {
        let at = i as usize;
        if 0 < at && t.entries[at - 1].period < t.entries[at].period {
            return Err(Refusal::Rate.at(Site::AtTask(Task(i))));
        }
    }
    Ok(())
}

// 9 over the whole table.
pub fn judge_ceilings(t: &Table) -> Result<(), Refused<Site>>
    requires { Shaped t.now }
    ensures { outcome result ≡ none_of 9 (of_instruction (ceiling_fault t.now)) (instruction_sites t.now) }
{
    let ceilings = &t.ceilings[..t.locks as usize];
    for i in 0..t.tasks {
        if let Some(p) = first_ceiling_fault(ceilings, Task(i), &t.entries[i as usize]) {
            return Err(Refusal::Ceiling.at(Site::AtInstruction(Task(i), p)));
        }
    }
    Ok(())
}

// 7, 8 and 9.
pub fn judge(t: &Table) -> Result<(), Refused<Site>>
    requires { Shaped t.now }
    ensures { outcome result ≡ judged t.now }
{
    judge_bodies(t)?;
    judge_rates(t)?;
    judge_ceilings(t)
}
