// What the programs print, as functions of their input bytes: `split`, `unfold`, `pddl` and `propose` read, call these,
// and write.
#![tactic(auto)]

mod inputs;
mod plans;
mod printing;
mod reading;
mod tasks;

ghost use Rattle.std.specs.Prelude.{◌≡◌, length};
ghost use Rattle.words.specs.Lists.{over};
ghost use Rattle.programs.specs.Programs.{split_program, unfold_program, pddl_program, propose_program};

use defines::LONGEST_PDDL;
use inputs::{read_table, width_of};
use plans::put_plan;
use printing::put_refusal;
pub use reading::read_input;
use task::limits::TABLE_WORDS;
use tasks::{Form, put_made};
use text::LONGEST_TEXT;
use text::plan::LONGEST_PLAN;

// No text of a task is longer, so this much holds whatever `split` and `propose` print.
pub const TEXT_BYTES: usize = LONGEST_TEXT;

// No unfolding of 100 steps is longer, nor is a refusal: this much holds whatever `unfold` prints.
pub const PLAN_BYTES: usize = LONGEST_PLAN;

// No text for planners that read PDDL is longer, nor is a refusal: this much holds whatever `pddl` prints.
pub const PDDL_BYTES: usize = LONGEST_PDDL;

// "The program `split` prints the split of the task on standard input, or `refused=` number, colon, place": from the
// text to the bytes printed, and their number.
pub fn split_text(text: &[u8], out: &mut [u8; TEXT_BYTES]) -> usize
    ensures out_after { out.new ≡ over (split_program text.now) out.old }
    ensures value { result ≡ length (split_program text.now) }
{
    put_made(text, Form::Split, out)
}

// The program `pddl` prints the task on standard input as a domain and a problem, or a refusal as `split` does: from
// the text to the bytes printed, and their number.
pub fn pddl_text(text: &[u8], out: &mut [u8; PDDL_BYTES]) -> usize
    ensures out_after { out.new ≡ over (pddl_program text.now) out.old }
    ensures value { result ≡ length (pddl_program text.now) }
{
    put_made(text, Form::Pddl, out)
}

// "A second program reads the files `task` and `plan` .. and prints the unfolding so": from the two texts to the bytes
// printed, and their number. "`task` is read first, unfolding comes last".
pub fn unfold_texts(task: &[u8], plan: &[u8], out: &mut [u8; PLAN_BYTES]) -> usize
    ensures out_after { out.new ≡
        over (unfold_program task.now plan.now) out.old }
    ensures value { result ≡ length (unfold_program task.now plan.now) }
{
    let mut table = [0u16; TABLE_WORDS];
    match read_table(task, &mut table) {
        Ok(()) => put_plan(&table, plan, out),
        Err(refused) => put_refusal(out, refused),
    }
}

// The program `propose` prints the task on standard input with the partitions that are proposed for the width that its
// argument says, or a refusal as `split` does: from the argument and the text to the bytes printed, and their number.
pub fn propose_text(argument: &[u8], text: &[u8], out: &mut [u8; TEXT_BYTES]) -> usize
    ensures out_after { out.new ≡
        over (propose_program argument.now text.now) out.old }
    ensures value { result ≡ length (propose_program argument.now text.now) }
{
    put_made(text, Form::Proposal(width_of(argument)), out)
}
