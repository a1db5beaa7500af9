// A program that reads one task prints what it makes of it, or the refusal.
ghost use Rattle.std.specs.Prelude.{◌≡◌, true, ◌≤◌, length};
ghost use Rattle.task.specs.Table.{task_of, is_table};
ghost use Rattle.text.specs.Text.{read_text};
ghost use Rattle.programs.specs.Programs.{taken, print_reading};
ghost use Rattle.programs.specs.Printing.{Prints, made, room_for};

use crate::inputs::read_table;
use crate::printing::{put_pddl, put_proposal, put_refusal, put_split};
use task::limits::TABLE_WORDS;

// What is made of a task: its split as text, the task as PDDL, or with the partitions proposed for a width.
#[derive(Clone, Copy)]
pub enum Form {
    Split,
    Pddl,
    Proposal(u64),
}

fn put_form(table: &[u16], form: Form, out: &mut [u8]) -> usize
    requires table_value { is_table table.now ≡ true }
    requires form_in_bounds { room_for form ≤ length out.old }
    ensures { Prints out.old (made form (task_of table.now)) out.new result }
{
    match form {
        Form::Split => put_split(table, out),
        Form::Pddl => put_pddl(table, out),
        Form::Proposal(width) => put_proposal(table, width, out),
    }
}

pub fn put_made(input: &[u8], form: Form, out: &mut [u8]) -> usize
    requires { room_for form ≤ length out.old }
    ensures { Prints out.old (print_reading (made form) (read_text (taken input.now)))
        out.new result }
{
    let mut table = [0u16; TABLE_WORDS];
    match read_table(input, &mut table) {
        Ok(()) => put_form(&table, form, out),
        Err(refused) => put_refusal(out, refused),
    }
}
