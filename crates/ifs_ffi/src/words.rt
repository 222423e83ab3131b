//! Words of the program as numbers.

ghost use Rattle.std.specs.Prelude.{◌≡◌, ◌≢◌, None, IfSome};
ghost use Rattle.ifs_options.specs.declared.task.Task.{Task};
ghost use Rattle.ifs_ffi.specs.Words.{number_of};

use ifs_options::Task;

/// The task of the word with this number.
pub(crate) fn task_of(word: u32) -> Option<Task>
    ensures found { IfSome result (λ task. number_of task ≡ word) }
    ensures none { result ≡ None → (task : Task) → number_of task ≢ word }
{
    match word {
        0 => Some(Task::Check),
        1 => Some(Task::Compile),
        2 => Some(Task::Verify),
        3 => Some(Task::Disasm),
        4 => Some(Task::Asm),
        5 => Some(Task::Upgrade),
        6 => Some(Task::Graph),
        _ => None,
    }
}
