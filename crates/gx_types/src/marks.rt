//! Marked numbers.

ghost use Rattle.std.specs.Prelude.{◌≡◌, ◌<◌, ◌^◌, All, IfOk, length, vec_len};
ghost use Rattle.gx_types.specs.Marks.{MarksEach, marked_numbers};

use gx_rows::NoMemory;
use std::alloc::Global;

/// Marks these numbers.
pub(crate) fn mark_each(marks: &mut Vec<bool>, numbers: &[u32])
    requires { All (λ n. n < vec_len marks.old) numbers.now }
    ensures len { vec_len marks.new ≡ vec_len marks.old }
    ensures marked { MarksEach numbers.now marks.old.items marks.new.items }
{
    'numbers: for number in numbers {
        marks[*number as usize] = true;
    }
}

/// The marked numbers, ascending.
///
/// # Errors
///
/// `NoMemory` if memory for them runs out.
pub(crate) fn marked(alloc: Global, marks: &[bool]) -> Result<Vec<u32>, NoMemory>
    requires { length marks.now < 2 ^ 32 }
    ensures { IfOk result (λ numbers. numbers.items ≡ marked_numbers 0 marks.now) }
{
    let mut numbers = Vec::new(alloc);
    'marks: for (i, mark) in marks.iter().enumerate() {
        if *mark {
            numbers.push(i as u32)?;
        }
    }
    Ok(numbers)
}
